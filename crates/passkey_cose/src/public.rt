//! What a public key consists of, by its type.
ghost use Rattle.std.specs.Prelude.{◌≡◌, option_map};
ghost use Rattle.passkey_cose.specs.Key.{key_parts};
ghost use Rattle.passkey_cose.specs.KeyPublic.{number_param, bytes_param, is_of, ec2_parts, okp_parts, rsa_parts};

use crate::checking::signed_64;
use crate::iana::KeyType;
use crate::key::CoseKey;
use crate::label::Label;
use crate::registered::Registered;
use passkey_cbor::Value;

impl CoseKey {
    fn number_param(&self, label: i64) -> Option<i64>
        ensures { result ≡ number_param label (key_parts self.now) }
    {
        match self.param(&Label::Int(label)) {
            Some(Value::Integer(n)) => signed_64(*n),
            _ => None,
        }
    }

    fn bytes_param(&self, label: i64) -> Option<&[u8]>
        ensures { option_map (λ s. s.now) result ≡ bytes_param label (key_parts self.now) }
    {
        match self.param(&Label::Int(label)) {
            Some(Value::Bytes(bytes)) => Some(bytes.as_slice()),
            _ => None,
        }
    }

    fn is_of(&self, kty: KeyType) -> bool
        ensures { result ≡ is_of kty (key_parts self.now) }
    {
        *self.kty() == Registered::Assigned(kty)
    }

    /// The parts of an EC2 key, `(curve, x, y)`: the curve's number (label -1; 1 is P-256) and the
    /// point's coordinates (labels -2 and -3), big-endian, as many bytes as the key has of each (RFC
    /// 9053, section 7.1.1). Whether the point is on the curve isn't checked.
    ///
    /// `None` if the key's type isn't `Assigned(EC2)`, the curve is no integer of 64 signed bits, or
    /// a coordinate is no byte string; so also if one is absent, for a curve that is a text, and for
    /// a compressed point, whose y is a boolean.
    pub fn ec2(&self) -> Option<(i64, &[u8], &[u8])>
        ensures { option_map (λ r. (r.0, (r.1.now, r.2.now))) result ≡ ec2_parts (key_parts self.now) }
    {
        if !self.is_of(KeyType::EC2) {
            return None;
        }
        Some((
            self.number_param(-1)?,
            self.bytes_param(-2)?,
            self.bytes_param(-3)?,
        ))
    }

    /// The parts of an octet key pair, `(curve, x)`: the curve's number (label -1; 6 is Ed25519) and
    /// the public key (label -2; RFC 9053, section 7.2).
    ///
    /// `None` if the key's type isn't `Assigned(OKP)`, the curve is no integer of 64 signed bits, or
    /// x is no byte string.
    pub fn okp(&self) -> Option<(i64, &[u8])>
        ensures { option_map (λ r. (r.0, r.1.now)) result ≡ okp_parts (key_parts self.now) }
    {
        if !self.is_of(KeyType::OKP) {
            return None;
        }
        Some((self.number_param(-1)?, self.bytes_param(-2)?))
    }

    /// The parts of an RSA key, `(n, e)`: the modulus (label -1) and the public exponent (label -2),
    /// big-endian (RFC 8230, section 4).
    ///
    /// `None` if the key's type isn't `Assigned(RSA)`, or one of these is no byte string.
    pub fn rsa(&self) -> Option<(&[u8], &[u8])>
        ensures { option_map (λ r. (r.0.now, r.1.now)) result ≡ rsa_parts (key_parts self.now) }
    {
        if !self.is_of(KeyType::RSA) {
            return None;
        }
        Some((self.bytes_param(-1)?, self.bytes_param(-2)?))
    }
}
