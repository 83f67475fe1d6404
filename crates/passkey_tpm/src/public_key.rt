//! Public keys: the parameters and the unique part of `pubArea`.
ghost use Rattle.std.specs.Prelude.{◌≡◌, ◌++◌, Err, OnOk};
ghost use Rattle.passkey_tpm.specs.Parts.{begun};
ghost use Rattle.passkey_tpm.specs.PubArea.{rsa_parts, ecc_parts, key_parts, curve_at, type_at, rsa_at, ecc_at, key_at};
ghost use Rattle.passkey_tpm.specs.PubArea.{rsa_written, ecc_written, key_type, key_written, IsRsa, IsEcc, IsKey, IsLongKey};
ghost use Rattle.passkey_tpm.specs.PubArea.KeyParts.{rsa, ecc};
ghost use Rattle.passkey_tpm.specs.declared.encode_error.EncodeError.TheVariants.{TooLong};

use crate::part::{Begun, push_sized, read_sized, read_u16, read_u32, refused, skip_u16};
use crate::refusal::{TpmField, TpmReason};
use crate::scheme::{
    NULL, push_ecc_scheme, push_kdf, push_rsa_scheme, read_ecc_scheme, read_kdf, read_rsa_scheme,
};
use crate::{EccScheme, EncodeError, KdfScheme, RsaScheme};

/// TPM_ALG_RSA.
const RSA: u16 = 0x0001;

/// TPM_ALG_ECC.
const ECC: u16 = 0x0023;

/// The TPM_ECC_CURVE of an elliptic curve (TPM 2.0 Library, Part 2, section 6.4). Any number is
/// kept.
#[derive(Clone, Copy, Debug, PartialEq, Eq)]
pub struct Curve(pub u16);

impl Curve {
    /// TPM_ECC_NIST_P192.
    pub const P192: Curve = Curve(0x0001);

    /// TPM_ECC_NIST_P224.
    pub const P224: Curve = Curve(0x0002);

    /// TPM_ECC_NIST_P256.
    pub const P256: Curve = Curve(0x0003);

    /// TPM_ECC_NIST_P384.
    pub const P384: Curve = Curve(0x0004);

    /// TPM_ECC_NIST_P521.
    pub const P521: Curve = Curve(0x0005);

    /// TPM_ECC_BN_P256.
    pub const BN_P256: Curve = Curve(0x0010);

    /// TPM_ECC_BN_P638.
    pub const BN_P638: Curve = Curve(0x0011);

    /// TPM_ECC_SM2_P256.
    pub const SM2_P256: Curve = Curve(0x0020);
}

/// An RSA key: TPMS_RSA_PARMS, and the modulus as a TPM2B_PUBLIC_KEY_RSA (TPM 2.0 Library, Part 2).
/// `symmetric` is TPM_ALG_NULL.
#[derive(Clone, Copy, Debug)]
pub struct RsaKey<'a> {
    /// `scheme`.
    pub scheme: RsaScheme,
    /// `keyBits`: the number of bits of the modulus.
    pub key_bits: u16,
    /// `exponent`: the public exponent, where 0 means 65537.
    pub exponent: u32,
    /// `unique`: the modulus, big-endian.
    pub modulus: &'a [u8],
}

/// A key on an elliptic curve: TPMS_ECC_PARMS, and the point as a TPMS_ECC_POINT (TPM 2.0 Library,
/// Part 2). `symmetric` is TPM_ALG_NULL.
#[derive(Clone, Copy, Debug)]
pub struct EccKey<'a> {
    /// `scheme`.
    pub scheme: EccScheme,
    /// `curveID`.
    pub curve: Curve,
    /// `kdf`.
    pub kdf: KdfScheme,
    /// The point's x coordinate, big-endian.
    pub x: &'a [u8],
    /// The point's y coordinate, big-endian.
    pub y: &'a [u8],
}

/// `parameters` and `unique` of a TPMT_PUBLIC, by its type.
#[derive(Clone, Copy, Debug)]
pub enum PublicKey<'a> {
    /// The type 0x0001, TPM_ALG_RSA.
    Rsa(RsaKey<'a>),
    /// The type 0x0023, TPM_ALG_ECC.
    Ecc(EccKey<'a>),
}

#[tactic(auto, unfolding(crate::specs::PubArea::curve_at))]
fn read_curve(bytes: &[u8]) -> Begun<'_, Curve>
    ensures { begun (λ r. (r.0, r.1.now)) result ≡ curve_at bytes.now }
{
    let (id, rest) = read_u16(TpmField::CurveId, bytes)?;
    Ok((Curve(id), rest))
}

/// The type of a key.
#[derive(Clone, Copy)]
pub(crate) enum KeyType {
    Rsa,
    Ecc,
}

#[tactic(auto, unfolding(crate::specs::PubArea::type_at))]
pub(crate) fn read_type(bytes: &[u8]) -> Begun<'_, KeyType>
    ensures { begun (λ r. (r.0, r.1.now)) result ≡ type_at bytes.now }
{
    let (id, rest) = read_u16(TpmField::KeyType, bytes)?;
    match id {
        RSA => Ok((KeyType::Rsa, rest)),
        ECC => Ok((KeyType::Ecc, rest)),
        _ => Err(refused(TpmField::KeyType, bytes, 2, TpmReason::Unknown)),
    }
}

#[tactic(auto, unfolding(crate::specs::PubArea::rsa_at))]
fn read_rsa(bytes: &[u8]) -> Begun<'_, RsaKey<'_>>
    ensures { begun (λ r. (rsa_parts r.0, r.1.now)) result ≡ rsa_at bytes.now }
{
    let rest = skip_u16(TpmField::Symmetric, NULL, bytes)?;
    let (scheme, rest) = read_rsa_scheme(rest)?;
    let (key_bits, rest) = read_u16(TpmField::KeyBits, rest)?;
    let (exponent, rest) = read_u32(TpmField::Exponent, rest)?;
    let (modulus, rest) = read_sized(TpmField::Modulus, rest)?;
    let key = RsaKey {
        scheme,
        key_bits,
        exponent,
        modulus,
    };
    Ok((key, rest))
}

#[tactic(auto, unfolding(crate::specs::PubArea::ecc_at))]
fn read_ecc(bytes: &[u8]) -> Begun<'_, EccKey<'_>>
    ensures { begun (λ r. (ecc_parts r.0, r.1.now)) result ≡ ecc_at bytes.now }
{
    let rest = skip_u16(TpmField::Symmetric, NULL, bytes)?;
    let (scheme, rest) = read_ecc_scheme(rest)?;
    let (curve, rest) = read_curve(rest)?;
    let (kdf, rest) = read_kdf(rest)?;
    let (x, rest) = read_sized(TpmField::X, rest)?;
    let (y, rest) = read_sized(TpmField::Y, rest)?;
    let key = EccKey {
        scheme,
        curve,
        kdf,
        x,
        y,
    };
    Ok((key, rest))
}

/// The key of this type.
pub(crate) fn read_key(kind: KeyType, bytes: &[u8]) -> Begun<'_, PublicKey<'_>>
    ensures { begun (λ r. (key_parts r.0, r.1.now)) result ≡ key_at kind bytes.now }
{
    match kind {
        KeyType::Rsa => {
            let (key, rest) = read_rsa(bytes)?;
            Ok((PublicKey::Rsa(key), rest))
        }
        KeyType::Ecc => {
            let (key, rest) = read_ecc(bytes)?;
            Ok((PublicKey::Ecc(key), rest))
        }
    }
}

#[tactic(auto, using(std::proofs::lemmas::List::append_assoc))]
fn push_rsa(out: &mut Vec<u8>, key: &RsaKey<'_>) -> Result<(), EncodeError>
    ensures written { OnOk result (out.new.items ≡ out.old.items ++ rsa_written (rsa_parts key.now)) }
    ensures valid { OnOk result (IsRsa (rsa_parts key.now)) }
    ensures long { result ≡ Err TooLong → IsLongKey (rsa (rsa_parts key.now)) }
{
    out.extend_from_slice(&NULL.to_be_bytes())?;
    push_rsa_scheme(out, key.scheme)?;
    out.extend_from_slice(&key.key_bits.to_be_bytes())?;
    out.extend_from_slice(&key.exponent.to_be_bytes())?;
    push_sized(out, key.modulus)
}

#[tactic(auto, using(std::proofs::lemmas::List::append_assoc))]
fn push_ecc(out: &mut Vec<u8>, key: &EccKey<'_>) -> Result<(), EncodeError>
    ensures written { OnOk result (out.new.items ≡ out.old.items ++ ecc_written (ecc_parts key.now)) }
    ensures valid { OnOk result (IsEcc (ecc_parts key.now)) }
    ensures long { result ≡ Err TooLong → IsLongKey (ecc (ecc_parts key.now)) }
{
    out.extend_from_slice(&NULL.to_be_bytes())?;
    push_ecc_scheme(out, key.scheme)?;
    out.extend_from_slice(&key.curve.0.to_be_bytes())?;
    push_kdf(out, key.kdf)?;
    push_sized(out, key.x)?;
    push_sized(out, key.y)
}

pub(crate) fn push_key(out: &mut Vec<u8>, key: &PublicKey<'_>) -> Result<(), EncodeError>
    ensures written { OnOk result (out.new.items ≡ out.old.items ++ key_written (key_parts key.now)) }
    ensures valid { OnOk result (IsKey (key_parts key.now)) }
    ensures long { result ≡ Err TooLong → IsLongKey (key_parts key.now) }
{
    match key {
        PublicKey::Rsa(key) => push_rsa(out, key),
        PublicKey::Ecc(key) => push_ecc(out, key),
    }
}

impl<'a> PublicKey<'a> {
    /// Returns the type of a TPMT_PUBLIC with this key.
    pub(crate) fn kind(&self) -> u16
        ensures { result ≡ key_type (key_parts self.now) }
    {
        match self {
            PublicKey::Rsa(_) => RSA,
            PublicKey::Ecc(_) => ECC,
        }
    }
}
