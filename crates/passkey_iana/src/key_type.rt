//! IANA's registry "COSE Key Types", as far as passkeys use it (RFC 9053, section 7).
ghost use Rattle.passkey_iana.specs.Iana.{key_type_number, key_type_named};
ghost use Rattle.passkey_iana.specs.IanaLaws.{key_type_named-number};

use crate::enum_i64::EnumI64;

/// A key type (IANA's registry "COSE Key Types").
#[derive(Clone, Copy, Debug, PartialEq, Eq)]
pub enum KeyType {
    /// The reserved type, which no key has.
    Reserved,
    /// An octet key pair.
    OKP,
    /// An elliptic curve point with both coordinates.
    EC2,
    /// An RSA key.
    RSA,
    /// A symmetric key.
    Symmetric,
}

impl EnumI64 for KeyType {
    ghost number_of = { key_type_number };

    ghost named = { key_type_named };

    ghost numbers_name = { key_type_named-number };

    fn from_i64(number: i64) -> Option<KeyType> {
        match number {
            0 => Some(KeyType::Reserved),
            1 => Some(KeyType::OKP),
            2 => Some(KeyType::EC2),
            3 => Some(KeyType::RSA),
            4 => Some(KeyType::Symmetric),
            _ => None,
        }
    }

    fn to_i64(self) -> i64 {
        match self {
            KeyType::Reserved => 0,
            KeyType::OKP => 1,
            KeyType::EC2 => 2,
            KeyType::RSA => 3,
            KeyType::Symmetric => 4,
        }
    }
}
