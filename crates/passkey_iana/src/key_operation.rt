//! The operations that a key may be used for (RFC 9052, section 7.1).
ghost use Rattle.passkey_iana.specs.Iana.{key_operation_number, key_operation_named};
ghost use Rattle.passkey_iana.specs.IanaLaws.{key_operation_named-number};

use crate::enum_i64::EnumI64;

/// An operation that a key may be used for (RFC 9052, section 7.1).
#[derive(Clone, Copy, Debug, PartialEq, Eq)]
pub enum KeyOperation {
    /// Make signatures.
    Sign,
    /// Verify signatures.
    Verify,
    /// Encrypt.
    Encrypt,
    /// Decrypt.
    Decrypt,
    /// Encrypt keys.
    WrapKey,
    /// Decrypt keys.
    UnwrapKey,
    /// Derive keys.
    DeriveKey,
    /// Derive bits that aren't used as a key.
    DeriveBits,
    /// Make message authentication codes.
    MacCreate,
    /// Verify message authentication codes.
    MacVerify,
}

impl EnumI64 for KeyOperation {
    ghost number_of = { key_operation_number };

    ghost named = { key_operation_named };

    ghost numbers_name = { key_operation_named-number };

    fn from_i64(number: i64) -> Option<KeyOperation> {
        match number {
            1 => Some(KeyOperation::Sign),
            2 => Some(KeyOperation::Verify),
            3 => Some(KeyOperation::Encrypt),
            4 => Some(KeyOperation::Decrypt),
            5 => Some(KeyOperation::WrapKey),
            6 => Some(KeyOperation::UnwrapKey),
            7 => Some(KeyOperation::DeriveKey),
            8 => Some(KeyOperation::DeriveBits),
            9 => Some(KeyOperation::MacCreate),
            10 => Some(KeyOperation::MacVerify),
            _ => None,
        }
    }

    fn to_i64(self) -> i64 {
        match self {
            KeyOperation::Sign => 1,
            KeyOperation::Verify => 2,
            KeyOperation::Encrypt => 3,
            KeyOperation::Decrypt => 4,
            KeyOperation::WrapKey => 5,
            KeyOperation::UnwrapKey => 6,
            KeyOperation::DeriveKey => 7,
            KeyOperation::DeriveBits => 8,
            KeyOperation::MacCreate => 9,
            KeyOperation::MacVerify => 10,
        }
    }
}
