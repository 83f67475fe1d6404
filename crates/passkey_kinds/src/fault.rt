//! Why a value or a message was not decoded, or a message not encoded.
ghost use Rattle.std.specs.Prelude.{◌≡◌, Some};
ghost use Rattle.passkey_kinds.specs.Message.{fault_name};
ghost use Rattle.passkey_kinds.specs.declared.fault.Fault.TheVariants.{OutOfMemory as NoRoom};
ghost use Rattle.passkey_kinds.specs.declared.fault.Refusal.TheVariants.{OutOfMemory as NoMemory};
ghost use Rattle.passkey_kinds.specs.declared.fault.WriteFault.TheVariants.{OutOfMemory as Full};

use passkey_memory::MemoryError;
use std::{error, fmt};
use thiserror::Error;

/// Why a value was not decoded from a data item.
#[derive(Clone, Copy, Debug, Error, PartialEq, Eq)]
pub enum Refusal {
    /// The type doesn't accept the data item.
    #[error("Refused")]
    Refused,
    /// An allocation failed.
    #[error("OutOfMemory")]
    OutOfMemory,
}

impl<E: MemoryError> From<E> for Refusal {
    ghost from_gives = { λ _ e. e ≡ NoMemory };

    fn from(_error: E) -> Refusal {
        Refusal::OutOfMemory
    }
}

/// Why a message was not decoded. A member is given by its number in the message.
#[derive(Clone, Copy, Debug, PartialEq, Eq)]
pub enum Fault {
    /// The bytes don't begin with a well-formed data item of at most 256 nesting levels.
    DecodeFailed,
    /// An allocation failed.
    OutOfMemory,
    /// The data item isn't a map.
    NotAMap,
    /// A map key is neither a text string nor a byte string nor, if members have numbers, an
    /// unsigned integer up to 255.
    BadKey,
    /// This member is present twice.
    Repeated(u8),
    /// The value of this member isn't accepted.
    Refused(u8),
    /// This required member is absent.
    Missing(u8),
}

impl fmt::Display for Fault {
    ghost output = { λ e. Some (fault_name e) };

    fn fmt<W: fmt::Write>(&self, f: &mut fmt::Formatter<W>) -> fmt::Result {
        match self {
            Fault::DecodeFailed => f.write_str("DecodeFailed"),
            Fault::OutOfMemory => f.write_str("OutOfMemory"),
            Fault::NotAMap => f.write_str("NotAMap"),
            Fault::BadKey => f.write_str("BadKey"),
            Fault::Repeated(number) => write!(f, "Repeated({number})"),
            Fault::Refused(number) => write!(f, "Refused({number})"),
            Fault::Missing(number) => write!(f, "Missing({number})"),
        }
    }
}

impl error::Error for Fault {}

impl<E: MemoryError> From<E> for Fault {
    ghost from_gives = { λ _ e. e ≡ NoRoom };

    fn from(_error: E) -> Fault {
        Fault::OutOfMemory
    }
}

/// Why a message was not encoded.
#[derive(Clone, Copy, Debug, Error, PartialEq, Eq)]
pub enum WriteFault {
    /// An allocation failed.
    #[error("OutOfMemory")]
    OutOfMemory,
    /// A number is 2^64 or more, so no CBOR integer holds it (RFC 8949, section 3.1).
    #[error("NumberTooLarge")]
    NumberTooLarge,
}

impl<E: MemoryError> From<E> for WriteFault {
    ghost from_gives = { λ _ e. e ≡ Full };

    fn from(_error: E) -> WriteFault {
        WriteFault::OutOfMemory
    }
}
