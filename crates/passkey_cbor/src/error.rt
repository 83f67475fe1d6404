//! The errors of decoding data items and constructing values.
ghost use Rattle.std.specs.Prelude.{◌≡◌, Some};
ghost use Rattle.passkey_cbor.specs.ErrorNames.{cbor_error_name};
ghost use Rattle.passkey_cbor.specs.declared.error.CborError.TheVariants.{OutOfMemory as NoMemory};

use passkey_memory::MemoryError;
use std::error::Error;
use std::fmt;

/// Why decoding a data item or constructing a value failed.
#[derive(Clone, Copy, Debug, PartialEq, Eq)]
pub enum CborError {
    /// The bytes don't begin with a well-formed data item of at most 256 levels.
    DecodeFailed,
    /// An allocation failed.
    OutOfMemory,
    /// A number is out of its type's range.
    OutOfRangeIntegerValue,
}

impl fmt::Display for CborError {
    ghost output = { λ e. Some (cbor_error_name e) };

    fn fmt<W: fmt::Write>(&self, f: &mut fmt::Formatter<W>) -> fmt::Result {
        f.write_str(match self {
            CborError::DecodeFailed => "DecodeFailed",
            CborError::OutOfMemory => "OutOfMemory",
            CborError::OutOfRangeIntegerValue => "OutOfRangeIntegerValue",
        })
    }
}

impl Error for CborError {}

impl<E: MemoryError> From<E> for CborError {
    ghost from_gives = { λ _ e. e ≡ NoMemory };

    fn from(_error: E) -> CborError {
        CborError::OutOfMemory
    }
}
