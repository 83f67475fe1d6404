//! The errors of decoding and constructing keys.
ghost use Rattle.std.specs.Prelude.{◌≡◌, Some};
ghost use Rattle.passkey_cose.specs.CoseErrors.{cose_error_name, cose_error_of};
ghost use Rattle.passkey_cose.specs.declared.error.CoseError.TheVariants.{OutOfMemory as NoMemory};

use passkey_cbor::CborError;
use passkey_memory::OutOfMemory;
use std::alloc::{AllocError, AllocFailed};
use std::fmt;
use thiserror::Error;

/// Why decoding, constructing or changing a key failed; or decoding authenticator data, which may
/// hold a key.
#[derive(Clone, Copy, Debug, PartialEq, Eq)]
pub enum CoseError {
    /// The bytes are truncated, or no well-formed data item of at most 256 levels is where one is
    /// expected.
    DecodeFailed,
    /// An allocation failed.
    OutOfMemory,
    /// A number is out of range; in authenticator data also: bit 1 or 5 of the flags is set.
    OutOfRangeIntegerValue,
    /// A label occurs twice.
    DuplicateMapKey,
    /// A data item has the wrong type or an invalid value, or is absent; in authenticator data
    /// also: the extensions are no map.
    UnexpectedItem,
}

impl fmt::Display for CoseError {
    ghost output = { λ e. Some (cose_error_name e) };

    fn fmt<W: fmt::Write>(&self, f: &mut fmt::Formatter<W>) -> fmt::Result {
        f.write_str(match self {
            CoseError::DecodeFailed => "DecodeFailed",
            CoseError::OutOfMemory => "OutOfMemory",
            CoseError::OutOfRangeIntegerValue => "OutOfRangeIntegerValue",
            CoseError::DuplicateMapKey => "DuplicateMapKey",
            CoseError::UnexpectedItem => "UnexpectedItem",
        })
    }
}

impl std::error::Error for CoseError {}

impl From<AllocError> for CoseError {
    ghost from_gives = { λ _ e. e ≡ NoMemory };

    fn from(_error: AllocError) -> CoseError {
        CoseError::OutOfMemory
    }
}

impl<T: Drop> From<AllocFailed<T>> for CoseError {
    ghost from_gives = { λ _ e. e ≡ NoMemory };

    fn from(_error: AllocFailed<T>) -> CoseError {
        CoseError::OutOfMemory
    }
}

impl From<OutOfMemory> for CoseError {
    ghost from_gives = { λ _ e. e ≡ NoMemory };

    fn from(_error: OutOfMemory) -> CoseError {
        CoseError::OutOfMemory
    }
}

impl From<CborError> for CoseError {
    ghost from_gives = { λ c e. e ≡ cose_error_of c };

    fn from(error: CborError) -> CoseError {
        match error {
            CborError::DecodeFailed => CoseError::DecodeFailed,
            CborError::OutOfMemory => CoseError::OutOfMemory,
            CborError::OutOfRangeIntegerValue => CoseError::OutOfRangeIntegerValue,
        }
    }
}

/// Why converting a COSE key to or from a key of another library failed.
#[derive(Debug, Drop, Error)]
pub enum CoseKeyConversionError {
    /// Keys of this algorithm can't be converted.
    #[error("UnsupportedAlgorithm")]
    UnsupportedAlgorithm,
    /// A part of the key is absent, or has a wrong value.
    #[error("InvalidCredential")]
    InvalidCredential,
    /// Another reason, in words.
    #[error("{0}")]
    Other(String),
}
