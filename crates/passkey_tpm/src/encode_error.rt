//! Why a TPM structure was not encoded.
ghost use Rattle.std.specs.Prelude.{◌≡◌};
ghost use Rattle.passkey_tpm.specs.declared.encode_error.EncodeError.TheVariants.{OutOfMemory as NoMemory};

use passkey_memory::MemoryError;
use thiserror::Error;

/// Why a TPM structure was not encoded.
#[derive(Clone, Copy, Debug, Error, PartialEq, Eq)]
pub enum EncodeError {
    /// An allocation failed.
    #[error("OutOfMemory")]
    OutOfMemory,
    /// A byte string is longer than 65535 bytes, so that 2 bytes don't hold its length.
    #[error("TooLong")]
    TooLong,
}

impl<E: MemoryError> From<E> for EncodeError {
    ghost from_gives = { λ _ e. e ≡ NoMemory };

    fn from(_error: E) -> EncodeError {
        EncodeError::OutOfMemory
    }
}
