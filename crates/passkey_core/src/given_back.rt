//! Values that are returned if memory runs out.

use passkey_cose::CoseError;
use passkey_memory::OutOfMemory;
use thiserror::Error;

/// An allocation failed; the value that the call would have consumed is returned unchanged.
#[derive(Debug, Drop, Error)]
#[error("OutOfMemory")]
pub struct GivenBack<T> {
    /// The value, as it was before the call.
    pub value: T,
}

impl<T: Drop> From<GivenBack<T>> for OutOfMemory {
    fn from(_back: GivenBack<T>) -> OutOfMemory {
        OutOfMemory
    }
}
