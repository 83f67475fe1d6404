//! Keys to which a part wasn't added.
ghost use Rattle.std.specs.Prelude.{◌≡◌};

use crate::error::CoseError;
use crate::key::CoseKey;
use thiserror::Error;

/// A part wasn't added to the key, which is returned unchanged.
#[derive(Debug, Drop, Error)]
#[error("{error}")]
pub struct RefusedKey {
    /// The key, as it was before the call.
    pub key: CoseKey,
    /// Why the part wasn't added.
    pub error: CoseError,
}

impl From<RefusedKey> for CoseError {
    ghost from_gives = { λ r e. e ≡ r.error };

    fn from(refused: RefusedKey) -> CoseError {
        refused.error
    }
}
