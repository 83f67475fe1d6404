//! Salts and outputs of the prf extension.
ghost use Rattle.std.specs.Prelude.{◌≡◌, ◌<◌, ◌⊎◌, length, IfOk, OnErr};
ghost use Rattle.std.specs.Option.{IsSomeAnd};

use passkey_bytes::Bytes;
use passkey_memory::OutOfMemory;
use std::alloc::{AllocError, Global};

/// One or two salts for the prf extension, or the outputs for them (WebAuthn Level 3, section
/// 10.1.4).
#[derive(Debug, Drop)]
pub struct AuthenticationExtensionsPrfValues {
    /// The first salt or output.
    pub first: Bytes,
    /// The second salt or output; `None` means the member is absent.
    pub second: Option<Bytes>,
}

impl AuthenticationExtensionsPrfValues {
    /// Returns an equal value. `OutOfMemory` if an allocation fails, which can't happen if both are
    /// empty or absent.
    pub fn try_clone(&self, alloc: Global) -> Result<AuthenticationExtensionsPrfValues, OutOfMemory>
        ensures same { IfOk result (λ copy. copy ≡ self.now) }
        ensures grows { OnErr result
            (IsSomeAnd self.now.second (λ bytes. 0 < length bytes) ⊎ (0 < length self.now.first)) }
    {
        let second = match &self.second {
            Some(bytes) => Some(bytes.try_clone(alloc)?),
            None => None,
        };
        Ok(AuthenticationExtensionsPrfValues {
            first: self.first.try_clone(alloc)?,
            second,
        })
    }
}

impl Clone for AuthenticationExtensionsPrfValues {
    ghost is_clone = { λ values copy. copy ≡ values };

    fn clone(&self) -> Result<AuthenticationExtensionsPrfValues, AllocError> {
        Ok(AuthenticationExtensionsPrfValues {
            first: self.first.clone()?,
            second: self.second.clone()?,
        })
    }
}
