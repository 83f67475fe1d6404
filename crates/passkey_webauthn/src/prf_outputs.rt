//! Outputs of the prf extension.
ghost use Rattle.std.specs.Prelude.{◌≡◌, ◌<◌, ◌⊎◌, length, IfOk, OnErr};
ghost use Rattle.std.specs.Option.{IsSomeAnd};

use crate::prf_values::AuthenticationExtensionsPrfValues;
use passkey_memory::OutOfMemory;
use std::alloc::Global;

/// The outputs of the prf extension to a relying party (WebAuthn Level 3, section 10.1.4).
#[derive(Debug, Drop)]
pub struct AuthenticationExtensionsPrfOutputs {
    /// Whether the new credential supports prf. `None` means the member is absent, as in an
    /// assertion.
    pub enabled: Option<bool>,
    /// The outputs for the salts; `None` means the member is absent.
    pub results: Option<AuthenticationExtensionsPrfValues>,
}

impl AuthenticationExtensionsPrfOutputs {
    /// Returns an equal value. `OutOfMemory` if an allocation fails, which can't happen if the
    /// results are absent or empty.
    pub fn try_clone(
        &self,
        alloc: Global,
    ) -> Result<AuthenticationExtensionsPrfOutputs, OutOfMemory>
        ensures same { IfOk result (λ copy. copy ≡ self.now) }
        ensures grows { OnErr result (IsSomeAnd self.now.results
            (λ values. IsSomeAnd values.second (λ bytes. 0 < length bytes) ⊎ (0 < length values.first))) }
    {
        let results = match &self.results {
            Some(values) => Some(values.try_clone(alloc)?),
            None => None,
        };
        Ok(AuthenticationExtensionsPrfOutputs {
            enabled: self.enabled,
            results,
        })
    }
}
