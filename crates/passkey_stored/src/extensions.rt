//! Extension data of stored passkeys.
ghost use Rattle.std.specs.Prelude.{◌≡◌, IfOk, IfSome, OnErr};
ghost use Rattle.std.specs.Option.{IsSomeAnd};
ghost use Rattle.passkey_stored.specs.Extensions.{no_extensions};
ghost use Rattle.passkey_stored.specs.HmacSecret.{HoldsSecrets, erased};

use crate::hmac_secret::StoredHmacSecret;
use passkey_memory::OutOfMemory;
use std::alloc::Global;

/// The extension data that is stored with a passkey.
#[derive(Debug, Drop, PartialEq)]
pub struct CredentialExtensions {
    /// The secrets of the extension hmac-secret; `None` means the extension isn't enabled.
    pub hmac_secret: Option<StoredHmacSecret>,
}

impl CredentialExtensions {
    /// Returns the extension data of a passkey without extensions.
    pub fn empty() -> CredentialExtensions
        ensures { result ≡ no_extensions }
    {
        CredentialExtensions { hmac_secret: None }
    }

    /// Returns an equal value. Returns `OutOfMemory` if an allocation fails, which can't happen if
    /// there are no secrets or only empty ones.
    pub fn try_clone(&self, alloc: Global) -> Result<CredentialExtensions, OutOfMemory>
        ensures same { IfOk result (λ copy. copy ≡ self.now) }
        ensures grows { OnErr result (IsSomeAnd self.now.hmac_secret HoldsSecrets) }
    {
        let hmac_secret = match &self.hmac_secret {
            Some(secret) => Some(secret.try_clone(alloc)?),
            None => None,
        };
        Ok(CredentialExtensions { hmac_secret })
    }

    /// Overwrites the secrets with zeros and removes them, so that nothing is stored. The compiler
    /// may leave copies of them in memory; see `StoredHmacSecret::zeroize`.
    pub fn zeroize(&mut self)
        ensures { self.new ≡ no_extensions }
    {
        if let Some(secret) = &mut self.hmac_secret {
            secret.zeroize();
        }
        self.remove();
    }

    /// Removes the secrets once they are erased.
    fn remove(&mut self)
        requires { IfSome self.old.hmac_secret (λ secret. secret ≡ erased) }
        ensures { self.new ≡ no_extensions }
    {
        self.hmac_secret = None;
    }
}
