//! Relying parties.
ghost use Rattle.std.specs.Prelude.{◌≡◌, ◌<◌, ◌⊎◌, length, IfOk, OnErr};
ghost use Rattle.std.specs.Option.{IsSomeAnd};

use passkey_bytes::Text;
use passkey_memory::OutOfMemory;
use std::alloc::Global;

/// The relying party that a credential is for (WebAuthn Level 3, section 5.4.2).
#[derive(Debug, Drop)]
pub struct PublicKeyCredentialRpEntity {
    /// The relying party id, a domain. `None` means the member is absent; the id is then the
    /// effective domain of the caller's origin.
    pub id: Option<Text>,
    /// A name for display. It is required, though many clients don't show it; the relying party id
    /// is a safe choice.
    pub name: Text,
}

impl PublicKeyCredentialRpEntity {
    /// Returns an equal value. `OutOfMemory` if an allocation fails, which can't happen if both
    /// texts are empty or absent.
    pub fn try_clone(&self, alloc: Global) -> Result<PublicKeyCredentialRpEntity, OutOfMemory>
        ensures same { IfOk result (λ copy. copy ≡ self.now) }
        ensures grows { OnErr result (IsSomeAnd self.now.id (λ id. 0 < length id) ⊎ (0 < length self.now.name)) }
    {
        let id = match &self.id {
            Some(id) => Some(id.try_clone(alloc)?),
            None => None,
        };
        Ok(PublicKeyCredentialRpEntity {
            id,
            name: self.name.try_clone(alloc)?,
        })
    }
}
