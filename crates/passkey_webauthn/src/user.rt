//! Users.
ghost use Rattle.std.specs.Prelude.{◌≡◌, ◌<◌, ◌⊎◌, length, IfOk, OnErr};

use passkey_bytes::{Bytes, Text};
use passkey_memory::OutOfMemory;
use std::alloc::Global;

/// The user account that a credential is for (WebAuthn Level 3, section 5.4.3).
#[derive(Debug, Drop, PartialEq, Eq)]
pub struct PublicKeyCredentialUserEntity {
    /// The user handle, which identifies the account: 1 to 64 bytes, without personal information.
    /// The length isn't checked.
    pub id: Bytes,
    /// A name for the user that is only for display. It may be empty.
    pub display_name: Text,
    /// A name for display that tells accounts apart, such as an email address.
    pub name: Text,
}

impl PublicKeyCredentialUserEntity {
    /// Returns an equal value. `OutOfMemory` if an allocation fails, which can't happen if the id
    /// and the names are empty.
    pub fn try_clone(&self, alloc: Global) -> Result<PublicKeyCredentialUserEntity, OutOfMemory>
        ensures same { IfOk result (λ copy. copy ≡ self.now) }
        ensures grows { OnErr result
            ((0 < length self.now.id) ⊎ (0 < length self.now.display_name) ⊎ (0 < length self.now.name)) }
    {
        Ok(PublicKeyCredentialUserEntity {
            id: self.id.try_clone(alloc)?,
            display_name: self.display_name.try_clone(alloc)?,
            name: self.name.try_clone(alloc)?,
        })
    }
}
