//! Credential descriptors.
ghost use Rattle.std.specs.Prelude.{◌≡◌, ◌≢◌, ◌↔◌, ◌<◌, ◌⊎◌, length, IfOk, IsTrue, OnErr};
ghost use Rattle.std.specs.Option.{IsSomeAnd};

use crate::credential_type::PublicKeyCredentialType;
use crate::transport::AuthenticatorTransport;
use passkey_bytes::{Bytes, List};
use passkey_memory::OutOfMemory;
use std::alloc::Global;

/// A credential, by its id (WebAuthn Level 3, section 5.8.3).
#[derive(Debug, Drop, PartialEq, Eq)]
pub struct PublicKeyCredentialDescriptor {
    /// The type of the credential.
    pub ty: PublicKeyCredentialType,
    /// The credential id: 16 to 1023 bytes (WebAuthn Level 3, section 4). The length isn't checked.
    pub id: Bytes,
    /// How the client may reach the authenticator; `None` means the member is absent. Unknown
    /// values must be ignored, so decoding skips them.
    pub transports: Option<List<AuthenticatorTransport>>,
}

impl PublicKeyCredentialDescriptor {
    /// Whether the credential type is a known one. WebAuthn clients ignore descriptors of unknown
    /// types.
    pub fn is_known(&self) -> bool
        ensures { IsTrue result ↔ (self.now.ty ≢ PublicKeyCredentialType.Unknown) }
    {
        match self.ty {
            PublicKeyCredentialType::PublicKey => true,
            PublicKeyCredentialType::Unknown => false,
        }
    }

    /// Returns an equal value. `OutOfMemory` if an allocation fails, which can't happen if the id
    /// is empty and there are no transports.
    pub fn try_clone(&self, alloc: Global) -> Result<PublicKeyCredentialDescriptor, OutOfMemory>
        ensures same { IfOk result (λ copy. copy ≡ self.now) }
        ensures grows { OnErr result
            ((0 < length self.now.id) ⊎ IsSomeAnd self.now.transports (λ ts. 0 < length ts)) }
    {
        let transports = match &self.transports {
            Some(transports) => Some(transports.try_clone(alloc)?),
            None => None,
        };
        Ok(PublicKeyCredentialDescriptor {
            ty: self.ty,
            id: self.id.try_clone(alloc)?,
            transports,
        })
    }
}
