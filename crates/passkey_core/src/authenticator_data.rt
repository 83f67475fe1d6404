//! Authenticator data (WebAuthn Level 3, section 6.1).
ghost use Rattle.std.specs.Prelude.{◌≡◌, None, Some, replicate};
ghost use Rattle.std.specs.Int.RustNames.{bit_or};
ghost use Rattle.sha2.specs.Sha256.{sha256};
ghost use Rattle.passkey_core.specs.DataParts.{bare_data};
ghost use Rattle.passkey_core.specs.DataViews.{attested_parts, data_parts};
ghost use Rattle.passkey_core.specs.DataFlags.{attested_flag};

use crate::attested::AttestedCredentialData;
use crate::flags::Flags;
use passkey_cbor::Value;
use sha2::{Digest, Sha256};

mod coherence;
mod equality;
mod extensions;
mod reading;
mod writing;

/// What an authenticator signs about a registration or an assertion: the relying party, flags, a
/// signature counter, the new credential and extension outputs (WebAuthn Level 3, section 6.1).
#[derive(Debug, Drop)]
pub struct AuthenticatorData {
    rp_id_hash: [u8; 32],
    /// The flags: user present, user verified, backup state, and which parts follow.
    pub flags: Flags,
    /// The signature counter. `None` means that the authenticator keeps none, and is encoded as 0.
    /// Decoding never returns `None`.
    pub counter: Option<u32>,
    /// The new credential; `None` means the part is absent, as in an assertion.
    pub attested_credential_data: Option<AttestedCredentialData>,
    /// The extension outputs: a map from extension identifiers; `None` means the part is absent.
    /// Another data item is encoded as it is, but then the data isn't coherent.
    pub extensions: Option<Value>,
}

impl AuthenticatorData {
    /// Returns authenticator data for this relying party id, of which it holds the SHA-256 hash,
    /// with the flags BE and BS and without other parts. BE and BS say that the credential may be
    /// backed up, and is. If it isn't, assign `flags` next, as `data.flags = Flags::UP`, since
    /// `set_flags` only adds.
    pub fn new(rp_id: &str, counter: Option<u32>) -> AuthenticatorData
        ensures { data_parts result ≡ bare_data (sha256 rp_id.now) 24 counter }
    {
        AuthenticatorData {
            rp_id_hash: Sha256::digest(rp_id),
            flags: Flags::default(),
            counter,
            attested_credential_data: None,
            extensions: None,
        }
    }

    /// Returns authenticator data with a hash of 32 zero bytes, the flags BE and BS, no counter and
    /// no other parts.
    pub fn empty() -> AuthenticatorData
        ensures { data_parts result ≡ bare_data (replicate 32 0) 24 None }
    {
        AuthenticatorData {
            rp_id_hash: [0; 32],
            flags: Flags::BE | Flags::BS,
            counter: None,
            attested_credential_data: None,
            extensions: None,
        }
    }

    /// The SHA-256 hash of the relying party id, 32 bytes.
    pub fn rp_id_hash(&self) -> &[u8]
        ensures { result.now ≡ (data_parts self.now).rp_id_hash }
    {
        &self.rp_id_hash
    }

    /// Returns the data with these flags set in addition to its own. It clears none: for data
    /// without BE and BS, which `new` sets, assign `flags`.
    pub fn set_flags(mut self, flags: Flags) -> AuthenticatorData
        ensures { data_parts result ≡ record (data_parts self) { flags = bit_or self.flags.0 flags.0 } }
    {
        self.flags |= flags;
        self
    }

    /// Returns the data with this attested credential data, and with the flag AT set.
    pub fn set_attested_credential_data(
        mut self,
        attested: AttestedCredentialData,
    ) -> AuthenticatorData
        ensures { data_parts result ≡ record (data_parts self)
            { attested = Some (attested_parts attested); flags = bit_or self.flags.0 attested_flag } }
    {
        self.attested_credential_data = Some(attested);
        self.set_flags(Flags::AT)
    }
}
