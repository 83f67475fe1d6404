//! Attested credential data (WebAuthn Level 3, section 6.5.1).
ghost use Rattle.std.specs.Prelude.{◌≡◌, ◌↔◌, ◌<◌, ◌^◌, ◌⊎◌, length, IsOk, IfOk, IsTrue, OnErr};
ghost use Rattle.std.specs.Cmp.{on_per, partial_equiv_from_equiv};
ghost use Rattle.std.specs.Ordering.{on};
ghost use Rattle.passkey_cose.specs.Key.{key_parts};
ghost use Rattle.passkey_cose.specs.KeyParts.{KeyGrows};
ghost use Rattle.passkey_core.specs.DataSame.{attested_eq, attested_eq-equivalence};
ghost use Rattle.passkey_core.specs.DataViews.{attested_parts};

use crate::aaguid::Aaguid;
use passkey_cose::CoseKey;
use passkey_memory::OutOfMemory;
use std::alloc::Global;
use std::num::TryFromIntError;

mod data;
mod iter;

pub use data::AttestedCredentialData;
pub use iter::AttestedCredentialDataIterator;

impl AttestedCredentialData {
    /// Returns attested credential data with these parts. `TryFromIntError` if the credential id
    /// has more than 65535 bytes, since its length is encoded in two bytes. (Relying parties should
    /// reject more than 1023: WebAuthn Level 3, section 7.1.)
    pub fn new(
        aaguid: Aaguid,
        credential_id: Vec<u8>,
        key: CoseKey,
    ) -> Result<AttestedCredentialData, TryFromIntError>
        ensures range { IsOk result ↔ (length credential_id.items < 2 ^ 16) }
        ensures value { IfOk result (λ made. attested_parts made
            ≡ record { aaguid = aaguid.0; credential_id = credential_id.items; key = key_parts key }) }
    {
        u16::try_from(credential_id.len())?;
        Ok(AttestedCredentialData {
            aaguid,
            credential_id,
            key,
        })
    }

    /// The credential id, at most 65535 bytes.
    pub fn credential_id(&self) -> &[u8]
        ensures value { result.now ≡ (attested_parts self.now).credential_id }
        ensures fits { length result.now < 2 ^ 16 }
    {
        self.credential_id.as_slice()
    }

    /// Returns equal data. `OutOfMemory` if an allocation fails, which can't happen if the
    /// credential id is empty and the key takes no memory.
    pub fn try_clone(&self, alloc: Global) -> Result<AttestedCredentialData, OutOfMemory>
        ensures same { IfOk result (λ copy. attested_parts copy ≡ attested_parts self.now) }
        ensures grows { OnErr result
            ((0 < length (attested_parts self.now).credential_id) ⊎ KeyGrows (attested_parts self.now).key) }
    {
        let mut credential_id = Vec::new(alloc);
        credential_id.extend_from_slice(&self.credential_id)?;
        Ok(AttestedCredentialData {
            aaguid: self.aaguid,
            credential_id,
            key: self.key.try_clone(alloc)?,
        })
    }
}

impl PartialEq for AttestedCredentialData {
    ghost eq = { on attested_parts attested_eq };

    ghost laws = { on_per attested_parts (partial_equiv_from_equiv attested_eq-equivalence) };

    /// Whether both have the same parts.
    #[tactic(auto, using(crate::specs::DataSame::attested_Decides))]
    fn eq(&self, other: &AttestedCredentialData) -> bool
        ensures value { result ≡ attested_eq (attested_parts self.now) (attested_parts other.now) }
        ensures same { IsTrue result ↔ (attested_parts self.now ≡ attested_parts other.now) }
    {
        self.aaguid.0 == other.aaguid.0
            && self.credential_id == other.credential_id
            && self.key == other.key
    }
}
