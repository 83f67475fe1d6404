//! Relying parties in CTAP2's messages.
ghost use Rattle.std.specs.Prelude.{◌≡◌, ◌<◌, ◌⊎◌, length, IfOk, OnErr};
ghost use Rattle.std.specs.Option.{IsSomeAnd};
ghost use Rattle.passkey_extensions.specs.Entities.{rp, rp_of_webauthn};

use crate::MissingRpId;
use passkey_bytes::Text;
use passkey_kinds::{PlainRecord, Refusal, Row, Sink, Source, set};
use passkey_memory::OutOfMemory;
use passkey_webauthn as webauthn;
use std::alloc::Global;

/// The relying party that a credential is for (CTAP 2.1, section 6.1).
#[derive(Debug, Drop, PartialEq, Eq)]
pub struct PublicKeyCredentialRpEntity {
    /// The relying party id, a domain.
    pub id: Text,
    /// A name for display. `None` means that the member is absent; null also decodes to `None`.
    pub name: Option<Text>,
}

impl PublicKeyCredentialRpEntity {
    /// Returns an equal value. Returns `OutOfMemory` if an allocation fails, which can't happen if
    /// both texts are empty or absent.
    pub fn try_clone(&self, alloc: Global) -> Result<PublicKeyCredentialRpEntity, OutOfMemory>
        ensures same { IfOk result (λ copy. copy ≡ self.now) }
        ensures grows { OnErr result
            ((0 < length self.now.id) ⊎ IsSomeAnd self.now.name (λ name. 0 < length name)) }
    {
        let name = match &self.name {
            Some(name) => Some(name.try_clone(alloc)?),
            None => None,
        };
        Ok(PublicKeyCredentialRpEntity {
            id: self.id.try_clone(alloc)?,
            name,
        })
    }
}

impl TryFrom<webauthn::PublicKeyCredentialRpEntity> for PublicKeyCredentialRpEntity {
    type Error = MissingRpId;

    ghost try_from_gives = { λ theirs result. result ≡ rp_of_webauthn theirs };

    /// Returns the relying party with its id and name. Returns `MissingRpId` with the name exactly
    /// if the id is absent.
    fn try_from(
        theirs: webauthn::PublicKeyCredentialRpEntity,
    ) -> Result<PublicKeyCredentialRpEntity, MissingRpId> {
        let webauthn::PublicKeyCredentialRpEntity { id, name } = theirs;
        match id {
            Some(id) => Ok(PublicKeyCredentialRpEntity {
                id,
                name: Some(name),
            }),
            None => Err(MissingRpId { rp_name: name }),
        }
    }
}

impl PlainRecord for PublicKeyCredentialRpEntity {
    ghost table = { rp };

    fn rows() -> &'static [Row] {
        &[Row::Required(1, "id"), Row::Optional(2, "name")]
    }

    fn blank(alloc: Global) -> PublicKeyCredentialRpEntity {
        PublicKeyCredentialRpEntity {
            id: Text::empty(alloc),
            name: None,
        }
    }

    fn put<S: Source>(&mut self, alloc: Global, number: u8, source: &mut S) -> Result<(), Refusal> {
        match number {
            1 => set(&mut self.id, alloc, source),
            2 => set(&mut self.name, alloc, source),
            _ => Err(Refusal::Refused),
        }
    }

    fn put_members<S: Sink>(&self, alloc: Global, sink: &mut S) -> Result<(), OutOfMemory> {
        sink.put(alloc, "id", &self.id)?;
        sink.put_some(alloc, "name", &self.name)?;
        Ok(())
    }

    #[tactic(auto, using(crate::proofs::Entities::rp_law))]
    fn lawful() {}
}
