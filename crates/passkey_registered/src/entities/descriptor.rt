//! Credential descriptors.
ghost use Rattle.passkey_registered.specs.Entities.{descriptor};

use crate::exact::{set_bytes, set_present};
use passkey_bytes::{Bytes, List, Text};
use passkey_kinds::{OutOfMemory, PlainRecord, Refusal, Row, Sink, Source, set};
use std::alloc::Global;

/// A credential by its id (WebAuthn Level 3, section 5.8.3). Types and transports are kept as they
/// came, registered or not. `None` means that the member is absent.
#[derive(Debug, Drop, PartialEq, Eq)]
pub struct CredentialDescriptor {
    /// `id`: the credential id.
    pub id: Bytes,
    /// `type`: the credential type. WebAuthn has `public-key` alone.
    pub ty: Text,
    /// `transports`: how the authenticator may be reached, such as `usb`.
    pub transports: Option<List<Text>>,
}

impl PlainRecord for CredentialDescriptor {
    ghost table = { descriptor };

    fn rows() -> &'static [Row] {
        &[
            Row::Required(1, "id"),
            Row::Required(2, "type"),
            Row::Optional(3, "transports"),
        ]
    }

    fn blank(alloc: Global) -> CredentialDescriptor {
        CredentialDescriptor {
            id: Bytes::empty(alloc),
            ty: Text::empty(alloc),
            transports: None,
        }
    }

    fn put<S: Source>(&mut self, alloc: Global, number: u8, source: &mut S) -> Result<(), Refusal> {
        match number {
            1 => set_bytes(&mut self.id, alloc, source),
            2 => set(&mut self.ty, alloc, source),
            3 => set_present(&mut self.transports, alloc, source),
            _ => Err(Refusal::Refused),
        }
    }

    fn put_members<S: Sink>(&self, alloc: Global, sink: &mut S) -> Result<(), OutOfMemory> {
        sink.put(alloc, "id", &self.id)?;
        sink.put(alloc, "type", &self.ty)?;
        sink.put_some(alloc, "transports", &self.transports)?;
        Ok(())
    }

    #[tactic(auto, using(crate::proofs::EntityLaws::descriptor_law))]
    fn lawful() {}
}
