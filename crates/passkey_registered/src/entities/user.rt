//! Users.
ghost use Rattle.passkey_registered.specs.Entities.{user};

use crate::exact::{set_bytes, set_present};
use passkey_bytes::{Bytes, Text};
use passkey_kinds::{OutOfMemory, PlainRecord, Refusal, Row, Sink, Source};
use std::alloc::Global;

/// The user account that a credential is for (CTAP 2.2, section 6.1). `None` means that the member is
/// absent.
#[derive(Debug, Drop, PartialEq, Eq)]
pub struct UserEntity {
    /// `id`: the user handle, at most 64 bytes. The length isn't checked.
    pub id: Bytes,
    /// `name`: a name that distinguishes the account from others, such as an email address.
    pub name: Option<Text>,
    /// `displayName`: a name that is only for display.
    pub display_name: Option<Text>,
}

impl PlainRecord for UserEntity {
    ghost table = { user };

    fn rows() -> &'static [Row] {
        &[
            Row::Required(1, "id"),
            Row::Optional(2, "name"),
            Row::Optional(3, "displayName"),
        ]
    }

    fn blank(alloc: Global) -> UserEntity {
        UserEntity {
            id: Bytes::empty(alloc),
            name: None,
            display_name: None,
        }
    }

    fn put<S: Source>(&mut self, alloc: Global, number: u8, source: &mut S) -> Result<(), Refusal> {
        match number {
            1 => set_bytes(&mut self.id, alloc, source),
            2 => set_present(&mut self.name, alloc, source),
            3 => set_present(&mut self.display_name, alloc, source),
            _ => Err(Refusal::Refused),
        }
    }

    fn put_members<S: Sink>(&self, alloc: Global, sink: &mut S) -> Result<(), OutOfMemory> {
        sink.put(alloc, "id", &self.id)?;
        sink.put_some(alloc, "name", &self.name)?;
        sink.put_some(alloc, "displayName", &self.display_name)?;
        Ok(())
    }

    #[tactic(auto, using(crate::proofs::EntityLaws::user_law))]
    fn lawful() {}
}
