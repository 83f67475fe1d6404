//! Relying parties.
ghost use Rattle.passkey_registered.specs.Entities.{rp};

use crate::exact::set_present;
use passkey_bytes::Text;
use passkey_kinds::{OutOfMemory, PlainRecord, Refusal, Row, Sink, Source, set};
use std::alloc::Global;

/// The relying party of a credential (CTAP 2.2, section 6.1). `None` means that the member is absent.
#[derive(Debug, Drop, PartialEq, Eq)]
pub struct RpEntity {
    /// `id`: the relying party id.
    pub id: Text,
    /// `name`: a name for display.
    pub name: Option<Text>,
}

impl PlainRecord for RpEntity {
    ghost table = { rp };

    fn rows() -> &'static [Row] {
        &[Row::Required(1, "id"), Row::Optional(2, "name")]
    }

    fn blank(alloc: Global) -> RpEntity {
        RpEntity {
            id: Text::empty(alloc),
            name: None,
        }
    }

    fn put<S: Source>(&mut self, alloc: Global, number: u8, source: &mut S) -> Result<(), Refusal> {
        match number {
            1 => set(&mut self.id, alloc, source),
            2 => set_present(&mut self.name, alloc, source),
            _ => Err(Refusal::Refused),
        }
    }

    fn put_members<S: Sink>(&self, alloc: Global, sink: &mut S) -> Result<(), OutOfMemory> {
        sink.put(alloc, "id", &self.id)?;
        sink.put_some(alloc, "name", &self.name)?;
        Ok(())
    }

    #[tactic(auto, using(crate::proofs::EntityLaws::rp_law))]
    fn lawful() {}
}
