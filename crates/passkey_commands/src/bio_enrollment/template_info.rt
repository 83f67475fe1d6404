//! Enrolled fingerprint templates.
ghost use Rattle.std.specs.Prelude.{None};
ghost use Rattle.passkey_commands.specs.bio_enrollment.TemplateInfo.{template_info};

use passkey_bytes::{Bytes, Text};
use passkey_kinds::{
    Kept, OutOfMemory, Refusal, Row, Sink, Source, TableMessage, TableRecord, set,
};
use std::alloc::Global;

/// An enrolled fingerprint template (CTAP 2.1, section 6.7). `None` means that the member is
/// absent; null also decodes to `None`.
#[derive(Debug, Drop)]
pub struct TemplateInfo {
    /// 0x01: the template's identifier.
    pub template_id: Bytes,
    /// 0x02: its name for display.
    pub template_friendly_name: Option<Text>,
}

impl TableRecord for TemplateInfo {
    ghost table = { template_info };

    fn is_numbered() -> bool {
        true
    }

    fn rows() -> &'static [Row] {
        &[
            Row::Required(1, "templateId"),
            Row::Optional(2, "templateFriendlyName"),
        ]
    }

    fn blank(alloc: Global) -> TemplateInfo {
        TemplateInfo {
            template_id: Bytes::empty(alloc),
            template_friendly_name: None,
        }
    }

    fn put<S: Source>(&mut self, alloc: Global, number: u8, source: &mut S) -> Result<(), Refusal> {
        match number {
            1 => set(&mut self.template_id, alloc, source),
            2 => set(&mut self.template_friendly_name, alloc, source),
            _ => Err(Refusal::Refused),
        }
    }

    fn put_members<S: Sink>(&self, alloc: Global, sink: &mut S) -> Result<(), OutOfMemory> {
        sink.put(alloc, 1_u8, &self.template_id)?;
        sink.put_some(alloc, 2_u8, &self.template_friendly_name)?;
        Ok(())
    }

    #[tactic(auto, using(crate::proofs::BioEnrollment::template_info_law))]
    fn lawful() {}
}

impl TableMessage for TemplateInfo {
    ghost cost = { 5 };

    fn kept(&self) -> Option<&Kept> {
        None
    }

    #[tactic(auto, using(crate::proofs::BioEnrollment::template_info_law))]
    fn is_message() {}
}
