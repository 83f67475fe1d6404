//! Parameters of subcommands of authenticatorBioEnrollment.
ghost use Rattle.std.specs.Prelude.{None};
ghost use Rattle.passkey_commands.specs.bio_enrollment.BioParameters.{bio_parameters};

use passkey_bytes::{Bytes, Text};
use passkey_kinds::{
    Kept, OutOfMemory, Refusal, Row, Sink, Source, TableMessage, TableRecord, set,
};
use std::alloc::Global;

/// The parameters of a subcommand of authenticatorBioEnrollment (CTAP 2.1, section 6.7). Which ones
/// a subcommand requires isn't checked. `None` means that the member is absent; null also decodes
/// to `None`.
#[derive(Debug, Default, Drop)]
pub struct Parameters {
    /// 0x01: the template's identifier.
    pub template_id: Option<Bytes>,
    /// 0x02: a name of the template for display.
    pub template_friendly_name: Option<Text>,
    /// 0x03: how long to wait for a sample, in milliseconds.
    pub timeout_milliseconds: Option<u32>,
}

impl TableRecord for Parameters {
    ghost table = { bio_parameters };

    fn is_numbered() -> bool {
        true
    }

    fn rows() -> &'static [Row] {
        &[
            Row::Optional(1, "templateId"),
            Row::Optional(2, "templateFriendlyName"),
            Row::Optional(3, "timeoutMilliseconds"),
        ]
    }

    fn blank(_alloc: Global) -> Parameters {
        Parameters::default()
    }

    fn put<S: Source>(&mut self, alloc: Global, number: u8, source: &mut S) -> Result<(), Refusal> {
        match number {
            1 => set(&mut self.template_id, alloc, source),
            2 => set(&mut self.template_friendly_name, alloc, source),
            3 => set(&mut self.timeout_milliseconds, alloc, source),
            _ => Err(Refusal::Refused),
        }
    }

    fn put_members<S: Sink>(&self, alloc: Global, sink: &mut S) -> Result<(), OutOfMemory> {
        sink.put_some(alloc, 1_u8, &self.template_id)?;
        sink.put_some(alloc, 2_u8, &self.template_friendly_name)?;
        sink.put_some(alloc, 3_u8, &self.timeout_milliseconds)?;
        Ok(())
    }

    #[tactic(auto, using(crate::proofs::BioEnrollment::bio_parameters_law))]
    fn lawful() {}
}

impl TableMessage for Parameters {
    ghost cost = { 5 };

    fn kept(&self) -> Option<&Kept> {
        None
    }

    #[tactic(auto, using(crate::proofs::BioEnrollment::bio_parameters_law))]
    fn is_message() {}
}
