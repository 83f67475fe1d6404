//! Parameters of vendorPrototype.
ghost use Rattle.std.specs.Prelude.{None};
ghost use Rattle.passkey_commands.specs.config.VendorParameters.{vendor_parameters};

use passkey_kinds::{
    Kept, OutOfMemory, Refusal, Row, Sink, Source, TableMessage, TableRecord, set,
};
use std::alloc::Global;

/// The parameters of vendorPrototype (CTAP 2.1, section 6.11.3). Other members are the vendor's,
/// and are skipped.
#[derive(Debug, Default, Drop)]
pub struct VendorParameters {
    /// 0x01: the vendor's command.
    pub vendor_command_id: u64,
}

impl TableRecord for VendorParameters {
    ghost table = { vendor_parameters };

    fn is_numbered() -> bool {
        true
    }

    fn rows() -> &'static [Row] {
        &[Row::Required(1, "vendorCommandId")]
    }

    fn blank(_alloc: Global) -> VendorParameters {
        VendorParameters::default()
    }

    fn put<S: Source>(&mut self, alloc: Global, number: u8, source: &mut S) -> Result<(), Refusal> {
        match number {
            1 => set(&mut self.vendor_command_id, alloc, source),
            _ => Err(Refusal::Refused),
        }
    }

    fn put_members<S: Sink>(&self, alloc: Global, sink: &mut S) -> Result<(), OutOfMemory> {
        sink.put(alloc, 1_u8, &self.vendor_command_id)?;
        Ok(())
    }

    #[tactic(auto, using(crate::proofs::ConfigLaws::vendor_parameters_law))]
    fn lawful() {}
}

impl TableMessage for VendorParameters {
    ghost cost = { 5 };

    fn kept(&self) -> Option<&Kept> {
        None
    }

    #[tactic(auto, using(crate::proofs::ConfigLaws::vendor_parameters_law))]
    fn is_message() {}
}
