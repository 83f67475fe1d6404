//! Parameters of setMinPINLength.
ghost use Rattle.std.specs.Prelude.{None};
ghost use Rattle.passkey_commands.specs.config.MinPinLengthParameters.{min_pin_length_parameters};

use passkey_bytes::{List, Text};
use passkey_kinds::{
    Kept, OutOfMemory, Refusal, Row, Sink, Source, TableMessage, TableRecord, set,
};
use std::alloc::Global;

/// The parameters of setMinPINLength (CTAP 2.1, section 6.11.4). `None` means that the member is
/// absent; null also decodes to `None`.
#[derive(Debug, Default, Drop)]
pub struct MinPinLengthParameters {
    /// 0x01: the new minimum PIN length in Unicode code points.
    pub new_min_pin_length: Option<u32>,
    /// 0x02: the relying party ids that may learn the minimum PIN length.
    pub min_pin_length_rp_ids: Option<List<Text>>,
    /// 0x03: whether the PIN has to be changed.
    pub force_change_pin: Option<bool>,
    /// 0x04: whether a PIN complexity policy is enforced (CTAP 2.2).
    pub pin_complexity_policy: Option<bool>,
}

impl TableRecord for MinPinLengthParameters {
    ghost table = { min_pin_length_parameters };

    fn is_numbered() -> bool {
        true
    }

    fn rows() -> &'static [Row] {
        &[
            Row::Optional(1, "newMinPINLength"),
            Row::Optional(2, "minPinLengthRPIDs"),
            Row::Optional(3, "forceChangePin"),
            Row::Optional(4, "pinComplexityPolicy"),
        ]
    }

    fn blank(_alloc: Global) -> MinPinLengthParameters {
        MinPinLengthParameters::default()
    }

    fn put<S: Source>(&mut self, alloc: Global, number: u8, source: &mut S) -> Result<(), Refusal> {
        match number {
            1 => set(&mut self.new_min_pin_length, alloc, source),
            2 => set(&mut self.min_pin_length_rp_ids, alloc, source),
            3 => set(&mut self.force_change_pin, alloc, source),
            4 => set(&mut self.pin_complexity_policy, alloc, source),
            _ => Err(Refusal::Refused),
        }
    }

    fn put_members<S: Sink>(&self, alloc: Global, sink: &mut S) -> Result<(), OutOfMemory> {
        sink.put_some(alloc, 1_u8, &self.new_min_pin_length)?;
        sink.put_some(alloc, 2_u8, &self.min_pin_length_rp_ids)?;
        sink.put_some(alloc, 3_u8, &self.force_change_pin)?;
        sink.put_some(alloc, 4_u8, &self.pin_complexity_policy)?;
        Ok(())
    }

    #[tactic(auto, using(crate::proofs::ConfigLaws::min_pin_length_parameters_law))]
    fn lawful() {}
}

impl TableMessage for MinPinLengthParameters {
    ghost cost = { 5 };

    fn kept(&self) -> Option<&Kept> {
        None
    }

    #[tactic(auto, using(crate::proofs::ConfigLaws::min_pin_length_parameters_law))]
    fn is_message() {}
}
