//! authenticatorBioEnrollment requests.
ghost use Rattle.std.specs.Prelude.{None};
ghost use Rattle.passkey_commands.specs.bio_enrollment.BioRequest.{bio_request, normal_bio_request};

use crate::bio_enrollment::{Modality, Parameters, SubCommand};
use passkey_bytes::Bytes;
use passkey_kinds::{
    Kept, OutOfMemory, Refusal, Row, Sink, Source, TableMessage, TableRecord, put_some_code, set,
    set_some_code,
};
use std::alloc::Global;

/// An authenticatorBioEnrollment request (CTAP 2.1, section 6.7). Which members a subcommand
/// requires isn't checked. `None` means that the member is absent; null also decodes to `None`.
#[derive(Debug, Default, Drop)]
pub struct Request {
    /// 0x01: the modality.
    pub modality: Option<Modality>,
    /// 0x02: the subcommand. It is absent beside `get_modality`.
    pub sub_command: Option<SubCommand>,
    /// 0x03: the subcommand's parameters.
    pub sub_command_params: Option<Parameters>,
    /// 0x04: the PIN/UV auth protocol of `pin_uv_auth_param`.
    pub pin_uv_auth_protocol: Option<u8>,
    /// 0x05: `pinUvAuthParam`, which authenticates the request with the pinUvAuthToken. The length
    /// isn't checked.
    pub pin_uv_auth_param: Option<Bytes>,
    /// 0x06: whether the modality is asked for.
    pub get_modality: Option<bool>,
}

impl TableRecord for Request {
    ghost table = { bio_request };

    ghost normal = { normal_bio_request };

    fn is_numbered() -> bool {
        true
    }

    fn rows() -> &'static [Row] {
        &[
            Row::Optional(1, "modality"),
            Row::Optional(2, "subCommand"),
            Row::Optional(3, "subCommandParams"),
            Row::Optional(4, "pinUvAuthProtocol"),
            Row::Optional(5, "pinUvAuthParam"),
            Row::Optional(6, "getModality"),
        ]
    }

    fn blank(_alloc: Global) -> Request {
        Request::default()
    }

    fn put<S: Source>(&mut self, alloc: Global, number: u8, source: &mut S) -> Result<(), Refusal> {
        match number {
            1 => set_some_code(&mut self.modality, alloc, source),
            2 => set_some_code(&mut self.sub_command, alloc, source),
            3 => set(&mut self.sub_command_params, alloc, source),
            4 => set(&mut self.pin_uv_auth_protocol, alloc, source),
            5 => set(&mut self.pin_uv_auth_param, alloc, source),
            6 => set(&mut self.get_modality, alloc, source),
            _ => Err(Refusal::Refused),
        }
    }

    fn put_members<S: Sink>(&self, alloc: Global, sink: &mut S) -> Result<(), OutOfMemory> {
        put_some_code(sink, alloc, 1, &self.modality)?;
        put_some_code(sink, alloc, 2, &self.sub_command)?;
        sink.put_some(alloc, 3_u8, &self.sub_command_params)?;
        sink.put_some(alloc, 4_u8, &self.pin_uv_auth_protocol)?;
        sink.put_some(alloc, 5_u8, &self.pin_uv_auth_param)?;
        sink.put_some(alloc, 6_u8, &self.get_modality)?;
        Ok(())
    }

    #[tactic(auto, using(crate::proofs::BioEnrollment::bio_request_law))]
    fn lawful() {}
}

impl TableMessage for Request {
    ghost cost = { 6 };

    fn kept(&self) -> Option<&Kept> {
        None
    }

    #[tactic(auto, using(crate::proofs::BioEnrollment::bio_request_law))]
    fn is_message() {}
}
