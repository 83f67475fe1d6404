//! authenticatorConfig requests.
ghost use Rattle.passkey_commands.specs.config.CfgRequest.{cfg_request, normal_cfg_request};

use crate::config::SubCommand;
use passkey_bytes::Bytes;
use passkey_kinds::{
    Code, Kept, OutOfMemory, Refusal, Row, Sink, Source, TableMessage, TableRecord, set, set_code,
};
use std::alloc::Global;

/// An authenticatorConfig request (CTAP 2.1, section 6.11). Which members a subcommand requires
/// isn't checked. `None` means that the member is absent; null also decodes to `None`.
#[derive(Debug, Drop)]
pub struct Request {
    /// 0x01: the subcommand.
    pub sub_command: SubCommand,
    /// 0x02: the subcommand's parameters: those of setMinPINLength decode as
    /// `MinPinLengthParameters`, and those of vendorPrototype as `VendorParameters`.
    pub sub_command_params: Option<Kept>,
    /// 0x03: the PIN/UV auth protocol of `pin_uv_auth_param`.
    pub pin_uv_auth_protocol: Option<u8>,
    /// 0x04: `pinUvAuthParam`, which authenticates the request with the pinUvAuthToken. The length
    /// isn't checked.
    pub pin_uv_auth_param: Option<Bytes>,
}

impl TableRecord for Request {
    ghost table = { cfg_request };

    ghost kept = { λ r. r.sub_command_params };

    ghost normal = { normal_cfg_request };

    fn is_numbered() -> bool {
        true
    }

    fn rows() -> &'static [Row] {
        &[
            Row::Required(1, "subCommand"),
            Row::Optional(2, "subCommandParams"),
            Row::Optional(3, "pinUvAuthProtocol"),
            Row::Optional(4, "pinUvAuthParam"),
        ]
    }

    fn blank(_alloc: Global) -> Request {
        Request {
            sub_command: SubCommand::Other(0),
            sub_command_params: None,
            pin_uv_auth_protocol: None,
            pin_uv_auth_param: None,
        }
    }

    fn put<S: Source>(&mut self, alloc: Global, number: u8, source: &mut S) -> Result<(), Refusal> {
        match number {
            1 => set_code(&mut self.sub_command, alloc, source),
            2 => set(&mut self.sub_command_params, alloc, source),
            3 => set(&mut self.pin_uv_auth_protocol, alloc, source),
            4 => set(&mut self.pin_uv_auth_param, alloc, source),
            _ => Err(Refusal::Refused),
        }
    }

    fn put_members<S: Sink>(&self, alloc: Global, sink: &mut S) -> Result<(), OutOfMemory> {
        sink.put(alloc, 1_u8, &self.sub_command.byte())?;
        sink.put_some(alloc, 2_u8, &self.sub_command_params)?;
        sink.put_some(alloc, 3_u8, &self.pin_uv_auth_protocol)?;
        sink.put_some(alloc, 4_u8, &self.pin_uv_auth_param)?;
        Ok(())
    }

    #[tactic(auto, using(crate::proofs::ConfigLaws::cfg_request_law))]
    fn lawful() {}
}

impl TableMessage for Request {
    ghost cost = { 5 };

    fn kept(&self) -> Option<&Kept> {
        self.sub_command_params.as_ref()
    }

    #[tactic(auto, using(crate::proofs::ConfigLaws::cfg_request_law))]
    fn is_message() {}
}
