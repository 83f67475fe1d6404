//! authenticatorClientPIN requests.
ghost use Rattle.passkey_commands.specs.client_pin.PinRequest.{pin_request, normal_pin_request};

use crate::client_pin::{Permissions, SubCommand};
use passkey_bytes::{Bytes, Text};
use passkey_kinds::{
    Code, Kept, OutOfMemory, Refusal, Row, Sink, Source, TableMessage, TableRecord, set, set_code,
};
use std::alloc::Global;

/// An authenticatorClientPIN request (CTAP 2.1, section 6.5.5). Which members a subcommand requires
/// isn't checked. `None` means that the member is absent; null also decodes to `None`.
#[derive(Debug, Default, Drop)]
pub struct Request {
    /// 0x01: the PIN/UV auth protocol, 1 or 2.
    pub pin_uv_auth_protocol: Option<u8>,
    /// 0x02: the subcommand.
    pub sub_command: SubCommand,
    /// 0x03: `keyAgreement`, the platform's public key, a COSE key.
    pub key_agreement: Option<Kept>,
    /// 0x04: `pinUvAuthParam`, which authenticates `new_pin_enc` and `pin_hash_enc` with the shared
    /// secret: 16 bytes with protocol 1, 32 with protocol 2. The length isn't checked.
    pub pin_uv_auth_param: Option<Bytes>,
    /// 0x05: `newPinEnc`, the new PIN, padded to at least 64 bytes and encrypted.
    pub new_pin_enc: Option<Bytes>,
    /// 0x06: `pinHashEnc`, the first 16 bytes of the SHA-256 hash of the PIN, encrypted.
    pub pin_hash_enc: Option<Bytes>,
    /// 0x09: the permissions that are asked for. They MUST NOT be empty.
    pub permissions: Option<Permissions>,
    /// 0x0A: the relying party id that the permissions are for.
    pub rp_id: Option<Text>,
}

impl TableRecord for Request {
    ghost table = { pin_request };

    ghost kept = { λ r. r.key_agreement };

    ghost normal = { normal_pin_request };

    fn is_numbered() -> bool {
        true
    }

    fn rows() -> &'static [Row] {
        &[
            Row::Optional(1, "pinUvAuthProtocol"),
            Row::Required(2, "subCommand"),
            Row::Optional(3, "keyAgreement"),
            Row::Optional(4, "pinUvAuthParam"),
            Row::Optional(5, "newPinEnc"),
            Row::Optional(6, "pinHashEnc"),
            Row::Optional(9, "permissions"),
            Row::Optional(10, "rpId"),
        ]
    }

    fn blank(_alloc: Global) -> Request {
        Request::default()
    }

    fn put<S: Source>(&mut self, alloc: Global, number: u8, source: &mut S) -> Result<(), Refusal> {
        match number {
            1 => set(&mut self.pin_uv_auth_protocol, alloc, source),
            2 => set_code(&mut self.sub_command, alloc, source),
            3 => set(&mut self.key_agreement, alloc, source),
            4 => set(&mut self.pin_uv_auth_param, alloc, source),
            5 => set(&mut self.new_pin_enc, alloc, source),
            6 => set(&mut self.pin_hash_enc, alloc, source),
            9 => set(&mut self.permissions, alloc, source),
            10 => set(&mut self.rp_id, alloc, source),
            _ => Err(Refusal::Refused),
        }
    }

    fn put_members<S: Sink>(&self, alloc: Global, sink: &mut S) -> Result<(), OutOfMemory> {
        sink.put_some(alloc, 1_u8, &self.pin_uv_auth_protocol)?;
        sink.put(alloc, 2_u8, &self.sub_command.byte())?;
        sink.put_some(alloc, 3_u8, &self.key_agreement)?;
        sink.put_some(alloc, 4_u8, &self.pin_uv_auth_param)?;
        sink.put_some(alloc, 5_u8, &self.new_pin_enc)?;
        sink.put_some(alloc, 6_u8, &self.pin_hash_enc)?;
        sink.put_some(alloc, 9_u8, &self.permissions)?;
        sink.put_some(alloc, 10_u8, &self.rp_id)?;
        Ok(())
    }

    #[tactic(auto, using(crate::proofs::ClientPin::request_law))]
    fn lawful() {}
}

impl TableMessage for Request {
    ghost cost = { 5 };

    fn kept(&self) -> Option<&Kept> {
        self.key_agreement.as_ref()
    }

    #[tactic(auto, using(crate::proofs::ClientPin::request_law))]
    fn is_message() {}
}
