//! authenticatorClientPIN responses.
ghost use Rattle.passkey_commands.specs.client_pin.PinResponse.{pin_response};

use passkey_bytes::Bytes;
use passkey_kinds::{
    Kept, OutOfMemory, Refusal, Row, Sink, Source, TableMessage, TableRecord, set,
};
use std::alloc::Global;

/// An authenticatorClientPIN response (CTAP 2.1, section 6.5.5). `None` means that the member is
/// absent; null also decodes to `None`.
#[derive(Debug, Default, Drop)]
pub struct Response {
    /// 0x01: `keyAgreement`, the authenticator's public key, a COSE key.
    pub key_agreement: Option<Kept>,
    /// 0x02: the pinUvAuthToken, encrypted with the shared secret.
    pub pin_uv_auth_token: Option<Bytes>,
    /// 0x03: the number of PIN attempts that remain before lockout.
    pub pin_retries: Option<u32>,
    /// 0x04: whether a power cycle is required before the next PIN attempt.
    pub power_cycle_state: Option<bool>,
    /// 0x05: the number of user verification attempts that remain before lockout.
    pub uv_retries: Option<u32>,
}

impl TableRecord for Response {
    ghost table = { pin_response };

    ghost kept = { λ r. r.key_agreement };

    fn is_numbered() -> bool {
        true
    }

    fn rows() -> &'static [Row] {
        &[
            Row::Optional(1, "keyAgreement"),
            Row::Optional(2, "pinUvAuthToken"),
            Row::Optional(3, "pinRetries"),
            Row::Optional(4, "powerCycleState"),
            Row::Optional(5, "uvRetries"),
        ]
    }

    fn blank(_alloc: Global) -> Response {
        Response::default()
    }

    fn put<S: Source>(&mut self, alloc: Global, number: u8, source: &mut S) -> Result<(), Refusal> {
        match number {
            1 => set(&mut self.key_agreement, alloc, source),
            2 => set(&mut self.pin_uv_auth_token, alloc, source),
            3 => set(&mut self.pin_retries, alloc, source),
            4 => set(&mut self.power_cycle_state, alloc, source),
            5 => set(&mut self.uv_retries, alloc, source),
            _ => Err(Refusal::Refused),
        }
    }

    fn put_members<S: Sink>(&self, alloc: Global, sink: &mut S) -> Result<(), OutOfMemory> {
        sink.put_some(alloc, 1_u8, &self.key_agreement)?;
        sink.put_some(alloc, 2_u8, &self.pin_uv_auth_token)?;
        sink.put_some(alloc, 3_u8, &self.pin_retries)?;
        sink.put_some(alloc, 4_u8, &self.power_cycle_state)?;
        sink.put_some(alloc, 5_u8, &self.uv_retries)?;
        Ok(())
    }

    #[tactic(auto, using(crate::proofs::ClientPin::response_law))]
    fn lawful() {}
}

impl TableMessage for Response {
    ghost cost = { 5 };

    fn kept(&self) -> Option<&Kept> {
        self.key_agreement.as_ref()
    }

    #[tactic(auto, using(crate::proofs::ClientPin::response_law))]
    fn is_message() {}
}
