//! authenticatorGetAssertion requests.
ghost use Rattle.passkey_registered.specs.get_assertion.GaRequest.{ga_request};

use crate::client_data_hash::ClientDataHash;
use crate::entities::{CredentialDescriptor, RequestOptions};
use crate::exact::{set_present, set_present_bytes};
use passkey_bytes::{Bytes, List, Text};
use passkey_kinds::{
    Kept, OutOfMemory, Refusal, Row, Sink, Source, TableMessage, TableRecord, set,
};
use std::alloc::Global;

/// An authenticatorGetAssertion request, by the standard alone (CTAP 2.2, section 6.2). `None` means
/// that the member is absent: null is refused.
#[derive(Debug, Drop)]
pub struct Request {
    /// 0x01: the relying party id.
    pub rp_id: Text,
    /// 0x02: the hash of the client data.
    pub client_data_hash: ClientDataHash,
    /// 0x03: the credentials of which one is to be used. If it is absent, any discoverable one may be.
    pub allow_list: Option<List<CredentialDescriptor>>,
    /// 0x04: the extension inputs, kept undecoded.
    pub extensions: Option<Kept>,
    /// 0x05: the options.
    pub options: Option<RequestOptions>,
    /// 0x06: `pinUvAuthParam`, which authenticates `client_data_hash` with the pinUvAuthToken.
    pub pin_uv_auth_param: Option<Bytes>,
    /// 0x07: the PIN/UV auth protocol of `pin_uv_auth_param`.
    pub pin_uv_auth_protocol: Option<u64>,
    /// 0x08: which enterprise attestation is asked for, 1 or 2.
    pub enterprise_attestation: Option<u64>,
    /// 0x09: the attestation statement formats that are asked for, the preferred first.
    pub attestation_formats_preference: Option<List<Text>>,
}

impl TableRecord for Request {
    ghost table = { ga_request };

    ghost kept = { λ r. r.extensions };

    fn is_numbered() -> bool {
        true
    }

    fn rows() -> &'static [Row] {
        &[
            Row::Required(1, "rpId"),
            Row::Required(2, "clientDataHash"),
            Row::Optional(3, "allowList"),
            Row::Optional(4, "extensions"),
            Row::Optional(5, "options"),
            Row::Optional(6, "pinUvAuthParam"),
            Row::Optional(7, "pinUvAuthProtocol"),
            Row::Optional(8, "enterpriseAttestation"),
            Row::Optional(9, "attestationFormatsPreference"),
        ]
    }

    fn blank(alloc: Global) -> Request {
        Request {
            rp_id: Text::empty(alloc),
            client_data_hash: ClientDataHash([0; 32]),
            allow_list: None,
            extensions: None,
            options: None,
            pin_uv_auth_param: None,
            pin_uv_auth_protocol: None,
            enterprise_attestation: None,
            attestation_formats_preference: None,
        }
    }

    fn put<S: Source>(&mut self, alloc: Global, number: u8, source: &mut S) -> Result<(), Refusal> {
        match number {
            1 => set(&mut self.rp_id, alloc, source),
            2 => set(&mut self.client_data_hash, alloc, source),
            3 => set_present(&mut self.allow_list, alloc, source),
            4 => set_present(&mut self.extensions, alloc, source),
            5 => set_present(&mut self.options, alloc, source),
            6 => set_present_bytes(&mut self.pin_uv_auth_param, alloc, source),
            7 => set_present(&mut self.pin_uv_auth_protocol, alloc, source),
            8 => set_present(&mut self.enterprise_attestation, alloc, source),
            9 => set_present(&mut self.attestation_formats_preference, alloc, source),
            _ => Err(Refusal::Refused),
        }
    }

    fn put_members<S: Sink>(&self, alloc: Global, sink: &mut S) -> Result<(), OutOfMemory> {
        sink.put(alloc, 1_u8, &self.rp_id)?;
        sink.put(alloc, 2_u8, &self.client_data_hash)?;
        sink.put_some(alloc, 3_u8, &self.allow_list)?;
        sink.put_some(alloc, 4_u8, &self.extensions)?;
        sink.put_some(alloc, 5_u8, &self.options)?;
        sink.put_some(alloc, 6_u8, &self.pin_uv_auth_param)?;
        sink.put_some(alloc, 7_u8, &self.pin_uv_auth_protocol)?;
        sink.put_some(alloc, 8_u8, &self.enterprise_attestation)?;
        sink.put_some(alloc, 9_u8, &self.attestation_formats_preference)?;
        Ok(())
    }

    #[tactic(auto, using(crate::proofs::Requests::ga_request_law))]
    fn lawful() {}
}

impl TableMessage for Request {
    ghost cost = { 6 };

    fn kept(&self) -> Option<&Kept> {
        self.extensions.as_ref()
    }

    #[tactic(auto, using(crate::proofs::Requests::ga_request_law))]
    fn is_message() {}
}
