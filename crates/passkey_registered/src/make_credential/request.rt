//! authenticatorMakeCredential requests.
ghost use Rattle.std.specs.Prelude.{◌≡◌, OnOk};
ghost use Rattle.passkey_kinds.specs.Words.{AllAccepted, EachFits, places_of, put_all};
ghost use Rattle.passkey_registered.specs.make_credential.McRequest.{first_members, last_members, mc_request};

use crate::client_data_hash::ClientDataHash;
use crate::entities::{CredentialDescriptor, RequestOptions, RpEntity, UserEntity};
use crate::exact::{set_present, set_present_bytes};
use crate::get_info::CredentialParameters;
use passkey_bytes::{Bytes, List, Text};
use passkey_kinds::{
    Kept, OutOfMemory, Refusal, Row, Sink, Source, TableMessage, TableRecord, set,
};
use std::alloc::Global;

/// An authenticatorMakeCredential request, by the standard alone (CTAP 2.2, section 6.1). `None` means
/// that the member is absent: null is refused.
#[derive(Debug, Drop)]
pub struct Request {
    /// 0x01: the hash of the client data.
    pub client_data_hash: ClientDataHash,
    /// 0x02: the relying party.
    pub rp: RpEntity,
    /// 0x03: the user account.
    pub user: UserEntity,
    /// 0x04: `pubKeyCredParams`, the credential types and algorithms that are wanted, the preferred
    /// first.
    pub pub_key_cred_params: List<CredentialParameters>,
    /// 0x05: the credentials beside which no other one is to be created.
    pub exclude_list: Option<List<CredentialDescriptor>>,
    /// 0x06: the extension inputs, kept undecoded.
    pub extensions: Option<Kept>,
    /// 0x07: the options.
    pub options: Option<RequestOptions>,
    /// 0x08: `pinUvAuthParam`, which authenticates `client_data_hash` with the pinUvAuthToken.
    pub pin_uv_auth_param: Option<Bytes>,
    /// 0x09: the PIN/UV auth protocol of `pin_uv_auth_param`.
    pub pin_uv_auth_protocol: Option<u64>,
    /// 0x0A: which enterprise attestation is asked for, 1 or 2.
    pub enterprise_attestation: Option<u64>,
    /// 0x0B: the attestation statement formats that are asked for, the preferred first.
    pub attestation_formats_preference: Option<List<Text>>,
}

impl Request {
    fn put_first_members<S: Sink>(&self, alloc: Global, sink: &mut S) -> Result<(), OutOfMemory>
        ensures put { OnOk result
            (S.state sink.new ≡ put_all S.step (S.state sink.old) (places_of first_members self.now)) }
        ensures accepts { OnOk result (AllAccepted S.Accepts (places_of first_members self.now)) }
        ensures fits { OnOk result (S.Encodes → EachFits first_members self.now) }
    {
        sink.put(alloc, 1_u8, &self.client_data_hash)?;
        sink.put(alloc, 2_u8, &self.rp)?;
        sink.put(alloc, 3_u8, &self.user)?;
        sink.put(alloc, 4_u8, &self.pub_key_cred_params)?;
        sink.put_some(alloc, 5_u8, &self.exclude_list)?;
        sink.put_some(alloc, 6_u8, &self.extensions)?;
        Ok(())
    }

    fn put_last_members<S: Sink>(&self, alloc: Global, sink: &mut S) -> Result<(), OutOfMemory>
        ensures put { OnOk result
            (S.state sink.new ≡ put_all S.step (S.state sink.old) (places_of last_members self.now)) }
        ensures accepts { OnOk result (AllAccepted S.Accepts (places_of last_members self.now)) }
        ensures fits { OnOk result (S.Encodes → EachFits last_members self.now) }
    {
        sink.put_some(alloc, 7_u8, &self.options)?;
        sink.put_some(alloc, 8_u8, &self.pin_uv_auth_param)?;
        sink.put_some(alloc, 9_u8, &self.pin_uv_auth_protocol)?;
        sink.put_some(alloc, 10_u8, &self.enterprise_attestation)?;
        sink.put_some(alloc, 11_u8, &self.attestation_formats_preference)?;
        Ok(())
    }
}

impl TableRecord for Request {
    ghost table = { mc_request };

    ghost kept = { λ r. r.extensions };

    fn is_numbered() -> bool {
        true
    }

    fn rows() -> &'static [Row] {
        &[
            Row::Required(1, "clientDataHash"),
            Row::Required(2, "rp"),
            Row::Required(3, "user"),
            Row::Required(4, "pubKeyCredParams"),
            Row::Optional(5, "excludeList"),
            Row::Optional(6, "extensions"),
            Row::Optional(7, "options"),
            Row::Optional(8, "pinUvAuthParam"),
            Row::Optional(9, "pinUvAuthProtocol"),
            Row::Optional(10, "enterpriseAttestation"),
            Row::Optional(11, "attestationFormatsPreference"),
        ]
    }

    fn blank(alloc: Global) -> Request {
        Request {
            client_data_hash: ClientDataHash([0; 32]),
            rp: RpEntity {
                id: Text::empty(alloc),
                name: None,
            },
            user: UserEntity {
                id: Bytes::empty(alloc),
                name: None,
                display_name: None,
            },
            pub_key_cred_params: List::empty(alloc),
            exclude_list: None,
            extensions: None,
            options: None,
            pin_uv_auth_param: None,
            pin_uv_auth_protocol: None,
            enterprise_attestation: None,
            attestation_formats_preference: None,
        }
    }

    fn put<S: Source>(&mut self, alloc: Global, number: u8, source: &mut S) -> Result<(), Refusal> {
        match number {
            1 => set(&mut self.client_data_hash, alloc, source),
            2 => set(&mut self.rp, alloc, source),
            3 => set(&mut self.user, alloc, source),
            4 => set(&mut self.pub_key_cred_params, alloc, source),
            5 => set_present(&mut self.exclude_list, alloc, source),
            6 => set_present(&mut self.extensions, alloc, source),
            7 => set_present(&mut self.options, alloc, source),
            8 => set_present_bytes(&mut self.pin_uv_auth_param, alloc, source),
            9 => set_present(&mut self.pin_uv_auth_protocol, alloc, source),
            10 => set_present(&mut self.enterprise_attestation, alloc, source),
            11 => set_present(&mut self.attestation_formats_preference, alloc, source),
            _ => Err(Refusal::Refused),
        }
    }

    #[tactic(auto, using(passkey_kinds::proofs::Sinks::accepted_both))]
    fn put_members<S: Sink>(&self, alloc: Global, sink: &mut S) -> Result<(), OutOfMemory> {
        self.put_first_members(alloc, sink)?;
        self.put_last_members(alloc, sink)?;
        Ok(())
    }

    #[tactic(auto, using(crate::proofs::Requests::mc_request_law))]
    fn lawful() {}
}

impl TableMessage for Request {
    ghost cost = { 6 };

    fn kept(&self) -> Option<&Kept> {
        self.extensions.as_ref()
    }

    #[tactic(auto, using(crate::proofs::Requests::mc_request_law))]
    fn is_message() {}
}
