//! authenticatorGetAssertion and authenticatorGetNextAssertion responses.
ghost use Rattle.std.specs.Prelude.{◌≡◌};
ghost use Rattle.passkey_kinds.specs.Numbered.{is_shallow, numbered_fields};
ghost use Rattle.passkey_kinds.specs.Words.{EachFits, places_of, plain_tree};
ghost use Rattle.passkey_registered.specs.get_assertion.GaResponse.{ga_response};

use crate::entities::{CredentialDescriptor, UserEntity};
use crate::exact::{set_bytes, set_present};
use crate::kept_data::KeptAuthenticatorData;
use crate::kept_map::{KeptMap, is_room_for};
use crate::large_blob_key::LargeBlobKey;
use passkey_bytes::Bytes;
use passkey_cbor::Cursor;
use passkey_kinds::{
    Fault, Message, OutOfMemory, Record, Refusal, Row, Sink, Source, ToCborMap, WriteFault,
    read_message, set, write_message,
};
use std::alloc::Global;

/// An authenticatorGetAssertion or authenticatorGetNextAssertion response, by the standard alone (CTAP
/// 2.2, sections 6.2.2 and 6.3). `None` means that the member is absent: null is refused.
#[derive(Debug, Drop)]
pub struct Response {
    /// 0x01: the credential that was used. Authenticators of CTAP 2.0 leave it out if the allow list has
    /// exactly one element.
    pub credential: Option<CredentialDescriptor>,
    /// 0x02: the authenticator data, kept as the bytes that came.
    pub auth_data: KeptAuthenticatorData,
    /// 0x03: the signature of the authenticator data and the client data hash.
    pub signature: Bytes,
    /// 0x04: the user account of the credential. Without user verification, the authenticator MUST NOT
    /// return its names.
    pub user: Option<UserEntity>,
    /// 0x05: the number of credentials for the relying party. An absent member means 1, and an
    /// authenticatorGetNextAssertion response has none.
    pub number_of_credentials: Option<u64>,
    /// 0x06: whether the user selected the credential at the authenticator. An absent member means
    /// false.
    pub user_selected: Option<bool>,
    /// 0x07: the key of the credential's large blob, if the extension largeBlobKey asked for it.
    pub large_blob_key: Option<LargeBlobKey>,
    /// 0x08: the extension outputs that are outside the authenticator data, kept undecoded.
    pub unsigned_extension_outputs: Option<KeptMap>,
    /// 0x09: whether an enterprise attestation was returned. An absent member means false.
    pub ep_att: Option<bool>,
    /// 0x0A: the attestation statement, kept undecoded.
    pub att_stmt: Option<KeptMap>,
}

/// It keeps two items, so it is no `TableMessage`.
impl Record for Response {
    ghost parts = { λ r. r };

    ghost fields = { numbered_fields ga_response };

    ghost tree = { plain_tree ga_response };

    ghost coherent = { is_shallow ga_response };

    fn is_numbered() -> bool {
        true
    }

    fn rows() -> &'static [Row] {
        &[
            Row::Optional(1, "credential"),
            Row::Required(2, "authData"),
            Row::Required(3, "signature"),
            Row::Optional(4, "user"),
            Row::Optional(5, "numberOfCredentials"),
            Row::Optional(6, "userSelected"),
            Row::Optional(7, "largeBlobKey"),
            Row::Optional(8, "unsignedExtensionOutputs"),
            Row::Optional(9, "epAtt"),
            Row::Optional(10, "attStmt"),
        ]
    }

    fn blank(alloc: Global) -> Response {
        Response {
            credential: None,
            auth_data: KeptAuthenticatorData::blank(),
            signature: Bytes::empty(alloc),
            user: None,
            number_of_credentials: None,
            user_selected: None,
            large_blob_key: None,
            unsigned_extension_outputs: None,
            ep_att: None,
            att_stmt: None,
        }
    }

    fn put<S: Source>(&mut self, alloc: Global, number: u8, source: &mut S) -> Result<(), Refusal> {
        match number {
            1 => set_present(&mut self.credential, alloc, source),
            2 => set(&mut self.auth_data, alloc, source),
            3 => set_bytes(&mut self.signature, alloc, source),
            4 => set_present(&mut self.user, alloc, source),
            5 => set_present(&mut self.number_of_credentials, alloc, source),
            6 => set_present(&mut self.user_selected, alloc, source),
            7 => set_present(&mut self.large_blob_key, alloc, source),
            8 => set_present(&mut self.unsigned_extension_outputs, alloc, source),
            9 => set_present(&mut self.ep_att, alloc, source),
            10 => set_present(&mut self.att_stmt, alloc, source),
            _ => Err(Refusal::Refused),
        }
    }
}

impl ToCborMap for Response {
    ghost places = { λ r. places_of ga_response.members r };

    ghost holds = { λ r. EachFits ga_response.members r };

    fn put_members<S: Sink>(&self, alloc: Global, sink: &mut S) -> Result<(), OutOfMemory> {
        sink.put_some(alloc, 1_u8, &self.credential)?;
        sink.put(alloc, 2_u8, &self.auth_data)?;
        sink.put(alloc, 3_u8, &self.signature)?;
        sink.put_some(alloc, 4_u8, &self.user)?;
        sink.put_some(alloc, 5_u8, &self.number_of_credentials)?;
        sink.put_some(alloc, 6_u8, &self.user_selected)?;
        sink.put_some(alloc, 7_u8, &self.large_blob_key)?;
        sink.put_some(alloc, 8_u8, &self.unsigned_extension_outputs)?;
        sink.put_some(alloc, 9_u8, &self.ep_att)?;
        sink.put_some(alloc, 10_u8, &self.att_stmt)?;
        Ok(())
    }

    #[tactic(auto, using(crate::proofs::Responses::ga_response_law))]
    fn ordered() {}
}

impl Message for Response {
    ghost cost = { 7 };

    fn read(alloc: Global, cursor: &mut Cursor<'_>) -> Result<Response, Fault> {
        read_message(alloc, cursor)
    }

    fn to_vec(&self, alloc: Global) -> Result<Vec<u8>, WriteFault> {
        write_message(alloc, self)
    }

    #[tactic(auto, using(crate::proofs::Responses::ga_response_law))]
    fn is_coherent(&self) -> bool {
        is_room_for(&self.unsigned_extension_outputs) && is_room_for(&self.att_stmt)
    }

    #[tactic(auto, using(crate::proofs::Responses::ga_response_law))]
    fn decoded_is_coherent() {}
}
