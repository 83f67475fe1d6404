//! authenticatorMakeCredential responses.
ghost use Rattle.std.specs.Prelude.{◌≡◌};
ghost use Rattle.passkey_kinds.specs.Numbered.{is_shallow, numbered_fields};
ghost use Rattle.passkey_kinds.specs.Words.{EachFits, places_of, plain_tree};
ghost use Rattle.passkey_registered.specs.make_credential.McResponse.{mc_response};

use crate::exact::set_present;
use crate::kept_data::KeptAuthenticatorData;
use crate::kept_map::{KeptMap, is_room_for};
use crate::large_blob_key::LargeBlobKey;
use passkey_bytes::Text;
use passkey_cbor::Cursor;
use passkey_kinds::{
    Fault, Message, OutOfMemory, Record, Refusal, Row, Sink, Source, ToCborMap, WriteFault,
    read_message, set, write_message,
};
use std::alloc::Global;

/// An authenticatorMakeCredential response, by the standard alone (CTAP 2.2, section 6.1.2). `None`
/// means that the member is absent: null is refused.
#[derive(Debug, Drop)]
pub struct Response {
    /// 0x01: the attestation statement format identifier.
    pub fmt: Text,
    /// 0x02: the authenticator data, kept as the bytes that came.
    pub auth_data: KeptAuthenticatorData,
    /// 0x03: the attestation statement, kept undecoded.
    pub att_stmt: Option<KeptMap>,
    /// 0x04: whether an enterprise attestation was returned. An absent member means false.
    pub ep_att: Option<bool>,
    /// 0x05: the key of the credential's large blob, if the extension largeBlobKey asked for it.
    pub large_blob_key: Option<LargeBlobKey>,
    /// 0x06: the extension outputs that are outside the authenticator data, kept undecoded.
    pub unsigned_extension_outputs: Option<KeptMap>,
}

/// It keeps two items, so it is no `TableMessage`.
impl Record for Response {
    ghost parts = { λ r. r };

    ghost fields = { numbered_fields mc_response };

    ghost tree = { plain_tree mc_response };

    ghost coherent = { is_shallow mc_response };

    fn is_numbered() -> bool {
        true
    }

    fn rows() -> &'static [Row] {
        &[
            Row::Required(1, "fmt"),
            Row::Required(2, "authData"),
            Row::Optional(3, "attStmt"),
            Row::Optional(4, "epAtt"),
            Row::Optional(5, "largeBlobKey"),
            Row::Optional(6, "unsignedExtensionOutputs"),
        ]
    }

    fn blank(alloc: Global) -> Response {
        Response {
            fmt: Text::empty(alloc),
            auth_data: KeptAuthenticatorData::blank(),
            att_stmt: None,
            ep_att: None,
            large_blob_key: None,
            unsigned_extension_outputs: None,
        }
    }

    fn put<S: Source>(&mut self, alloc: Global, number: u8, source: &mut S) -> Result<(), Refusal> {
        match number {
            1 => set(&mut self.fmt, alloc, source),
            2 => set(&mut self.auth_data, alloc, source),
            3 => set_present(&mut self.att_stmt, alloc, source),
            4 => set_present(&mut self.ep_att, alloc, source),
            5 => set_present(&mut self.large_blob_key, alloc, source),
            6 => set_present(&mut self.unsigned_extension_outputs, alloc, source),
            _ => Err(Refusal::Refused),
        }
    }
}

impl ToCborMap for Response {
    ghost places = { λ r. places_of mc_response.members r };

    ghost holds = { λ r. EachFits mc_response.members r };

    fn put_members<S: Sink>(&self, alloc: Global, sink: &mut S) -> Result<(), OutOfMemory> {
        sink.put(alloc, 1_u8, &self.fmt)?;
        sink.put(alloc, 2_u8, &self.auth_data)?;
        sink.put_some(alloc, 3_u8, &self.att_stmt)?;
        sink.put_some(alloc, 4_u8, &self.ep_att)?;
        sink.put_some(alloc, 5_u8, &self.large_blob_key)?;
        sink.put_some(alloc, 6_u8, &self.unsigned_extension_outputs)?;
        Ok(())
    }

    #[tactic(auto, using(crate::proofs::Responses::mc_response_law))]
    fn ordered() {}
}

impl Message for Response {
    ghost cost = { 7 };

    fn read(alloc: Global, cursor: &mut Cursor<'_>) -> Result<Response, Fault> {
        read_message(alloc, cursor)
    }

    fn to_vec(&self, alloc: Global) -> Result<Vec<u8>, WriteFault> {
        write_message(alloc, self)
    }

    #[tactic(auto, using(crate::proofs::Responses::mc_response_law))]
    fn is_coherent(&self) -> bool {
        is_room_for(&self.att_stmt) && is_room_for(&self.unsigned_extension_outputs)
    }

    #[tactic(auto, using(crate::proofs::Responses::mc_response_law))]
    fn decoded_is_coherent() {}
}
