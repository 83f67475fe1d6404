//! Attestation objects.
ghost use Rattle.std.specs.Prelude.{◌≡◌, option_map};
ghost use Rattle.passkey_kinds.specs.Numbered.{is_shallow, numbered_fields};
ghost use Rattle.passkey_kinds.specs.Words.{EachFits, places_of, plain_tree};
ghost use Rattle.passkey_registered.specs.Kept.{map_from};
ghost use Rattle.passkey_registered.specs.make_credential.AttestationObject.{attestation_object, object_of, response_of};

use crate::kept_data::KeptAuthenticatorData;
use crate::kept_map::KeptMap;
use crate::make_credential::Response;
use passkey_bytes::Text;
use passkey_cbor::{Cursor, Value};
use passkey_kinds::{
    Fault, Kept, Message, OutOfMemory, Record, Refusal, Row, Sink, Source, ToCborMap, WriteFault,
    read_message, set, write_message,
};
use std::alloc::Global;

/// An attestation object (WebAuthn Level 3, section 6.5.4): what a browser makes of an
/// authenticatorMakeCredential response for the relying party. Its members have names. It is decoded
/// from a response, too, whose members have numbers, and a `Response` from an attestation object.
#[derive(Debug, Drop)]
pub struct AttestationObject {
    /// `fmt`: the attestation statement format identifier.
    pub fmt: Text,
    /// `attStmt`: the attestation statement, kept undecoded: a map, or an array of compound ones (section
    /// 8.9). `AttestationStatement::from_value` decodes it.
    pub att_stmt: Kept,
    /// `authData`: the authenticator data, kept as the bytes that came.
    pub auth_data: KeptAuthenticatorData,
}

impl AttestationObject {
    /// Returns what a relying party is given of the response. Returns `None` exactly if the response has no
    /// attestation statement.
    pub fn from_response(response: Response) -> Option<AttestationObject>
        ensures { result ≡ option_map (object_of response) response.att_stmt }
    {
        let Response {
            fmt,
            auth_data,
            att_stmt,
            ..
        } = response;
        Some(AttestationObject {
            fmt,
            att_stmt: att_stmt?.into_item(),
            auth_data,
        })
    }

    /// Returns the response with these members, and no others. Returns `None` exactly if the attestation
    /// statement is no map.
    pub fn into_response(self) -> Option<Response>
        ensures { result ≡ option_map (response_of self) (map_from self.att_stmt) }
    {
        let AttestationObject {
            fmt,
            att_stmt,
            auth_data,
        } = self;
        Some(Response {
            fmt,
            auth_data,
            att_stmt: Some(KeptMap::new(att_stmt)?),
            ep_att: None,
            large_blob_key: None,
            unsigned_extension_outputs: None,
        })
    }
}

impl Record for AttestationObject {
    ghost parts = { λ o. o };

    ghost fields = { numbered_fields attestation_object };

    ghost tree = { plain_tree attestation_object };

    ghost coherent = { is_shallow attestation_object };

    fn is_numbered() -> bool {
        true
    }

    fn rows() -> &'static [Row] {
        &[
            Row::Required(1, "fmt"),
            Row::Required(3, "attStmt"),
            Row::Required(2, "authData"),
        ]
    }

    fn blank(alloc: Global) -> AttestationObject {
        AttestationObject {
            fmt: Text::empty(alloc),
            att_stmt: Kept::new(Value::Map(Vec::new(alloc))).unwrap(),
            auth_data: KeptAuthenticatorData::blank(),
        }
    }

    fn put<S: Source>(&mut self, alloc: Global, number: u8, source: &mut S) -> Result<(), Refusal> {
        match number {
            1 => set(&mut self.fmt, alloc, source),
            3 => set(&mut self.att_stmt, alloc, source),
            2 => set(&mut self.auth_data, alloc, source),
            _ => Err(Refusal::Refused),
        }
    }
}

impl ToCborMap for AttestationObject {
    ghost places = { λ o. places_of attestation_object.members o };

    ghost holds = { λ o. EachFits attestation_object.members o };

    fn put_members<S: Sink>(&self, alloc: Global, sink: &mut S) -> Result<(), OutOfMemory> {
        sink.put(alloc, "fmt", &self.fmt)?;
        sink.put(alloc, "attStmt", &self.att_stmt)?;
        sink.put(alloc, "authData", &self.auth_data)?;
        Ok(())
    }

    #[tactic(auto, using(crate::proofs::Responses::attestation_object_law))]
    fn ordered() {}
}

impl Message for AttestationObject {
    ghost cost = { 7 };

    fn read(alloc: Global, cursor: &mut Cursor<'_>) -> Result<AttestationObject, Fault> {
        read_message(alloc, cursor)
    }

    fn to_vec(&self, alloc: Global) -> Result<Vec<u8>, WriteFault> {
        write_message(alloc, self)
    }

    #[tactic(auto, using(crate::proofs::Responses::attestation_object_law))]
    fn is_coherent(&self) -> bool {
        self.att_stmt.has_room()
    }

    #[tactic(auto, using(crate::proofs::Responses::attestation_object_law))]
    fn decoded_is_coherent() {}
}
