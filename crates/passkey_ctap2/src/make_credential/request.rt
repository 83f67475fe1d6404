//! authenticatorMakeCredential requests.
ghost use Rattle.std.specs.Prelude.{◌≡◌};
ghost use Rattle.passkey_kinds.specs.Numbered.{is_shallow};
ghost use Rattle.passkey_kinds.specs.Words.{EachFits, ReadsHere, item_of, places_of};
ghost use Rattle.passkey_ctap2.specs.Calls.{ReadsItem, ReadsSlice, Writes};
ghost use Rattle.passkey_ctap2.specs.MakeRequest.{MakeRequestParts, make_request, make_request_fields, make_request_parts, make_request_tree};

use crate::make_credential::{Options, PublicKeyCredentialRpEntity};
use passkey_bytes::{Bytes, List};
use passkey_cbor::{Cursor, Value};
use passkey_extensions::make_credential::ExtensionInputs;
use passkey_kinds::{
    Fault, Message, Record, Refusal, Row, Sink, Source, ToCborMap, WriteFault, message_from_slice,
    read_message, record_from_value, set, set_accepted, set_accepted_or_none, write_message,
};
use passkey_memory::OutOfMemory;
use passkey_webauthn::{
    PublicKeyCredentialDescriptor, PublicKeyCredentialParameters, PublicKeyCredentialUserEntity,
};
use std::alloc::Global;

/// An authenticatorMakeCredential request (CTAP 2.1, section 6.1). `None` means that the member is
/// absent; null also decodes to `None`.
#[derive(Debug, Drop, PartialEq)]
pub struct Request {
    /// 0x01: the SHA-256 hash of the client data, 32 bytes. The length isn't checked.
    pub client_data_hash: Bytes,
    /// 0x02: the relying party that the credential is for.
    pub rp: PublicKeyCredentialRpEntity,
    /// 0x03: the user account that the credential is for. Decoding also requires its names.
    pub user: PublicKeyCredentialUserEntity,
    /// 0x04: the credential types and algorithms that the relying party supports, the preferred
    /// first. Decoding drops elements that can't be decoded.
    pub pub_key_cred_params: List<PublicKeyCredentialParameters>,
    /// 0x05: credentials that the authenticator must not already hold. Platforms MUST NOT send an
    /// empty list. Decoding drops elements that can't be decoded; a value that isn't an array
    /// decodes to `None`.
    pub exclude_list: Option<List<PublicKeyCredentialDescriptor>>,
    /// 0x06: the extension inputs.
    pub extensions: Option<ExtensionInputs>,
    /// 0x07: the options, or their defaults if the member is absent.
    pub options: Options,
    /// 0x08: `pinUvAuthParam`, which authenticates the client data hash with the pinUvAuthToken.
    pub pin_auth: Option<Bytes>,
    /// 0x09: the PIN/UV auth protocol of `pin_auth`.
    pub pin_protocol: Option<u8>,
}

impl Record for Request {
    ghost Parts = { MakeRequestParts };

    ghost parts = { make_request_parts };

    ghost fields = { make_request_fields };

    ghost tree = { make_request_tree };

    ghost coherent = { is_shallow make_request };

    fn is_numbered() -> bool {
        true
    }

    fn rows() -> &'static [Row] {
        &[
            Row::Required(1, "clientDataHash"),
            Row::Required(2, "rp"),
            Row::Required(3, "user"),
            Row::Required(4, "pubKeyCredParams"),
            Row::Optional(5, "excludeList"),
            Row::Optional(6, "extensions"),
            Row::Optional(7, "options"),
            Row::Optional(8, "pinAuth"),
            Row::Optional(9, "pinProtocol"),
        ]
    }

    fn blank(alloc: Global) -> Request {
        Request {
            client_data_hash: Bytes::empty(alloc),
            rp: PublicKeyCredentialRpEntity::blank(alloc),
            user: PublicKeyCredentialUserEntity::blank(alloc),
            pub_key_cred_params: List::empty(alloc),
            exclude_list: None,
            extensions: None,
            options: Options::default(),
            pin_auth: None,
            pin_protocol: None,
        }
    }

    fn put<S: Source>(&mut self, alloc: Global, number: u8, source: &mut S) -> Result<(), Refusal> {
        match number {
            1 => set(&mut self.client_data_hash, alloc, source),
            2 => set(&mut self.rp, alloc, source),
            3 => set(&mut self.user, alloc, source),
            4 => set_accepted(&mut self.pub_key_cred_params, alloc, source),
            5 => set_accepted_or_none(&mut self.exclude_list, alloc, source),
            6 => set(&mut self.extensions, alloc, source),
            7 => set(&mut self.options, alloc, source),
            8 => set(&mut self.pin_auth, alloc, source),
            9 => set(&mut self.pin_protocol, alloc, source),
            _ => Err(Refusal::Refused),
        }
    }
}

impl ToCborMap for Request {
    ghost places = { λ r. places_of make_request.members (make_request_parts r) };

    ghost holds = { λ r. EachFits make_request.members (make_request_parts r) };

    fn put_members<S: Sink>(&self, alloc: Global, sink: &mut S) -> Result<(), OutOfMemory> {
        sink.put(alloc, 1_u8, &self.client_data_hash)?;
        sink.put(alloc, 2_u8, &self.rp)?;
        sink.put(alloc, 3_u8, &self.user)?;
        sink.put(alloc, 4_u8, &self.pub_key_cred_params)?;
        sink.put_some(alloc, 5_u8, &self.exclude_list)?;
        sink.put_some(alloc, 6_u8, &self.extensions)?;
        sink.put(alloc, 7_u8, &self.options)?;
        sink.put_some(alloc, 8_u8, &self.pin_auth)?;
        sink.put_some(alloc, 9_u8, &self.pin_protocol)?;
        Ok(())
    }

    fn ordered() {}
}

/// The calls of `Message`, which says when each error comes.
impl Request {
    /// Decodes the request at the beginning of the bytes, and returns it with its length in bytes.
    /// The bytes begin with its map: there is no command byte before it. Bytes after it are
    /// ignored.
    pub fn from_slice(alloc: Global, bytes: &[u8]) -> Result<(Request, usize), Fault>
        ensures { ReadsSlice make_request_parts make_request_fields bytes.now result }
    {
        message_from_slice(alloc, bytes)
    }

    /// Decodes the request at the cursor, head by head and without building a data item for the
    /// whole, and moves past it.
    pub fn read(alloc: Global, cursor: &mut Cursor<'_>) -> Result<Request, Fault>
        ensures { ReadsHere make_request_parts make_request_fields 9 cursor.old cursor.new result }
    {
        read_message(alloc, cursor)
    }

    /// Decodes the request from a data item. Skips unknown members, parameters and descriptors that
    /// can't be decoded, and an exclude list that isn't an array.
    pub fn from_value(alloc: Global, value: &Value) -> Result<Request, Fault>
        ensures { ReadsItem make_request_parts make_request_fields (item_of value.now) result }
    {
        record_from_value(alloc, value)
    }

    /// Encodes the request, with the members that are present under their numbers in ascending
    /// order. The options are always encoded. `OutOfMemory` is the only error.
    pub fn to_vec(&self, alloc: Global) -> Result<Vec<u8>, WriteFault>
        ensures { Writes make_request (make_request_parts self.now) result }
    {
        write_message(alloc, self)
    }

    /// Returns whether the encoding can be decoded again: it has at most 256 nesting levels.
    /// Allocates nothing.
    pub fn is_coherent(&self) -> bool
        ensures { result ≡ is_shallow make_request (make_request_parts self.now) }
    {
        match &self.extensions {
            Some(extensions) => extensions.fits_in_message(),
            None => true,
        }
    }
}

impl Message for Request {
    ghost cost = { 9 };

    fn read(alloc: Global, cursor: &mut Cursor<'_>) -> Result<Request, Fault> {
        Request::read(alloc, cursor)
    }

    fn to_vec(&self, alloc: Global) -> Result<Vec<u8>, WriteFault> {
        Request::to_vec(self, alloc)
    }

    fn is_coherent(&self) -> bool {
        Request::is_coherent(self)
    }

    #[tactic(auto, using(crate::proofs::MakeMessages::request_law))]
    fn decoded_is_coherent() {}
}
