//! authenticatorGetAssertion requests.
ghost use Rattle.std.specs.Prelude.{◌≡◌};
ghost use Rattle.passkey_kinds.specs.Numbered.{is_shallow};
ghost use Rattle.passkey_kinds.specs.Words.{EachFits, ReadsHere, item_of, places_of};
ghost use Rattle.passkey_ctap2.specs.Calls.{ReadsItem, ReadsSlice, Writes};
ghost use Rattle.passkey_ctap2.specs.GetRequest.{GetRequestParts, get_request, get_request_fields, get_request_parts, get_request_tree};

use crate::get_assertion::Options;
use passkey_bytes::{Bytes, List, Text};
use passkey_cbor::{Cursor, Value};
use passkey_extensions::get_assertion::ExtensionInputs;
use passkey_kinds::{
    Fault, Message, Record, Refusal, Row, Sink, Source, ToCborMap, WriteFault, message_from_slice,
    read_message, record_from_value, set, set_accepted_or_none, set_tolerated, write_message,
};
use passkey_memory::OutOfMemory;
use passkey_webauthn::PublicKeyCredentialDescriptor;
use std::alloc::Global;

/// An authenticatorGetAssertion request (CTAP 2.1, section 6.2). `None` means that the member is
/// absent; null also decodes to `None`.
#[derive(Debug, Drop)]
pub struct Request {
    /// 0x01: the relying party id.
    pub rp_id: Text,
    /// 0x02: the SHA-256 hash of the client data, 32 bytes. The length isn't checked.
    pub client_data_hash: Bytes,
    /// 0x03: the credentials that may be used; if the list is absent, any discoverable credential
    /// of the relying party. Platforms MUST NOT send an empty list. Decoding drops elements that
    /// can't be decoded; a value that isn't an array decodes to `None`.
    pub allow_list: Option<List<PublicKeyCredentialDescriptor>>,
    /// 0x04: the extension inputs. A value that isn't accepted decodes to `None`.
    pub extensions: Option<ExtensionInputs>,
    /// 0x05: the options, or their defaults if the member is absent.
    pub options: Options,
    /// 0x06: `pinUvAuthParam`, which authenticates the client data hash with the pinUvAuthToken.
    pub pin_auth: Option<Bytes>,
    /// 0x07: the PIN/UV auth protocol of `pin_auth`.
    pub pin_protocol: Option<u8>,
}

impl Record for Request {
    ghost Parts = { GetRequestParts };

    ghost parts = { get_request_parts };

    ghost fields = { get_request_fields };

    ghost tree = { get_request_tree };

    ghost coherent = { is_shallow get_request };

    fn is_numbered() -> bool {
        true
    }

    fn rows() -> &'static [Row] {
        &[
            Row::Required(1, "rpId"),
            Row::Required(2, "clientDataHash"),
            Row::Optional(3, "allowList"),
            Row::Optional(4, "extensions"),
            Row::Optional(5, "options"),
            Row::Optional(6, "pinAuth"),
            Row::Optional(7, "pinProtocol"),
        ]
    }

    fn blank(alloc: Global) -> Request {
        Request {
            rp_id: Text::empty(alloc),
            client_data_hash: Bytes::empty(alloc),
            allow_list: None,
            extensions: None,
            options: Options::default(),
            pin_auth: None,
            pin_protocol: None,
        }
    }

    fn put<S: Source>(&mut self, alloc: Global, number: u8, source: &mut S) -> Result<(), Refusal> {
        match number {
            1 => set(&mut self.rp_id, alloc, source),
            2 => set(&mut self.client_data_hash, alloc, source),
            3 => set_accepted_or_none(&mut self.allow_list, alloc, source),
            4 => set_tolerated(&mut self.extensions, alloc, source),
            5 => set(&mut self.options, alloc, source),
            6 => set(&mut self.pin_auth, alloc, source),
            7 => set(&mut self.pin_protocol, alloc, source),
            _ => Err(Refusal::Refused),
        }
    }
}

impl ToCborMap for Request {
    ghost places = { λ r. places_of get_request.members (get_request_parts r) };

    ghost holds = { λ r. EachFits get_request.members (get_request_parts r) };

    fn put_members<S: Sink>(&self, alloc: Global, sink: &mut S) -> Result<(), OutOfMemory> {
        sink.put(alloc, 1_u8, &self.rp_id)?;
        sink.put(alloc, 2_u8, &self.client_data_hash)?;
        sink.put_some(alloc, 3_u8, &self.allow_list)?;
        sink.put_some(alloc, 4_u8, &self.extensions)?;
        sink.put(alloc, 5_u8, &self.options)?;
        sink.put_some(alloc, 6_u8, &self.pin_auth)?;
        sink.put_some(alloc, 7_u8, &self.pin_protocol)?;
        Ok(())
    }

    fn ordered() {}
}

/// The calls of `Message`, which says when each error comes.
impl Request {
    /// Decodes the request at the beginning of the bytes, and returns it with its length in bytes.
    /// The bytes begin with its map: there is no command byte before it. Bytes after it are
    /// ignored.
    pub fn from_slice(alloc: Global, bytes: &[u8]) -> Result<(Request, usize), Fault>
        ensures { ReadsSlice get_request_parts get_request_fields bytes.now result }
    {
        message_from_slice(alloc, bytes)
    }

    /// Decodes the request at the cursor, head by head and without building a data item for the
    /// whole, and moves past it.
    pub fn read(alloc: Global, cursor: &mut Cursor<'_>) -> Result<Request, Fault>
        ensures { ReadsHere get_request_parts get_request_fields 9 cursor.old cursor.new result }
    {
        read_message(alloc, cursor)
    }

    /// Decodes the request from a data item. Skips unknown members, descriptors and extension
    /// inputs that can't be decoded, and an allow list that isn't an array.
    pub fn from_value(alloc: Global, value: &Value) -> Result<Request, Fault>
        ensures { ReadsItem get_request_parts get_request_fields (item_of value.now) result }
    {
        record_from_value(alloc, value)
    }

    /// Encodes the request, with the members that are present under their numbers in ascending
    /// order. The options are always encoded. `OutOfMemory` is the only error.
    pub fn to_vec(&self, alloc: Global) -> Result<Vec<u8>, WriteFault>
        ensures { Writes get_request (get_request_parts self.now) result }
    {
        write_message(alloc, self)
    }

    /// Returns whether the encoding can be decoded again: it has at most 256 nesting levels.
    /// Allocates nothing.
    pub fn is_coherent(&self) -> bool
        ensures { result ≡ is_shallow get_request (get_request_parts self.now) }
    {
        match &self.extensions {
            Some(extensions) => extensions.fits_in_message(),
            None => true,
        }
    }
}

impl Message for Request {
    ghost cost = { 9 };

    fn read(alloc: Global, cursor: &mut Cursor<'_>) -> Result<Request, Fault> {
        Request::read(alloc, cursor)
    }

    fn to_vec(&self, alloc: Global) -> Result<Vec<u8>, WriteFault> {
        Request::to_vec(self, alloc)
    }

    fn is_coherent(&self) -> bool {
        Request::is_coherent(self)
    }

    #[tactic(auto, using(crate::proofs::GetMessages::request_law))]
    fn decoded_is_coherent() {}
}
