//! authenticatorMakeCredential responses.
ghost use Rattle.std.specs.Prelude.{◌≡◌, IfOk, OnOk};
ghost use Rattle.passkey_kinds.specs.Lending.{LendsRow};
ghost use Rattle.passkey_kinds.specs.Words.{EachFits, IsData, IsWritable, ReadsHere, data_parts, item_of, places_of, table_of, written};
ghost use Rattle.passkey_ctap2.specs.Calls.{ReadsItem, ReadsSlice, Writes};
ghost use Rattle.passkey_ctap2.specs.MakeResponse.{MakeResponseParts, attestation_tree, is_make_response_coherent, make_response};
ghost use Rattle.passkey_ctap2.specs.MakeResponse.{make_response_fields, make_response_parts, make_response_tree};

use passkey_bytes::{Bytes, Text};
use passkey_cbor::{BytesToken, Cursor, Encoder, MAX_DEPTH, Value};
use passkey_core::AuthenticatorData;
use passkey_extensions::make_credential::UnsignedExtensionOutputs;
use passkey_kinds::{
    Fault, Message, Record, Refusal, Row, Sink, Source, ToCborMap, WriteFault, lend_bytes,
    message_from_slice, read_message, record_from_value, set, write_message,
};
use passkey_memory::OutOfMemory;
use std::alloc::Global;

/// An authenticatorMakeCredential response (CTAP 2.1, section 6.1). `None` means that the member is
/// absent; null also decodes to `None`.
#[derive(Debug, Drop)]
pub struct Response {
    /// 0x01: the attestation statement format identifier.
    pub fmt: Text,
    /// 0x02: the authenticator data.
    pub auth_data: AuthenticatorData,
    /// 0x03: the attestation statement, kept as a data item.
    pub att_stmt: Value,
    /// 0x04: whether an enterprise attestation was returned. An absent member means false.
    pub ep_att: Option<bool>,
    /// 0x05: the key of the credential's large blob, if the extension largeBlobKey asked for it.
    pub large_blob_key: Option<Bytes>,
    /// 0x06: the extension outputs that are outside the authenticator data (CTAP 2.2).
    pub unsigned_extension_outputs: Option<UnsignedExtensionOutputs>,
}

impl Record for Response {
    ghost Parts = { MakeResponseParts };

    ghost parts = { make_response_parts };

    ghost fields = { make_response_fields };

    ghost tree = { make_response_tree };

    ghost coherent = { is_make_response_coherent };

    fn is_numbered() -> bool {
        true
    }

    fn rows() -> &'static [Row] {
        &[
            Row::Required(1, "fmt"),
            Row::Required(2, "authData"),
            Row::Required(3, "attStmt"),
            Row::Optional(4, "epAtt"),
            Row::Optional(5, "largeBlobKey"),
            Row::Optional(6, "unsignedExtensionOutputs"),
        ]
    }

    fn blank(alloc: Global) -> Response {
        Response {
            fmt: Text::empty(alloc),
            auth_data: AuthenticatorData::empty(),
            att_stmt: Value::Null,
            ep_att: None,
            large_blob_key: None,
            unsigned_extension_outputs: None,
        }
    }

    fn put<S: Source>(&mut self, alloc: Global, number: u8, source: &mut S) -> Result<(), Refusal> {
        match number {
            1 => set(&mut self.fmt, alloc, source),
            2 => set(&mut self.auth_data, alloc, source),
            3 => set(&mut self.att_stmt, alloc, source),
            4 => set(&mut self.ep_att, alloc, source),
            5 => set(&mut self.large_blob_key, alloc, source),
            6 => set(&mut self.unsigned_extension_outputs, alloc, source),
            _ => Err(Refusal::Refused),
        }
    }
}

impl ToCborMap for Response {
    ghost places = { λ r. places_of make_response.members (make_response_parts r) };

    ghost holds = { λ r. EachFits make_response.members (make_response_parts r) };

    fn put_members<S: Sink>(&self, alloc: Global, sink: &mut S) -> Result<(), OutOfMemory> {
        sink.put(alloc, 1_u8, &self.fmt)?;
        sink.put(alloc, 2_u8, &self.auth_data)?;
        sink.put(alloc, 3_u8, &self.att_stmt)?;
        sink.put_some(alloc, 4_u8, &self.ep_att)?;
        sink.put_some(alloc, 5_u8, &self.large_blob_key)?;
        sink.put_some(alloc, 6_u8, &self.unsigned_extension_outputs)?;
        Ok(())
    }

    fn ordered() {}
}

/// The calls of `Message`, which says when each error comes, and those for an attestation.
impl Response {
    /// Decodes the response at the beginning of the bytes, and returns it with its length in bytes.
    /// The bytes begin with its map: there is no status byte before it, and nothing around it. An
    /// attestation object (WebAuthn Level 3, section 6.5.4) is such a map, with names for numbers.
    /// Bytes after it are ignored.
    pub fn from_slice(alloc: Global, bytes: &[u8]) -> Result<(Response, usize), Fault>
        ensures { ReadsSlice make_response_parts make_response_fields bytes.now result }
    {
        message_from_slice(alloc, bytes)
    }

    /// Decodes the response at the cursor, head by head and without building a data item for the
    /// whole, and moves past it.
    pub fn read(alloc: Global, cursor: &mut Cursor<'_>) -> Result<Response, Fault>
        ensures { ReadsHere make_response_parts make_response_fields 8 cursor.old cursor.new result }
    {
        read_message(alloc, cursor)
    }

    /// Decodes the response from a data item. Skips unknown members.
    pub fn from_value(alloc: Global, value: &Value) -> Result<Response, Fault>
        ensures { ReadsItem make_response_parts make_response_fields (item_of value.now) result }
    {
        record_from_value(alloc, value)
    }

    /// Lends the authenticator data's bytes out of the response at the beginning of the bytes, as they
    /// came: an attestation's signature is over them, and decoding and encoding them again may change
    /// them. They are the value of the first member `authData` (0x02, or by this name, as in an
    /// attestation object). If they are in one piece, `lent` of the token returns it; `copy` joins
    /// chunks. Allocates nothing.
    ///
    /// Returns `None` if the bytes don't begin with a well-formed map of at most 256 nesting levels,
    /// no member is `authData`, its value is no byte string, or a key before it has the fault `BadKey`.
    /// The other members aren't checked. If `from_slice` decodes the response, these bytes are there,
    /// and decode to its authenticator data.
    pub fn auth_data_bytes(bytes: &[u8]) -> Option<BytesToken<'_>>
        ensures { LendsRow (table_of make_response_fields) 2 bytes.now result }
    {
        lend_bytes::<Response>(bytes, 2)
    }

    /// Encodes the response, with the members that are present under their numbers in ascending
    /// order. `OutOfMemory` is the only error.
    pub fn to_vec(&self, alloc: Global) -> Result<Vec<u8>, WriteFault>
        ensures { Writes make_response (make_response_parts self.now) result }
    {
        write_message(alloc, self)
    }

    /// Returns whether the encoding can be decoded again: the authenticator data is coherent, and
    /// the attestation statement has at most 255 nesting levels, so that the response has at most
    /// 256. Allocates nothing.
    pub fn is_coherent(&self) -> bool
        ensures { result ≡ is_make_response_coherent (make_response_parts self.now) }
    {
        self.auth_data.is_coherent() && self.att_stmt.depth() < MAX_DEPTH
    }

    /// Encodes an attestation object without attestation (WebAuthn Level 3, section 6.5.4): a map
    /// with `fmt`, which is "none", `attStmt`, an empty map, and `authData`, the authenticator
    /// data. Leaves out the response's own format and statement. Returns `OutOfMemory` if an
    /// allocation fails.
    pub fn as_webauthn_bytes(&self, alloc: Global) -> Result<Vec<u8>, OutOfMemory>
        ensures written { IfOk result
            (λ bytes. bytes.items ≡ written (attestation_tree (data_parts self.now.auth_data))) }
        ensures writable { OnOk result (IsWritable (attestation_tree (data_parts self.now.auth_data))) }
        ensures fits { OnOk result (IsData (data_parts self.now.auth_data)) }
    {
        let no_statement = Value::Map(Vec::new(alloc));
        let mut encoder = Encoder::new(alloc);
        encoder.map_head(3)?;
        encoder.put(alloc, "fmt", &"none")?;
        encoder.put(alloc, "attStmt", &no_statement)?;
        encoder.put(alloc, "authData", &self.auth_data)?;
        Ok(encoder.into_vec())
    }
}

impl Message for Response {
    ghost cost = { 8 };

    fn read(alloc: Global, cursor: &mut Cursor<'_>) -> Result<Response, Fault> {
        Response::read(alloc, cursor)
    }

    fn to_vec(&self, alloc: Global) -> Result<Vec<u8>, WriteFault> {
        Response::to_vec(self, alloc)
    }

    fn is_coherent(&self) -> bool {
        Response::is_coherent(self)
    }

    fn decoded_is_coherent() {
        passkey_core::laws::given_data_are_coherent();
    }
}
