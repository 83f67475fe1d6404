//! authenticatorGetAssertion responses.
ghost use Rattle.std.specs.Prelude.{◌≡◌};
ghost use Rattle.passkey_kinds.specs.Lending.{LendsRow};
ghost use Rattle.passkey_kinds.specs.Words.{EachFits, ReadsHere, item_of, places_of, table_of};
ghost use Rattle.passkey_ctap2.specs.Calls.{ReadsItem, ReadsSlice, Writes};
ghost use Rattle.passkey_ctap2.specs.GetResponse.{GetResponseParts, get_response, get_response_fields, get_response_parts};
ghost use Rattle.passkey_ctap2.specs.GetResponse.{get_response_tree, is_get_response_coherent};

use passkey_bytes::Bytes;
use passkey_cbor::{BytesToken, Cursor, Value};
use passkey_core::AuthenticatorData;
use passkey_extensions::PublicKeyCredentialUserEntity;
use passkey_extensions::get_assertion::UnsignedExtensionOutputs;
use passkey_kinds::{
    Fault, Message, Record, Refusal, Row, Sink, Source, ToCborMap, WriteFault, lend_bytes,
    message_from_slice, read_message, record_from_value, set, write_message,
};
use passkey_memory::OutOfMemory;
use passkey_webauthn::PublicKeyCredentialDescriptor;
use std::alloc::Global;

/// An authenticatorGetAssertion response (CTAP 2.1, section 6.2). `None` means that the member is
/// absent; null also decodes to `None`.
#[derive(Debug, Drop)]
pub struct Response {
    /// 0x01: the descriptor of the credential that was used. It may be absent if the allow list has
    /// exactly one element.
    pub credential: Option<PublicKeyCredentialDescriptor>,
    /// 0x02: the authenticator data.
    pub auth_data: AuthenticatorData,
    /// 0x03: the signature of the authenticator data and the client data hash.
    pub signature: Bytes,
    /// 0x04: the user account of the credential. Without user verification, the authenticator MUST
    /// NOT return its names and icon.
    pub user: Option<PublicKeyCredentialUserEntity>,
    /// 0x05: the number of credentials for the relying party. An absent member means 1.
    pub number_of_credentials: Option<u8>,
    /// 0x06: whether the user selected the credential at the authenticator. An absent member means
    /// false.
    pub user_selected: Option<bool>,
    /// 0x07: the key of the credential's large blob, if the extension largeBlobKey asked for it.
    pub large_blob_key: Option<Bytes>,
    /// 0x08: the extension outputs that are outside the authenticator data (CTAP 2.2).
    pub unsigned_extension_outputs: Option<UnsignedExtensionOutputs>,
}

impl Record for Response {
    ghost Parts = { GetResponseParts };

    ghost parts = { get_response_parts };

    ghost fields = { get_response_fields };

    ghost tree = { get_response_tree };

    ghost coherent = { is_get_response_coherent };

    fn is_numbered() -> bool {
        true
    }

    fn rows() -> &'static [Row] {
        &[
            Row::Optional(1, "credential"),
            Row::Required(2, "authData"),
            Row::Required(3, "signature"),
            Row::Optional(4, "user"),
            Row::Optional(5, "numberOfCredentials"),
            Row::Optional(6, "userSelected"),
            Row::Optional(7, "largeBlobKey"),
            Row::Optional(8, "unsignedExtensionOutputs"),
        ]
    }

    fn blank(alloc: Global) -> Response {
        Response {
            credential: None,
            auth_data: AuthenticatorData::empty(),
            signature: Bytes::empty(alloc),
            user: None,
            number_of_credentials: None,
            user_selected: None,
            large_blob_key: None,
            unsigned_extension_outputs: None,
        }
    }

    fn put<S: Source>(&mut self, alloc: Global, number: u8, source: &mut S) -> Result<(), Refusal> {
        match number {
            1 => set(&mut self.credential, alloc, source),
            2 => set(&mut self.auth_data, alloc, source),
            3 => set(&mut self.signature, alloc, source),
            4 => set(&mut self.user, alloc, source),
            5 => set(&mut self.number_of_credentials, alloc, source),
            6 => set(&mut self.user_selected, alloc, source),
            7 => set(&mut self.large_blob_key, alloc, source),
            8 => set(&mut self.unsigned_extension_outputs, alloc, source),
            _ => Err(Refusal::Refused),
        }
    }
}

impl ToCborMap for Response {
    ghost places = { λ r. places_of get_response.members (get_response_parts r) };

    ghost holds = { λ r. EachFits get_response.members (get_response_parts r) };

    fn put_members<S: Sink>(&self, alloc: Global, sink: &mut S) -> Result<(), OutOfMemory> {
        sink.put_some(alloc, 1_u8, &self.credential)?;
        sink.put(alloc, 2_u8, &self.auth_data)?;
        sink.put(alloc, 3_u8, &self.signature)?;
        sink.put_some(alloc, 4_u8, &self.user)?;
        sink.put_some(alloc, 5_u8, &self.number_of_credentials)?;
        sink.put_some(alloc, 6_u8, &self.user_selected)?;
        sink.put_some(alloc, 7_u8, &self.large_blob_key)?;
        sink.put_some(alloc, 8_u8, &self.unsigned_extension_outputs)?;
        Ok(())
    }

    #[tactic(auto, using(crate::proofs::GetMessages::response_keys))]
    fn ordered() {}
}

/// The calls of `Message`, which says when each error comes, and the bytes that are signed.
impl Response {
    /// Decodes the response at the beginning of the bytes, and returns it with its length in bytes.
    /// The bytes begin with its map: there is no status byte before it. Bytes after it are ignored.
    pub fn from_slice(alloc: Global, bytes: &[u8]) -> Result<(Response, usize), Fault>
        ensures { ReadsSlice get_response_parts get_response_fields bytes.now result }
    {
        message_from_slice(alloc, bytes)
    }

    /// Decodes the response at the cursor, head by head and without building a data item for the
    /// whole, and moves past it.
    pub fn read(alloc: Global, cursor: &mut Cursor<'_>) -> Result<Response, Fault>
        ensures { ReadsHere get_response_parts get_response_fields 7 cursor.old cursor.new result }
    {
        read_message(alloc, cursor)
    }

    /// Decodes the response from a data item. Skips unknown members.
    pub fn from_value(alloc: Global, value: &Value) -> Result<Response, Fault>
        ensures { ReadsItem get_response_parts get_response_fields (item_of value.now) result }
    {
        record_from_value(alloc, value)
    }

    /// Lends the authenticator data's bytes out of the response at the beginning of the bytes, as they
    /// came: the signature is over them, and decoding and encoding them again may change them. They are
    /// the value of the first member `authData` (0x02). If they are in one piece, `lent` of the token
    /// returns it; `copy` joins chunks. Allocates nothing.
    ///
    /// Returns `None` if the bytes don't begin with a well-formed map of at most 256 nesting levels,
    /// no member is `authData`, its value is no byte string, or a key before it has the fault `BadKey`.
    /// The other members aren't checked. If `from_slice` decodes the response, these bytes are there,
    /// and decode to its authenticator data.
    pub fn auth_data_bytes(bytes: &[u8]) -> Option<BytesToken<'_>>
        ensures { LendsRow (table_of get_response_fields) 2 bytes.now result }
    {
        lend_bytes::<Response>(bytes, 2)
    }

    /// Encodes the response, with the members that are present under their numbers in ascending
    /// order. `OutOfMemory` is the only error.
    pub fn to_vec(&self, alloc: Global) -> Result<Vec<u8>, WriteFault>
        ensures { Writes get_response (get_response_parts self.now) result }
    {
        write_message(alloc, self)
    }

    /// Returns whether the encoding can be decoded again: the authenticator data is coherent. No
    /// member has many nesting levels. Allocates nothing.
    pub fn is_coherent(&self) -> bool
        ensures { result ≡ is_get_response_coherent (get_response_parts self.now) }
    {
        self.auth_data.is_coherent()
    }
}

impl Message for Response {
    ghost cost = { 7 };

    fn read(alloc: Global, cursor: &mut Cursor<'_>) -> Result<Response, Fault> {
        Response::read(alloc, cursor)
    }

    fn to_vec(&self, alloc: Global) -> Result<Vec<u8>, WriteFault> {
        Response::to_vec(self, alloc)
    }

    fn is_coherent(&self) -> bool {
        Response::is_coherent(self)
    }

    fn decoded_is_coherent() {
        passkey_core::laws::given_data_are_coherent();
    }
}
