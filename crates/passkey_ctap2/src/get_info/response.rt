//! authenticatorGetInfo responses.
ghost use Rattle.std.specs.Prelude.{◌≡◌, ◌^◌, ◌++◌, ℕ, is_ok, true, false, option_map, IfOk, IfErr, OnOk};
ghost use Rattle.std.specs.Int.NonZero.{non_zero_u128_get};
ghost use Rattle.passkey_kinds.specs.Words.{KeysAscend, Item, item_of, IsWritable, written, IfPresent, ReadsHere, EachFits};
ghost use Rattle.passkey_kinds.specs.Words.{fields_with, places_of, cost_at, keeps_at, shape_at, Puts, AllAccepted, put_all};
ghost use Rattle.passkey_kinds.specs.Words.{number_tree};
ghost use Rattle.passkey_kinds.specs.Numbered.{has_room};
ghost use Rattle.passkey_ctap2.specs.Calls.{ReadsItem, ReadsSlice};
ghost use Rattle.passkey_ctap2.specs.Encodable.{EncodableFits, encodable_first_members, encodable_parts, encodable_places};
ghost use Rattle.passkey_ctap2.specs.GetInfo.{GetInfoParts, first_members, middle_members, last_members, get_info_fields};
ghost use Rattle.passkey_ctap2.specs.GetInfo.{get_info_empty, get_info_parts, get_info_tree, IsPositive, GetInfoFits};
ghost use Rattle.passkey_ctap2.specs.GetInfo.{is_encodable, fault_of_size, is_get_info_coherent};
ghost use Rattle.passkey_kinds.specs.Placed.{members_of};
ghost use Rattle.passkey_kinds.specs.declared.fault.WriteFault.TheVariants.{NumberTooLarge as TooLarge};

use crate::get_info::{Extension, Options, Version};
use passkey_bytes::{Bytes, List, Text};
use passkey_cbor::{Cursor, MAX_DEPTH, Value};
use passkey_core::Aaguid;
use passkey_kinds::{
    Fault, Message, Record, Refusal, Row, Sink, Source, ToCborMap, WriteFault, message_from_slice,
    read_message, record_from_value, set, set_accepted_or_none, write_message,
};
use passkey_memory::OutOfMemory;
use passkey_webauthn::{AuthenticatorTransport, PublicKeyCredentialParameters};
use std::alloc::Global;
use std::num::NonZeroU128;

/// An authenticatorGetInfo response (CTAP 2.1, section 6.4; the members from 0x16 on are in CTAP
/// 2.2). `None` means that the member is absent; null also decodes to `None`.
#[derive(Debug, Drop, PartialEq, Eq)]
pub struct Response {
    /// 0x01: the supported versions of CTAP.
    pub versions: List<Version>,
    /// 0x02: the supported extensions.
    pub extensions: Option<List<Extension>>,
    /// 0x03: the AAGUID, 16 bytes.
    pub aaguid: Aaguid,
    /// 0x04: the options.
    pub options: Option<Options>,
    /// 0x05: the maximum size of a message, in bytes. If it is absent, platforms MUST NOT send more
    /// than 1024 bytes (section 8).
    pub max_msg_size: Option<NonZeroU128>,
    /// 0x06: the supported PIN/UV auth protocols, the preferred first.
    pub pin_protocols: Option<List<u8>>,
    /// 0x09: the supported transports. Decoding drops unknown ones.
    pub transports: Option<List<AuthenticatorTransport>>,
    /// 0x0A: the supported credential types and algorithms, the preferred first. Decoding drops
    /// elements that can't be decoded, such as unknown algorithms.
    pub algorithms: Option<List<PublicKeyCredentialParameters>>,
    /// 0x0B: the maximum size of the serialized large-blob array, in bytes.
    pub mac_serialized_large_blob_array: Option<u32>,
    /// 0x0C: whether the PIN must be changed before a pinUvAuthToken is issued for it.
    pub force_pin_change: Option<bool>,
    /// 0x0D: the minimum PIN length, in Unicode code points.
    pub min_pin_length: Option<u32>,
    /// 0x0E: the firmware version.
    pub firmware_version: Option<u32>,
    /// 0x0F: the maximum length of a credBlob, in bytes.
    pub max_cred_blob_length: Option<u32>,
    /// 0x10: the maximum number of relying party ids that setMinPINLength takes.
    pub max_rpids_for_set_min_pin_length: Option<u32>,
    /// 0x11: how many attempts at built-in user verification the platform should make before it
    /// asks for a PIN.
    pub preferred_platform_uv_attempts: Option<u32>,
    /// 0x12: the user verification methods, as flags of FIDO's registry of predefined values.
    pub uv_modality: Option<u32>,
    /// 0x13: the authenticator's certifications, a map from their names to levels. Any data item is
    /// accepted and kept unchanged.
    pub certifications: Option<Value>,
    /// 0x14: an estimate of how many more discoverable credentials can be stored.
    pub remaining_discoverable_credentials: Option<u32>,
    /// 0x15: the ids of the vendor's authenticatorConfig subcommands. Decoding drops elements that
    /// can't be decoded.
    pub vendor_prototype_config_commands: Option<List<u32>>,
    /// 0x16: the supported attestation statement formats. Decoding drops elements that can't be
    /// decoded.
    pub attestation_formats: Option<List<Text>>,
    /// 0x17: the number of built-in user verifications since the last PIN entry.
    pub uv_count_since_last_pin_entry: Option<u32>,
    /// 0x18: whether authenticatorReset requires a long touch.
    pub long_touch_for_reset: Option<bool>,
    /// 0x19: the encrypted device identifier.
    pub enc_identifier: Option<Bytes>,
    /// 0x1A: the transports over which authenticatorReset is supported. Decoding drops unknown
    /// ones.
    pub transports_for_reset: Option<List<AuthenticatorTransport>>,
    /// 0x1B: whether a PIN must meet a policy beyond the minimum length.
    pub pin_complexity_policy: Option<bool>,
    /// 0x1C: a URL that describes this policy, as bytes.
    pub pin_complexity_policy_url: Option<Bytes>,
    /// 0x1D: the maximum PIN length, in Unicode code points.
    pub max_pin_length: Option<u32>,
}

impl Record for Response {
    ghost Parts = { GetInfoParts };

    ghost parts = { get_info_parts };

    ghost fields = { get_info_fields };

    ghost tree = { get_info_tree };

    ghost coherent = { is_get_info_coherent };

    fn is_numbered() -> bool {
        true
    }

    fn rows() -> &'static [Row] {
        &[
            Row::Required(0x01, "versions"),
            Row::Optional(0x02, "extensions"),
            Row::Required(0x03, "aaguid"),
            Row::Optional(0x04, "options"),
            Row::Optional(0x05, "maxMsgSize"),
            Row::Optional(0x06, "pinProtocols"),
            Row::Optional(0x09, "transports"),
            Row::Optional(0x0a, "algorithms"),
            Row::Optional(0x0b, "macSerializedLargeBlobArray"),
            Row::Optional(0x0c, "forcePinChange"),
            Row::Optional(0x0d, "minPinLength"),
            Row::Optional(0x0e, "firmwareVersion"),
            Row::Optional(0x0f, "maxCredBlobLength"),
            Row::Optional(0x10, "maxRpidsForSetMinPinLength"),
            Row::Optional(0x11, "preferredPlatformUvAttempts"),
            Row::Optional(0x12, "uvModality"),
            Row::Optional(0x13, "certifications"),
            Row::Optional(0x14, "remainingDiscoverableCredentials"),
            Row::Optional(0x15, "vendorPrototypeConfigCommands"),
            Row::Optional(0x16, "attestationFormats"),
            Row::Optional(0x17, "uvCountSinceLastPinEntry"),
            Row::Optional(0x18, "longTouchForReset"),
            Row::Optional(0x19, "encIdentifier"),
            Row::Optional(0x1a, "transportsForReset"),
            Row::Optional(0x1b, "pinComplexityPolicy"),
            Row::Optional(0x1c, "pinComplexityPolicyUrl"),
            Row::Optional(0x1d, "maxPinLength"),
        ]
    }

    fn blank(alloc: Global) -> Response {
        Response::empty(alloc)
    }

    fn put<S: Source>(&mut self, alloc: Global, number: u8, source: &mut S) -> Result<(), Refusal> {
        match number {
            0x01 => set(&mut self.versions, alloc, source),
            0x02 => set(&mut self.extensions, alloc, source),
            0x03 => set(&mut self.aaguid, alloc, source),
            0x04 => set(&mut self.options, alloc, source),
            0x05 => set(&mut self.max_msg_size, alloc, source),
            0x06 => set(&mut self.pin_protocols, alloc, source),
            0x09 => set_accepted_or_none(&mut self.transports, alloc, source),
            0x0a => set_accepted_or_none(&mut self.algorithms, alloc, source),
            _ => self.set_middle_member(alloc, number, source),
        }
    }
}

impl Response {
    /// Decodes the value of a row from 0x0B on.
    fn set_middle_member<S: Source>(
        &mut self,
        alloc: Global,
        number: u8,
        source: &mut S,
    ) -> Result<(), Refusal>
        ensures puts { (i : Item) (to : ℕ) → S.At source.old i to
            → Puts (fields_with true get_info_empty (middle_members ++ last_members)) number i (get_info_parts self.old)
            (get_info_parts self.new) result }
        ensures spends { (i : Item) (to : ℕ) → S.At source.old i to → S.HasCost (cost_at (members_of (middle_members ++ last_members)) number)
            (keeps_at (members_of (middle_members ++ last_members)) number) (shape_at (members_of (middle_members ++ last_members)) number) i to
            source.old source.new (is_ok result) }
        ensures onward { S.IsOnward source.old source.new }
        ensures further { OnOk result (S.IsFurther source.old source.new) }
    {
        match number {
            0x0b => set(&mut self.mac_serialized_large_blob_array, alloc, source),
            0x0c => set(&mut self.force_pin_change, alloc, source),
            0x0d => set(&mut self.min_pin_length, alloc, source),
            0x0e => set(&mut self.firmware_version, alloc, source),
            0x0f => set(&mut self.max_cred_blob_length, alloc, source),
            0x10 => set(&mut self.max_rpids_for_set_min_pin_length, alloc, source),
            0x11 => set(&mut self.preferred_platform_uv_attempts, alloc, source),
            0x12 => set(&mut self.uv_modality, alloc, source),
            0x13 => set(&mut self.certifications, alloc, source),
            0x14 => set(&mut self.remaining_discoverable_credentials, alloc, source),
            _ => self.set_last_member(alloc, number, source),
        }
    }

    /// Decodes the value of a row from 0x15 on.
    fn set_last_member<S: Source>(
        &mut self,
        alloc: Global,
        number: u8,
        source: &mut S,
    ) -> Result<(), Refusal>
        ensures puts { (i : Item) (to : ℕ) → S.At source.old i to
            → Puts (fields_with true get_info_empty last_members) number i (get_info_parts self.old) (get_info_parts self.new) result }
        ensures spends { (i : Item) (to : ℕ) → S.At source.old i to → S.HasCost (cost_at (members_of last_members) number)
            (keeps_at (members_of last_members) number) (shape_at (members_of last_members) number) i to
            source.old source.new (is_ok result) }
        ensures onward { S.IsOnward source.old source.new }
        ensures further { OnOk result (S.IsFurther source.old source.new) }
    {
        match number {
            0x15 => set_accepted_or_none(&mut self.vendor_prototype_config_commands, alloc, source),
            0x16 => set_accepted_or_none(&mut self.attestation_formats, alloc, source),
            0x17 => set(&mut self.uv_count_since_last_pin_entry, alloc, source),
            0x18 => set(&mut self.long_touch_for_reset, alloc, source),
            0x19 => set(&mut self.enc_identifier, alloc, source),
            0x1a => set_accepted_or_none(&mut self.transports_for_reset, alloc, source),
            0x1b => set(&mut self.pin_complexity_policy, alloc, source),
            0x1c => set(&mut self.pin_complexity_policy_url, alloc, source),
            0x1d => set(&mut self.max_pin_length, alloc, source),
            _ => Err(Refusal::Refused),
        }
    }
}

impl Response {
    /// Returns a response without versions, with an AAGUID of zeros, and with all other members
    /// absent. Allocates nothing.
    pub fn empty(alloc: Global) -> Response
        ensures { get_info_parts result ≡ get_info_empty }
    {
        Response {
            versions: List::empty(alloc),
            extensions: None,
            aaguid: Aaguid::new_empty(),
            options: None,
            max_msg_size: None,
            pin_protocols: None,
            transports: None,
            algorithms: None,
            mac_serialized_large_blob_array: None,
            force_pin_change: None,
            min_pin_length: None,
            firmware_version: None,
            max_cred_blob_length: None,
            max_rpids_for_set_min_pin_length: None,
            preferred_platform_uv_attempts: None,
            uv_modality: None,
            certifications: None,
            remaining_discoverable_credentials: None,
            vendor_prototype_config_commands: None,
            attestation_formats: None,
            uv_count_since_last_pin_entry: None,
            long_touch_for_reset: None,
            enc_identifier: None,
            transports_for_reset: None,
            pin_complexity_policy: None,
            pin_complexity_policy_url: None,
            max_pin_length: None,
        }
    }

    /// Decodes the response at the beginning of the bytes, and returns it with its length in bytes.
    /// The bytes begin with its map: there is no status byte before it. Bytes after it are ignored.
    /// The faults are those of `Message::from_slice`.
    pub fn from_slice(alloc: Global, bytes: &[u8]) -> Result<(Response, usize), Fault>
        ensures { ReadsSlice get_info_parts get_info_fields bytes.now result }
    {
        message_from_slice(alloc, bytes)
    }

    /// Decodes the response at the cursor, head by head and without building a data item for the
    /// whole, and moves past it. The faults are those of `Message::read`.
    pub fn read(alloc: Global, cursor: &mut Cursor<'_>) -> Result<Response, Fault>
        ensures { ReadsHere get_info_parts get_info_fields 8 cursor.old cursor.new result }
    {
        read_message(alloc, cursor)
    }

    /// Decodes the response from a data item. Skips unknown members. In the lists 0x09, 0x0A, 0x15,
    /// 0x16 and 0x1A, elements that can't be decoded are dropped, and a value that isn't an array
    /// decodes to `None`. The faults are those of `Message::from_value`.
    pub fn from_value(alloc: Global, value: &Value) -> Result<Response, Fault>
        ensures { ReadsItem get_info_parts get_info_fields (item_of value.now) result }
    {
        record_from_value(alloc, value)
    }

    /// Encodes the response, with the members that are present under their numbers in ascending
    /// order. Returns `NumberTooLarge` exactly if `max_msg_size` is 2^64 or more; otherwise
    /// `OutOfMemory` if an allocation fails.
    pub fn to_vec(&self, alloc: Global) -> Result<Vec<u8>, WriteFault>
        ensures written { IfOk result (λ bytes. bytes.items ≡ written (get_info_tree (get_info_parts self.now))) }
        ensures writable { OnOk result (IsWritable (get_info_tree (get_info_parts self.now))) }
        ensures fits { OnOk result (GetInfoFits (get_info_parts self.now)) }
        ensures encoded { OnOk result (is_encodable (get_info_parts self.now).max_msg_size ≡ true) }
        ensures fault { IfErr result (λ e. e ≡ fault_of_size (get_info_parts self.now).max_msg_size) }
    {
        let max_msg_size = size_item(self.max_msg_size)?;
        let encodable = Encodable {
            response: self,
            max_msg_size,
        };
        write_message(alloc, &encodable)
    }

    /// Returns whether the response can be encoded, and its encoding decoded again: `max_msg_size`
    /// is below 2^64, and `certifications` has fewer than 256 nesting levels. Allocates nothing.
    pub fn is_coherent(&self) -> bool
        ensures { result ≡ is_get_info_coherent (get_info_parts self.now) }
    {
        size_item(self.max_msg_size).is_ok() && fits_in_message(&self.certifications)
    }
}

impl Message for Response {
    ghost cost = { 8 };

    fn read(alloc: Global, cursor: &mut Cursor<'_>) -> Result<Response, Fault> {
        Response::read(alloc, cursor)
    }

    fn to_vec(&self, alloc: Global) -> Result<Vec<u8>, WriteFault> {
        Response::to_vec(self, alloc)
    }

    fn is_coherent(&self) -> bool {
        Response::is_coherent(self)
    }

    fn decoded_is_coherent() {}
}

/// Returns the size as a data item. Returns `NumberTooLarge` exactly if it is 2^64 or more.
fn size_item(size: Option<NonZeroU128>) -> Result<Option<Value>, WriteFault>
    ensures item { IfOk result
        (λ item. option_map item_of item ≡ option_map number_tree (option_map non_zero_u128_get size)) }
    ensures fits { OnOk result (IfPresent IsPositive (option_map non_zero_u128_get size)) }
    ensures encoded { OnOk result (is_encodable (option_map non_zero_u128_get size) ≡ true) }
    ensures fault { IfErr result
        (λ e. (e ≡ TooLarge) × (is_encodable (option_map non_zero_u128_get size) ≡ false)) }
{
    match size {
        Some(size) => match u64::try_from(size.get()) {
            Ok(size) => Ok(Some(Value::from(size))),
            Err(_) => Err(WriteFault::NumberTooLarge),
        },
        None => Ok(None),
    }
}

/// Returns whether the item, if there is one, has fewer than 256 nesting levels, so that a message
/// may contain it.
fn fits_in_message(item: &Option<Value>) -> bool
    ensures { result ≡ has_room (option_map item_of item.now) }
{
    match item {
        Some(item) => item.depth() < MAX_DEPTH,
        None => true,
    }
}

/// A response, with its greatest message size as the data item that it is encoded as.
#[derive(Drop)]
struct Encodable<'a> {
    response: &'a Response,
    max_msg_size: Option<Value>,
}

impl Encodable<'_> {
    fn put_first_members<S: Sink>(&self, alloc: Global, sink: &mut S) -> Result<(), OutOfMemory>
        ensures put { OnOk result
            (S.state sink.new ≡ put_all S.step (S.state sink.old) (encodable_first_members self.now)) }
        ensures accepts { OnOk result (AllAccepted S.Accepts (encodable_first_members self.now)) }
        ensures fits { OnOk result (S.Encodes → IfPresent IsPositive (encodable_parts self.now).max_msg_size
            → EachFits first_members (encodable_parts self.now)) }
    {
        sink.put(alloc, 0x01_u8, &self.response.versions)?;
        sink.put_some(alloc, 0x02_u8, &self.response.extensions)?;
        sink.put(alloc, 0x03_u8, &self.response.aaguid)?;
        sink.put_some(alloc, 0x04_u8, &self.response.options)?;
        sink.put_some(alloc, 0x05_u8, &self.max_msg_size)?;
        sink.put_some(alloc, 0x06_u8, &self.response.pin_protocols)?;
        sink.put_some(alloc, 0x09_u8, &self.response.transports)?;
        sink.put_some(alloc, 0x0a_u8, &self.response.algorithms)
    }

    fn put_middle_members<S: Sink>(&self, alloc: Global, sink: &mut S) -> Result<(), OutOfMemory>
        ensures put { OnOk result
            (S.state sink.new ≡ put_all S.step (S.state sink.old) (places_of middle_members (encodable_parts self.now))) }
        ensures accepts { OnOk result (AllAccepted S.Accepts (places_of middle_members (encodable_parts self.now))) }
        ensures fits { OnOk result (S.Encodes → EachFits middle_members (encodable_parts self.now)) }
    {
        let response = self.response;
        sink.put_some(alloc, 0x0b_u8, &response.mac_serialized_large_blob_array)?;
        sink.put_some(alloc, 0x0c_u8, &response.force_pin_change)?;
        sink.put_some(alloc, 0x0d_u8, &response.min_pin_length)?;
        sink.put_some(alloc, 0x0e_u8, &response.firmware_version)?;
        sink.put_some(alloc, 0x0f_u8, &response.max_cred_blob_length)?;
        sink.put_some(alloc, 0x10_u8, &response.max_rpids_for_set_min_pin_length)?;
        sink.put_some(alloc, 0x11_u8, &response.preferred_platform_uv_attempts)?;
        sink.put_some(alloc, 0x12_u8, &response.uv_modality)?;
        sink.put_some(alloc, 0x13_u8, &response.certifications)?;
        sink.put_some(alloc, 0x14_u8, &response.remaining_discoverable_credentials)
    }

    fn put_last_members<S: Sink>(&self, alloc: Global, sink: &mut S) -> Result<(), OutOfMemory>
        ensures put { OnOk result
            (S.state sink.new ≡ put_all S.step (S.state sink.old) (places_of last_members (encodable_parts self.now))) }
        ensures accepts { OnOk result (AllAccepted S.Accepts (places_of last_members (encodable_parts self.now))) }
        ensures fits { OnOk result (S.Encodes → EachFits last_members (encodable_parts self.now)) }
    {
        let response = self.response;
        sink.put_some(alloc, 0x15_u8, &response.vendor_prototype_config_commands)?;
        sink.put_some(alloc, 0x16_u8, &response.attestation_formats)?;
        sink.put_some(alloc, 0x17_u8, &response.uv_count_since_last_pin_entry)?;
        sink.put_some(alloc, 0x18_u8, &response.long_touch_for_reset)?;
        sink.put_some(alloc, 0x19_u8, &response.enc_identifier)?;
        sink.put_some(alloc, 0x1a_u8, &response.transports_for_reset)?;
        sink.put_some(alloc, 0x1b_u8, &response.pin_complexity_policy)?;
        sink.put_some(alloc, 0x1c_u8, &response.pin_complexity_policy_url)?;
        sink.put_some(alloc, 0x1d_u8, &response.max_pin_length)
    }
}

impl ToCborMap for Encodable<'_> {
    ghost places = { encodable_places };

    ghost holds = { EncodableFits };

    #[tactic(auto, using(passkey_kinds::proofs::Sinks::accepted_both))]
    fn put_members<S: Sink>(&self, alloc: Global, sink: &mut S) -> Result<(), OutOfMemory> {
        self.put_first_members(alloc, sink)?;
        self.put_middle_members(alloc, sink)?;
        self.put_last_members(alloc, sink)
    }

    #[tactic(auto, using(crate::proofs::GetInfos::encodable_keys))]
    fn ordered()
        ensures { KeysAscend encodable_places }
    {}
}
