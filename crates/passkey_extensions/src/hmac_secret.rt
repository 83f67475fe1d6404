//! Inputs of the extension hmac-secret.
ghost use Rattle.std.specs.Prelude.{◌≡◌, ◌<◌, ◌⊎◌, length, true, nat_le, IfOk, IfErr, OnErr, OnOk};
ghost use Rattle.passkey_kinds.specs.Words.{places_of, depth, Grows, item_of, IsWritable, written, ReadsMessage, ReadsHere};
ghost use Rattle.passkey_kinds.specs.Words.{GrowsMessage, MayGrowAt, Reads, table_of};
ghost use Rattle.passkey_extensions.specs.HmacInput.{HmacInputParts, hmac_input_fields, read_hmac_input, hmac_input_parts};
ghost use Rattle.passkey_extensions.specs.HmacInput.{HmacInputFits, hmac_input_members, hmac_input_tree, is_hmac_input_coherent};
ghost use Rattle.passkey_kinds.specs.declared.fault.Fault.TheVariants.{OutOfMemory as NoRoom};
ghost use Rattle.passkey_kinds.specs.declared.fault.WriteFault.TheVariants.{OutOfMemory as NoMemory};

use passkey_bytes::Bytes;
use passkey_cbor::{Cursor, MAX_DEPTH, Value};
use passkey_kinds::{
    Fault, Message, Record, RecordReadBack, Refusal, Row, Sink, Source, ToCborMap, WriteFault,
    message_from_slice, read_message, record_from_value, set, write_message,
};
use passkey_memory::OutOfMemory;
use std::alloc::Global;

/// The input of the extension hmac-secret: one or two encrypted salts, for which the authenticator
/// returns outputs (CTAP 2.1, section 12.5).
#[derive(Debug, Drop, PartialEq)]
pub struct HmacGetSecretInput {
    /// 0x01: `keyAgreement`, the platform's public key for the shared secret. It is kept as a data
    /// item, and isn't checked to be a COSE key.
    pub key_agreement: Value,
    /// 0x02: `saltEnc`, one or two salts of 32 bytes, encrypted with the shared secret. The length
    /// isn't checked.
    pub salt_enc: Bytes,
    /// 0x03: `saltAuth`, which authenticates `saltEnc` with the shared secret. The length isn't
    /// checked.
    pub salt_auth: Bytes,
    /// 0x04: the PIN/UV auth protocol of the shared secret. `None` means that the member is absent;
    /// platforms MUST send it unless it is 1. Null also decodes to `None`.
    pub pin_uv_auth_protocol: Option<u8>,
}

impl HmacGetSecretInput {
    /// Returns an equal value. Returns `OutOfMemory` if an allocation fails, which can't happen if
    /// both byte strings are empty and the key takes no memory.
    pub fn try_clone(&self, alloc: Global) -> Result<HmacGetSecretInput, OutOfMemory>
        ensures same { IfOk result (λ copy. hmac_input_parts copy ≡ hmac_input_parts self.now) }
        ensures grows { OnErr result (Grows (item_of self.now.key_agreement) ⊎ (0 < length self.now.salt_enc)
            ⊎ (0 < length self.now.salt_auth)) }
    {
        Ok(HmacGetSecretInput {
            key_agreement: self.key_agreement.try_clone(alloc)?,
            salt_enc: self.salt_enc.try_clone(alloc)?,
            salt_auth: self.salt_auth.try_clone(alloc)?,
            pin_uv_auth_protocol: self.pin_uv_auth_protocol,
        })
    }

    /// Decodes the input at the beginning of the bytes, and returns it with its length in bytes.
    /// The bytes begin with its map. Bytes after it are ignored.
    ///
    /// Returns `DecodeFailed` exactly if the bytes don't begin with a well-formed data item of at
    /// most 256 nesting levels, and `NotAMap` if the item isn't a map; otherwise the first fault of
    /// its members in their order (`BadKey`, `Repeated`, `Refused`), or else `Missing` for the
    /// first required member that is absent. Returns `OutOfMemory` if an allocation fails, which
    /// can only happen for a member that takes memory.
    pub fn from_slice(alloc: Global, bytes: &[u8]) -> Result<(HmacGetSecretInput, usize), Fault>
        ensures reads { ReadsMessage hmac_input_parts read_hmac_input bytes.now result }
        ensures grows { result ≡ Err NoRoom → GrowsMessage hmac_input_fields bytes.now }
    {
        message_from_slice(alloc, bytes)
    }

    /// Decodes the input at the cursor, head by head and without building a data item for the
    /// whole, and moves past it. Returns `DecodeFailed` exactly if no well-formed data item of at
    /// most 256 nesting levels is there; otherwise the fault that `from_value` returns for the
    /// item. Returns `OutOfMemory` if an allocation fails, which can only happen for a member that
    /// takes memory. On an error the cursor stays, and its counts include what was spent.
    pub fn read(alloc: Global, cursor: &mut Cursor<'_>) -> Result<HmacGetSecretInput, Fault>
        ensures { ReadsHere hmac_input_parts hmac_input_fields 5 cursor.old cursor.new result }
    {
        read_message(alloc, cursor)
    }

    /// Decodes the input from a data item. Returns `NotAMap` if the item isn't a map; otherwise the
    /// first fault of its members in their order (`BadKey`, `Repeated`, `Refused`), or else
    /// `Missing` for the first required member that is absent. Returns `OutOfMemory` if an
    /// allocation fails, which can only happen for a member that takes memory. Skips unknown
    /// members.
    pub fn from_value(alloc: Global, value: &Value) -> Result<HmacGetSecretInput, Fault>
        ensures { Reads hmac_input_parts (MayGrowAt (table_of hmac_input_fields) (item_of value.now))
            (read_hmac_input (item_of value.now)) result }
    {
        record_from_value(alloc, value)
    }

    /// Encodes the input, with its members under their numbers in ascending order. The protocol is
    /// encoded only if it is present. Returns `OutOfMemory` if an allocation fails; there is no
    /// other error.
    pub fn to_vec(&self, alloc: Global) -> Result<Vec<u8>, WriteFault>
        ensures written { IfOk result
            (λ bytes. bytes.items ≡ written (hmac_input_tree (hmac_input_parts self.now))) }
        ensures writable { OnOk result (IsWritable (hmac_input_tree (hmac_input_parts self.now))) }
        ensures fits { OnOk result (HmacInputFits (hmac_input_parts self.now)) }
        ensures memory { IfErr result (λ e. e ≡ NoMemory) }
    {
        write_message(alloc, self)
    }

    /// Returns whether the encoding can be decoded again: it has at most 256 nesting levels.
    /// Allocates nothing.
    pub fn is_coherent(&self) -> bool
        ensures { result ≡ is_hmac_input_coherent (hmac_input_parts self.now) }
    {
        self.is_within(MAX_DEPTH)
    }

    /// Returns whether the encoding has at most this many nesting levels.
    #[tactic(auto, using(crate::proofs::Extensions::input_within))]
    pub(crate) fn is_within(&self, levels: usize) -> bool
        ensures { result ≡ nat_le (depth (hmac_input_tree (hmac_input_parts self.now))) levels }
    {
        self.key_agreement.depth() < levels
    }
}

impl Record for HmacGetSecretInput {
    ghost Parts = { HmacInputParts };

    ghost parts = { hmac_input_parts };

    ghost fields = { hmac_input_fields };

    ghost tree = { hmac_input_tree };

    ghost coherent = { is_hmac_input_coherent };

    fn is_numbered() -> bool {
        true
    }

    fn rows() -> &'static [Row] {
        &[
            Row::Required(1, "keyAgreement"),
            Row::Required(2, "saltEnc"),
            Row::Required(3, "saltAuth"),
            Row::Optional(4, "pinUvAuthProtocol"),
        ]
    }

    fn blank(alloc: Global) -> HmacGetSecretInput {
        HmacGetSecretInput {
            key_agreement: Value::Null,
            salt_enc: Bytes::empty(alloc),
            salt_auth: Bytes::empty(alloc),
            pin_uv_auth_protocol: None,
        }
    }

    fn put<S: Source>(&mut self, alloc: Global, number: u8, source: &mut S) -> Result<(), Refusal> {
        match number {
            1 => set(&mut self.key_agreement, alloc, source),
            2 => set(&mut self.salt_enc, alloc, source),
            3 => set(&mut self.salt_auth, alloc, source),
            4 => set(&mut self.pin_uv_auth_protocol, alloc, source),
            _ => Err(Refusal::Refused),
        }
    }
}

impl ToCborMap for HmacGetSecretInput {
    ghost places = { λ h. places_of hmac_input_members (hmac_input_parts h) };

    ghost holds = { λ h. HmacInputFits (hmac_input_parts h) };

    fn put_members<S: Sink>(&self, alloc: Global, sink: &mut S) -> Result<(), OutOfMemory> {
        sink.put(alloc, 1_u8, &self.key_agreement)?;
        sink.put(alloc, 2_u8, &self.salt_enc)?;
        sink.put(alloc, 3_u8, &self.salt_auth)?;
        sink.put_some(alloc, 4_u8, &self.pin_uv_auth_protocol)?;
        Ok(())
    }

    fn ordered() {}
}

impl RecordReadBack for HmacGetSecretInput {
    #[tactic(auto, using(crate::proofs::Extensions::hmac_parts_back))]
    fn record_back() {}
}

impl Message for HmacGetSecretInput {
    ghost cost = { 5 };

    fn read(alloc: Global, cursor: &mut Cursor<'_>) -> Result<HmacGetSecretInput, Fault> {
        HmacGetSecretInput::read(alloc, cursor)
    }

    fn to_vec(&self, alloc: Global) -> Result<Vec<u8>, WriteFault> {
        HmacGetSecretInput::to_vec(self, alloc)
    }

    fn is_coherent(&self) -> bool {
        HmacGetSecretInput::is_coherent(self)
    }

    fn decoded_is_coherent() {}
}
