//! Authenticator data (WebAuthn Level 3, section 6.1) and attested credential data (section 6.5.1), whose parts
//! a JSON object has.
ghost use Rattle.std.specs.Prelude.{◌≡◌, ◌++◌, ◌∷◌, [], ℕ, List as ListOf, Option as OptionOf, IfOk, fold, map, option_map, unwrap_or};
ghost use Rattle.std.specs.Int.RustNames.{bit_or};
ghost use Rattle.json.specs.Json.{Json as SpecJson};
ghost use Rattle.json.specs.Value.{value_view};
ghost use Rattle.passkey_cbor.specs.Item.{byte_string};
ghost use Rattle.passkey_cbor.specs.View.{item_of};
ghost use Rattle.passkey_cbor.specs.Written.{written};
ghost use Rattle.passkey_cbor_text.specs.declared.values.no_item.ItemReason.{ItemReason as Reason};
ghost use Rattle.passkey_cbor_text.specs.declared.values.no_item.ItemReason.TheVariants as reason;
ghost use Rattle.passkey_cbor_text.specs.declared.values.leaf.StringForm.TheVariants as string;
ghost use Rattle.passkey_cbor_text.specs.values.JsonItem.{leaf_item};
ghost use Rattle.passkey_cbor_text.specs.values.NoItem.{Read, Reads, or_reason, read_map, then_with};
ghost use Rattle.passkey_cbor_text.specs.values.Registries.{named_in as value_named, row_of};
ghost use Rattle.passkey_core.specs.Flags.{flag_bits};
ghost use Rattle.passkey_render.specs.DataParts.{Part, agrees, attested_bytes, attested_joined, attested_part, byte_of, counted_bytes, counter_bytes};
ghost use Rattle.passkey_render.specs.DataParts.{data_item, data_joined, data_part, flag_in, flag_of, flags_bytes, flags_joined, object_bytes};
ghost use Rattle.passkey_render.specs.DataParts.{part_in, part_of, sized_bytes};
ghost use Rattle.passkey_render.specs.KeyParts.{key_item};
ghost use Rattle.passkey_render.specs.Parts.{named_in, read_each};

use crate::key_parts::key_item_from_json;
use json::Value as Json;
use passkey_cbor::Value;
use passkey_cbor_text::values::{
    ItemFault, ItemReason, StringForm, is_escape, item_from_json, named_in,
};
use passkey_memory::OutOfMemory;
use std::alloc::Global;

/// A member's name, and the bytes that it is encoded as.
type Part = (String, Vec<u8>);

/// Returns the byte string, if it has this length.
fn sized(alloc: Global, reason: ItemReason, len: usize, value: &Value) -> Result<Vec<u8>, ItemFault>
    ensures { Reads (λ v. v.items) (or_reason reason (sized_bytes len (item_of value.now))) result }
{
    let Value::Bytes(bytes) = value else {
        return Err(ItemFault::here(alloc, reason));
    };
    if bytes.len() != len {
        return Err(ItemFault::here(alloc, reason));
    }
    Ok(Vec::from_slice(alloc, bytes)?)
}

/// Returns the byte string after its length in two bytes.
fn counted(alloc: Global, value: &Value) -> Result<Vec<u8>, ItemFault>
    ensures { Reads (λ v. v.items) (or_reason reason.CredentialId (counted_bytes (item_of value.now))) result }
{
    let Value::Bytes(bytes) = value else {
        return Err(ItemFault::here(alloc, ItemReason::CredentialId));
    };
    let Ok(len) = u16::try_from(bytes.len()) else {
        return Err(ItemFault::here(alloc, ItemReason::CredentialId));
    };
    let mut counted = Vec::from_slice(alloc, &len.to_be_bytes())?;
    counted.extend_from_slice(bytes)?;
    Ok(counted)
}

/// Returns the integer in four bytes.
fn counter(alloc: Global, value: &Value) -> Result<Vec<u8>, ItemFault>
    ensures { Reads (λ v. v.items) (or_reason reason.Counter (counter_bytes (item_of value.now))) result }
{
    if let Value::Integer(number) = value {
        if let Ok(number) = u32::try_from(number.get()) {
            return Ok(Vec::from_slice(alloc, &number.to_be_bytes())?);
        }
    }
    Err(ItemFault::here(alloc, ItemReason::Counter))
}

/// Returns the integer in one byte.
fn byte(alloc: Global, value: &Value) -> Result<Vec<u8>, ItemFault>
    ensures { Reads (λ v. v.items) (or_reason reason.Flags (byte_of (item_of value.now))) result }
{
    if let Value::Integer(number) = value {
        if let Ok(byte) = u8::try_from(number.get()) {
            return Ok(Vec::from_slice(alloc, &[byte])?);
        }
    }
    Err(ItemFault::here(alloc, ItemReason::Flags))
}

/// The flags by their names.
pub(crate) fn flag_bits() -> &'static [(&'static str, u8)]
    ensures { map row_of result.now ≡ flag_bits }
{
    &[
        ("UP", 1),
        ("UV", 4),
        ("BE", 8),
        ("BS", 16),
        ("AT", 64),
        ("ED", 128),
    ]
}

fn flag_in(alloc: Global, value: &Value) -> Result<u8, ItemFault>
    ensures { Reads (λ n. n) (or_reason reason.Flag (flag_in (item_of value.now))) result }
{
    if let Value::Text(name) = value {
        if let Some(bit) = named_in(name.as_str(), flag_bits()) {
            return Ok(bit);
        }
    }
    Err(ItemFault::here(alloc, ItemReason::Flag))
}

fn flag(alloc: Global, json: &Json<'_>) -> Result<u8, ItemFault>
    ensures { Reads (λ n. n) (flag_of (value_view json.now)) result }
{
    flag_in(alloc, &item_from_json(alloc, StringForm::Text, json)?)
}

fn flags_named(alloc: Global, all: &[Json<'_>]) -> Result<Vec<u8>, ItemFault>
    ensures { Reads (λ v. v.items) (read_each (λ _. flag_of) [] 0 (map value_view all.now)) result }
{
    let mut found = Vec::new(alloc);
    for (index, json) in all.iter().enumerate() {
        match flag(alloc, json) {
            Ok(flag) => found.push(flag)?,
            Err(fault) => return Err(fault.under(index)),
        }
    }
    Ok(found)
}

/// Returns the byte of the flags.
fn joined(flags: &[u8]) -> u8
    ensures { result ≡ fold bit_or 0 flags.now }
{
    let mut byte = 0;
    for flag in flags {
        byte |= *flag;
    }
    byte
}

/// Returns the byte of the flags that these are the names of.
fn named_flags(alloc: Global, all: &[Json<'_>]) -> Result<Vec<u8>, ItemFault>
    ensures { Reads (λ v. v.items)
        (read_map flags_joined (read_each (λ _. flag_of) [] 0 (map value_view all.now))) result }
{
    let flags = flags_named(alloc, all)?;
    Ok(Vec::from_slice(alloc, &[joined(&flags)])?)
}

/// Returns the byte of flags that the integer is.
fn numbered_flags(alloc: Global, json: &Json<'_>) -> Result<Vec<u8>, ItemFault>
    ensures { Reads (λ v. v.items)
        (then_with (λ i. or_reason reason.Flags (byte_of i)) (leaf_item string.Text (value_view json.now))) result }
{
    byte(alloc, &item_from_json(alloc, StringForm::Text, json)?)
}

fn flags(alloc: Global, json: &Json<'_>) -> Result<Vec<u8>, ItemFault>
    ensures { Reads (λ v. v.items) (flags_bytes (value_view json.now)) result }
{
    match json {
        Json::Array(all) => named_flags(alloc, all),
        _ => numbered_flags(alloc, json),
    }
}

/// An object whose members are parts of a structure.
trait Structure {
    /// The bytes of a member, by its name and its value.
    ghost part: { ListOf ℕ → SpecJson → Read (ListOf ℕ) };

    /// The bytes of the structure, put together from those of its members.
    ghost joined: { ListOf Part → OptionOf (ListOf ℕ) };

    /// Which members are wanted.
    ghost wanted: { Reason };

    /// Returns the bytes of the member.
    fn part(alloc: Global, name: &str, json: &Json<'_>) -> Result<Vec<u8>, ItemFault>
        ensures { Reads (λ v. v.items) (part name.now (value_view json.now)) result };

    /// Returns the bytes of the structure, if no member is missing.
    fn joined(alloc: Global, parts: &[Part]) -> Result<Option<Vec<u8>>, OutOfMemory>
        ensures { IfOk result
            (λ o. option_map (λ v. v.items) o ≡ joined (map part_in parts.now)) };

    /// Returns which members are wanted.
    fn wanted() -> ItemReason
        ensures { result ≡ wanted };
}

/// Returns what the part with this name is encoded as.
fn bytes_named<'p>(name: &str, parts: &'p [Part]) -> Option<&'p [u8]>
    ensures { option_map (λ s. s.now) result ≡ value_named name.now (map part_in parts.now) }
{
    for (own, bytes) in parts {
        if own.as_str() == name {
            return Some(bytes.as_slice());
        }
    }
    None
}

/// Returns the member's name and bytes, unless an earlier one has its name.
fn part<S: Structure>(
    alloc: Global,
    before: &[Part],
    name: &str,
    json: &Json<'_>,
) -> Result<Part, ItemFault>
    ensures { Reads part_in (part_of S.part (map part_in before.now) (name.now, value_view json.now)) result }
{
    if bytes_named(name, before).is_some() {
        return Err(ItemFault::here(alloc, ItemReason::Repeated));
    }
    let bytes = S::part(alloc, name, json)?;
    Ok((String::from_str(alloc, name)?, bytes))
}

fn parts<S: Structure>(alloc: Global, all: &[(&str, Json<'_>)]) -> Result<Vec<Part>, ItemFault>
    ensures { Reads (λ v. map part_in v.items) (read_each (part_of S.part) [] 0 (map named_in all.now)) result }
{
    let mut found = Vec::new(alloc);
    for (index, (name, json)) in all.iter().enumerate() {
        match part::<S>(alloc, &found, name, json) {
            Ok(part) => found.push(part)?,
            Err(fault) => return Err(fault.under(index)),
        }
    }
    Ok(found)
}

/// Returns the bytes of the structure whose parts are the object's members.
fn object_bytes<S: Structure>(alloc: Global, all: &[(&str, Json<'_>)]) -> Result<Vec<u8>, ItemFault>
    ensures { Reads (λ v. v.items) (object_bytes S.part S.joined S.wanted (map named_in all.now)) result }
{
    let parts = parts::<S>(alloc, all)?;
    match S::joined(alloc, &parts)? {
        Some(bytes) => Ok(bytes),
        None => Err(ItemFault::here(alloc, S::wanted())),
    }
}

/// Returns the encoding of the data item.
fn encoded(alloc: Global, value: Value) -> Result<Vec<u8>, OutOfMemory>
    ensures { IfOk result (λ v. v.items ≡ written (item_of value)) }
{
    let bytes = value.to_vec(alloc);
    drop(value);
    Ok(bytes?)
}

fn key_bytes(alloc: Global, json: &Json<'_>) -> Result<Vec<u8>, ItemFault>
    ensures { Reads (λ v. v.items) (read_map written (key_item (value_view json.now))) result }
{
    let value = key_item_from_json(alloc, json)?;
    Ok(encoded(alloc, value)?)
}

fn item_bytes(alloc: Global, json: &Json<'_>) -> Result<Vec<u8>, ItemFault>
    ensures { Reads (λ v. v.items) (read_map written (leaf_item string.Text (value_view json.now))) result }
{
    let value = item_from_json(alloc, StringForm::Text, json)?;
    Ok(encoded(alloc, value)?)
}

/// Attested credential data.
struct Attested;

impl Structure for Attested {
    ghost part = { attested_part };

    ghost joined = { attested_joined };

    ghost wanted = { reason.AttestedParts };

    fn part(alloc: Global, name: &str, json: &Json<'_>) -> Result<Vec<u8>, ItemFault> {
        if name == "aaguid" {
            let value = item_from_json(alloc, StringForm::Aaguid, json)?;
            sized(alloc, ItemReason::Aaguid, 16, &value)
        } else if name == "credentialId" {
            counted(alloc, &item_from_json(alloc, StringForm::Bytes, json)?)
        } else if name == "credentialPublicKey" {
            key_bytes(alloc, json)
        } else {
            Err(ItemFault::here(alloc, ItemReason::AttestedParts))
        }
    }

    fn joined(alloc: Global, parts: &[Part]) -> Result<Option<Vec<u8>>, OutOfMemory> {
        let Some(aaguid) = bytes_named("aaguid", parts) else {
            return Ok(None);
        };
        let Some(id) = bytes_named("credentialId", parts) else {
            return Ok(None);
        };
        let Some(key) = bytes_named("credentialPublicKey", parts) else {
            return Ok(None);
        };
        let mut bytes = Vec::from_slice(alloc, aaguid)?;
        bytes.extend_from_slice(id)?;
        bytes.extend_from_slice(key)?;
        Ok(Some(bytes))
    }

    fn wanted() -> ItemReason {
        ItemReason::AttestedParts
    }
}

fn attested_bytes(alloc: Global, json: &Json<'_>) -> Result<Vec<u8>, ItemFault>
    ensures { Reads (λ v. v.items) (attested_bytes (value_view json.now)) result }
{
    match json {
        Json::Object(all) => {
            if is_escape(all) {
                return Err(ItemFault::here(alloc, ItemReason::AttestedParts));
            }
            object_bytes::<Attested>(alloc, all)
        }
        _ => Err(ItemFault::here(alloc, ItemReason::AttestedParts)),
    }
}

/// Whether the flag, in the byte of flags, is set exactly if its part is there.
fn agrees(flag: u8, flags: &[u8], is_there: bool) -> bool
    ensures { result ≡ agrees flag flags.now is_there }
{
    match flags.first() {
        Some(byte) if is_there => *byte & flag == flag,
        Some(byte) => *byte & flag != flag,
        None => false,
    }
}

/// Authenticator data.
struct Data;

impl Structure for Data {
    ghost part = { data_part };

    ghost joined = { data_joined };

    ghost wanted = { reason.DataParts };

    fn part(alloc: Global, name: &str, json: &Json<'_>) -> Result<Vec<u8>, ItemFault> {
        if name == "rpIdHash" {
            let value = item_from_json(alloc, StringForm::Bytes, json)?;
            sized(alloc, ItemReason::Hash, 32, &value)
        } else if name == "flags" {
            flags(alloc, json)
        } else if name == "signCount" {
            counter(alloc, &item_from_json(alloc, StringForm::Text, json)?)
        } else if name == "attestedCredentialData" {
            attested_bytes(alloc, json)
        } else if name == "extensions" {
            item_bytes(alloc, json)
        } else {
            Err(ItemFault::here(alloc, ItemReason::DataParts))
        }
    }

    fn joined(alloc: Global, parts: &[Part]) -> Result<Option<Vec<u8>>, OutOfMemory> {
        let Some(hash) = bytes_named("rpIdHash", parts) else {
            return Ok(None);
        };
        let Some(flags) = bytes_named("flags", parts) else {
            return Ok(None);
        };
        let Some(counter) = bytes_named("signCount", parts) else {
            return Ok(None);
        };
        let attested = bytes_named("attestedCredentialData", parts);
        let extensions = bytes_named("extensions", parts);
        if !agrees(64, flags, attested.is_some()) || !agrees(128, flags, extensions.is_some()) {
            return Ok(None);
        }
        let mut bytes = Vec::from_slice(alloc, hash)?;
        bytes.extend_from_slice(flags)?;
        bytes.extend_from_slice(counter)?;
        bytes.extend_from_slice(attested.unwrap_or(&[]))?;
        bytes.extend_from_slice(extensions.unwrap_or(&[]))?;
        Ok(Some(bytes))
    }

    fn wanted() -> ItemReason {
        ItemReason::DataParts
    }
}

/// Returns the byte string of this, if it is given.
fn byte_string(bytes: Result<Vec<u8>, ItemFault>) -> Result<Value, ItemFault>
    ensures { (o : Read (ListOf ℕ)) → Reads (λ v. v.items) o bytes
        → Reads item_of (read_map byte_string o) result }
{
    match bytes {
        Ok(bytes) => Ok(Value::Bytes(bytes)),
        Err(fault) => Err(fault),
    }
}

/// Returns the data item that the JSON value is where authenticator data are wanted. An object has their parts
/// as its members: `rpIdHash`, 32 bytes; `flags`, an array of their names, or an integer; `signCount`; and, if
/// they are there, `attestedCredentialData`, an object of `aaguid`, `credentialId` and `credentialPublicKey`
/// (`key_item_from_json`), and `extensions`, any data item; AT and ED have to be set exactly if these are there.
/// A string is all of them in base64url, and all else is what `passkey_cbor_text::values::item_from_json` has.
///
/// Returns `NoItem` exactly if the value is none of these, with where in it and why, and `OutOfMemory` if an
/// allocation fails (WebAuthn Level 3, sections 6.1 and 6.5.1).
pub fn data_item_from_json(alloc: Global, json: &Json<'_>) -> Result<Value, ItemFault>
    ensures { Reads item_of (data_item (value_view json.now)) result }
{
    match json {
        Json::Object(all) => {
            if is_escape(all) {
                return item_from_json(alloc, StringForm::Bytes, json);
            }
            byte_string(object_bytes::<Data>(alloc, all))
        }
        _ => item_from_json(alloc, StringForm::Bytes, json),
    }
}
