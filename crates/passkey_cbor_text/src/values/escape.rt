//! Escapes: objects with one member, whose name says what its value is.
ghost use Rattle.std.specs.Prelude.{◌≡◌, [], IfOk, is_some, map, option_map};
ghost use Rattle.json.specs.Value.{members_view};
ghost use Rattle.passkey_bytes.specs.Encoding.{base64url_bytes};
ghost use Rattle.passkey_cbor.specs.Item.{text_string};
ghost use Rattle.passkey_cbor.specs.View.{item_of, pair_of};
ghost use Rattle.passkey_cbor_text.specs.values.JsonItem.{bytes_item, escape_in, escape_named, escape_string, escape_text, map_in, pair_in, pairs_from};
ghost use Rattle.passkey_cbor_text.specs.values.Keys.{encoding_item, number_item};
ghost use Rattle.passkey_cbor_text.specs.values.Keys as encoded;
ghost use Rattle.passkey_cbor_text.specs.values.NoItem.{Reads, or_reason};
ghost use Rattle.passkey_cbor_text.specs.declared.values.no_item.ItemReason.TheVariants as reason;

use crate::values::integer::integer_in;
use crate::values::{ItemFault, ItemReason};
use hex::FromHexError;
use json::Value as Json;
use passkey_bytes::encoding::try_from_base64url;
use passkey_cbor::{CborError, Value};
use passkey_memory::OutOfMemory;
use std::alloc::Global;

/// What the value of the one member is.
#[derive(Clone, Copy, Debug, PartialEq, Eq)]
pub(crate) enum Escape {
    /// `$bytes`: a byte string, in base64url.
    Bytes,
    /// `$text`: a text string.
    Text,
    /// `$int`: an integer, in a string.
    Integer,
    /// `$map`: the members of a map, in their order, each an array of its key and its value.
    Map,
    /// `$cbor`: any data item, by its encoding in hexadecimal.
    Cbor,
}

/// Returns the escape with this name.
fn escape_named(name: &str) -> Option<Escape>
    ensures { result ≡ escape_named name.now }
{
    if name == "$bytes" {
        Some(Escape::Bytes)
    } else if name == "$text" {
        Some(Escape::Text)
    } else if name == "$int" {
        Some(Escape::Integer)
    } else if name == "$map" {
        Some(Escape::Map)
    } else if name == "$cbor" {
        Some(Escape::Cbor)
    } else {
        None
    }
}

/// Returns the escape that an object is, if it is one.
pub(crate) fn escape_in(members: &[(&str, Json<'_>)]) -> Option<Escape>
    ensures { result ≡ escape_in (members_view members.now) }
{
    if members.len() != 1 {
        return None;
    }
    escape_named(members[0].0)
}

/// Whether an object with these members is an escape.
pub fn is_escape(members: &[(&str, Json<'_>)]) -> bool
    ensures { result ≡ is_some (escape_in (members_view members.now)) }
{
    escape_in(members).is_some()
}

/// Decodes the data item that all these bytes encode.
#[tactic(auto, using(crate::proofs::Escapes::whole_item, crate::proofs::Escapes::item_and_more, crate::proofs::Escapes::no_item))]
fn value_of_encoding(alloc: Global, bytes: &[u8]) -> Result<Value, ItemFault>
    ensures { Reads item_of (or_reason reason.Encoding (encoded.bytes_item bytes.now)) result }
{
    passkey_cbor::laws::leading_item_is_found();
    passkey_cbor::laws::found_is_leading_item();
    match Value::from_slice(alloc, bytes) {
        Ok((value, len)) => {
            if len < bytes.len() {
                return Err(ItemFault::here(alloc, ItemReason::Encoding));
            }
            Ok(value)
        }
        Err(CborError::OutOfMemory) => Err(ItemFault::OutOfMemory),
        Err(_) => Err(ItemFault::here(alloc, ItemReason::Encoding)),
    }
}

/// Decodes the data item whose encoding is in these hexadecimal digits. Returns `NoItem` if they aren't one
/// well-formed item of at most 256 levels, and `OutOfMemory` if an allocation fails.
pub fn value_of_hex(alloc: Global, digits: &[u8]) -> Result<Value, ItemFault>
    ensures { Reads item_of (encoding_item digits.now) result }
{
    match hex::decode(alloc, digits) {
        Ok(bytes) => value_of_encoding(alloc, bytes.as_slice()),
        Err(FromHexError::OutOfMemory) => Err(ItemFault::OutOfMemory),
        Err(_) => Err(ItemFault::here(alloc, ItemReason::Encoding)),
    }
}

/// Returns the byte string that a text in base64url is (RFC 4648, section 5). Returns `NoItem` if it isn't
/// base64url, and `OutOfMemory` if an allocation fails.
pub fn value_of_base64url(alloc: Global, text: &str) -> Result<Value, ItemFault>
    ensures { Reads item_of (bytes_item (base64url_bytes text.now)) result }
{
    match try_from_base64url(alloc, text)? {
        Some(bytes) => Ok(Value::Bytes(bytes)),
        None => Err(ItemFault::here(alloc, ItemReason::Bytes)),
    }
}

/// Returns the integer in a text: digits after a sign or none. Returns `NoItem` if it is none, or is below
/// -2^64 or above 2^64 - 1.
pub fn value_of_number(alloc: Global, text: &[u8]) -> Result<Value, ItemFault>
    ensures { Reads item_of (number_item text.now) result }
{
    match integer_in(text) {
        Some(number) => Ok(Value::Integer(number)),
        None => Err(ItemFault::here(alloc, ItemReason::Integer)),
    }
}

/// Returns a text string. Returns `OutOfMemory` if an allocation fails.
pub fn value_of_text(alloc: Global, text: &str) -> Result<Value, OutOfMemory>
    ensures { IfOk result (λ v. item_of v ≡ text_string text.now) }
{
    Ok(Value::Text(String::from_str(alloc, text)?))
}

fn escape_text(alloc: Global, escape: Escape, text: &str) -> Result<Value, ItemFault>
    ensures { Reads item_of (escape_text escape text.now) result }
{
    match escape {
        Escape::Bytes => value_of_base64url(alloc, text),
        Escape::Text => Ok(value_of_text(alloc, text)?),
        Escape::Integer => value_of_number(alloc, text.as_bytes()),
        Escape::Map => Err(ItemFault::here(alloc, ItemReason::Pairs)),
        Escape::Cbor => value_of_hex(alloc, text.as_bytes()),
    }
}

/// Returns the data item of an escape whose value this string is, if it is one.
pub(crate) fn escape_string(
    alloc: Global,
    escape: Escape,
    text: Option<&str>,
) -> Result<Value, ItemFault>
    ensures { Reads item_of (escape_string escape (option_map (λ s. s.now) text.entry)) result }
{
    match text {
        Some(text) => escape_text(alloc, escape, text),
        None => Err(ItemFault::here(alloc, ItemReason::String)),
    }
}

/// Returns the key and the value, if the item is an array of two.
fn pair_in(value: &Value) -> Option<(&Value, &Value)>
    ensures { option_map (λ p. (item_of p.0.now, item_of p.1.now)) result ≡ pair_in (item_of value.now) }
{
    let Value::Array(elements) = value else {
        return None;
    };
    if elements.len() != 2 {
        return None;
    }
    Some((&elements[0], &elements[1]))
}

/// Returns copies of the members whose keys and values these are. `None` if one is no pair.
fn pairs_in(alloc: Global, pairs: &[Value]) -> Result<Option<Vec<(Value, Value)>>, OutOfMemory>
    ensures { IfOk result (λ o. option_map (λ v. map pair_of v.items) o ≡ pairs_from [] (map item_of pairs.now)) }
{
    let mut all = Vec::new(alloc);
    for pair in pairs {
        match pair_in(pair) {
            Some((key, value)) => {
                let key = key.try_clone(alloc)?;
                all.push((key, value.try_clone(alloc)?))?;
            }
            None => return Ok(None),
        }
    }
    Ok(Some(all))
}

/// Returns the map whose members the arrays of two are.
pub(crate) fn map_in(alloc: Global, value: &Value) -> Result<Value, ItemFault>
    ensures { Reads item_of (or_reason reason.Pairs (map_in (item_of value.now))) result }
{
    let Value::Array(pairs) = value else {
        return Err(ItemFault::here(alloc, ItemReason::Pairs));
    };
    match pairs_in(alloc, pairs)? {
        Some(members) => Ok(Value::Map(members)),
        None => Err(ItemFault::here(alloc, ItemReason::Pairs)),
    }
}
