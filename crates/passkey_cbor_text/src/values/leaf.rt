//! JSON values that no table divides, as data items.
ghost use Rattle.std.specs.Prelude.{◌≡◌, [], IfOk, map};
ghost use Rattle.std.specs.Option.{option_or};
ghost use Rattle.json.specs.Find.{as_str};
ghost use Rattle.json.specs.Value.{items_view, members_view, value_view};
ghost use Rattle.passkey_bytes.specs.Encoding.{base64url_bytes};
ghost use Rattle.passkey_cbor.specs.View.{item_of, pair_of};
ghost use Rattle.passkey_cbor_text.specs.declared.values.leaf.StringForm.TheVariants.{Text as as_text};
ghost use Rattle.passkey_cbor_text.specs.values.JsonItem.{algorithm_or_text, bytes_item, elements_item, escape_item, first_item};
ghost use Rattle.passkey_cbor_text.specs.values.JsonItem.{leaf_item, member_of, members_item, number_or_text, object_item, placed, string_item};
ghost use Rattle.passkey_cbor_text.specs.values.Keys.{any_key};
ghost use Rattle.passkey_cbor_text.specs.values.NoItem.{Read, Reads};
ghost use Rattle.passkey_cbor_text.specs.values.Ordered.{Member};
ghost use Rattle.uuid.specs.Text.{parsed};

use crate::values::escape::{
    Escape, escape_in, escape_string, map_in, value_of_base64url, value_of_number, value_of_text,
};
use crate::values::keys::any_key;
use crate::values::order::put_in_order;
use crate::values::registries::{algorithm_named, curve_named, key_type_named};
use crate::values::{ItemFault, ItemReason};
use json::Value as Json;
use passkey_cbor::{Integer, Value};
use passkey_iana::EnumI64;
use passkey_memory::OutOfMemory;
use std::alloc::Global;
use uuid::Uuid;

/// What a string in JSON is.
#[derive(Clone, Copy, Debug, PartialEq, Eq)]
pub enum StringForm {
    /// A text string.
    Text,
    /// A byte string, in base64url.
    Bytes,
    /// An AAGUID: a byte string, as a UUID or in base64url.
    Aaguid,
    /// The name of a COSE algorithm, which stands for its number, or a text string.
    Algorithm,
    /// The name of a COSE key type, which stands for its number, or a text string.
    KeyType,
    /// The name of a COSE elliptic curve, which stands for its number, or a text string.
    Curve,
}

fn aaguid(alloc: Global, text: &str) -> Result<Value, ItemFault>
    ensures { Reads item_of (bytes_item (option_or (parsed text.now) (base64url_bytes text.now))) result }
{
    match Uuid::try_parse(text) {
        Ok(uuid) => Ok(Value::Bytes(Vec::from_slice(alloc, uuid.as_bytes())?)),
        Err(_) => value_of_base64url(alloc, text),
    }
}

/// Returns the number that the text stands for, if it is given, and else the text.
fn number_or_text(alloc: Global, number: Option<i64>, text: &str) -> Result<Value, OutOfMemory>
    ensures { IfOk result (λ v. item_of v ≡ number_or_text number text.now) }
{
    match number {
        Some(number) => Ok(Value::Integer(Integer::new(i128::from(number)).unwrap())),
        None => value_of_text(alloc, text),
    }
}

fn algorithm(alloc: Global, text: &str) -> Result<Value, OutOfMemory>
    ensures { IfOk result (λ v. item_of v ≡ algorithm_or_text text.now) }
{
    match algorithm_named(text) {
        Some(algorithm) => number_or_text(alloc, Some(algorithm.to_i64()), text),
        None => value_of_text(alloc, text),
    }
}

fn string(alloc: Global, form: StringForm, text: &str) -> Result<Value, ItemFault>
    ensures { Reads item_of (string_item form text.now) result }
{
    match form {
        StringForm::Text => Ok(value_of_text(alloc, text)?),
        StringForm::Bytes => value_of_base64url(alloc, text),
        StringForm::Aaguid => aaguid(alloc, text),
        StringForm::Algorithm => Ok(algorithm(alloc, text)?),
        StringForm::KeyType => Ok(number_or_text(alloc, key_type_named(text), text)?),
        StringForm::Curve => Ok(number_or_text(alloc, curve_named(text), text)?),
    }
}

#[cycle(leaf)]
fn elements(alloc: Global, all: &[Json<'_>]) -> Result<Vec<Value>, ItemFault>
    ensures { Reads (λ v. map item_of v.items) (elements_item [] 0 (items_view all.now)) result }
{
    let mut found = Vec::new(alloc);
    for (index, json) in all.iter().enumerate() {
        match leaf(alloc, StringForm::Text, json) {
            Ok(value) => found.push(value)?,
            Err(fault) => return Err(fault.under(index)),
        }
    }
    Ok(found)
}

/// Puts the member among the others, which are in CTAP2's order (CTAP 2.1, section 8), unless it wasn't made.
/// Returns `NoItem` if one of them has its key, and `OutOfMemory` if an allocation fails.
pub fn put_member(
    alloc: Global,
    found: &mut Vec<(Value, Value)>,
    member: Result<(Value, Value), ItemFault>,
) -> Result<(), ItemFault>
    ensures { (o : Read Member) → Reads pair_of o member
        → Reads (λ _. map pair_of found.new.items) (placed (map pair_of found.old.items) o) result }
{
    if put_in_order(alloc, found, member?)? {
        Ok(())
    } else {
        Err(ItemFault::here(alloc, ItemReason::Repeated))
    }
}

#[cycle(leaf)]
fn member(alloc: Global, name: &str, json: &Json<'_>) -> Result<(Value, Value), ItemFault>
    ensures { Reads pair_of (member_of (any_key name.now) (leaf_item as_text (value_view json.now))) result }
{
    let key = any_key(alloc, name)?;
    Ok((key, leaf(alloc, StringForm::Text, json)?))
}

/// Returns the members of an object in CTAP2's order.
#[cycle(leaf)]
fn members(alloc: Global, all: &[(&str, Json<'_>)]) -> Result<Vec<(Value, Value)>, ItemFault>
    ensures { Reads (λ v. map pair_of v.items) (members_item [] 0 (members_view all.now)) result }
{
    let mut found = Vec::new(alloc);
    for (index, (name, json)) in all.iter().enumerate() {
        match put_member(alloc, &mut found, member(alloc, name, json)) {
            Ok(()) => {}
            Err(fault) => return Err(fault.under(index)),
        }
    }
    Ok(found)
}

#[cycle(leaf)]
fn escaped(alloc: Global, escape: Escape, json: &Json<'_>) -> Result<Value, ItemFault>
    ensures { Reads item_of (escape_item escape (as_str (value_view json.now))
        (leaf_item as_text (value_view json.now))) result }
{
    match escape {
        Escape::Map => map_in(alloc, &leaf(alloc, StringForm::Text, json)?),
        _ => escape_string(alloc, escape, json.as_str()),
    }
}

/// Returns the data item of this escape, by its first member.
#[cycle(leaf)]
fn first(alloc: Global, escape: Escape, all: &[(&str, Json<'_>)]) -> Result<Value, ItemFault>
    ensures { Reads item_of (first_item escape (members_view all.now)) result }
{
    if all.is_empty() {
        return Err(ItemFault::here(alloc, ItemReason::String));
    }
    match escaped(alloc, escape, &all[0].1) {
        Ok(value) => Ok(value),
        Err(fault) => Err(fault.under(0)),
    }
}

#[cycle(leaf)]
fn object(alloc: Global, all: &[(&str, Json<'_>)]) -> Result<Value, ItemFault>
    ensures { Reads item_of (object_item (members_view all.now)) result }
{
    match escape_in(all) {
        Some(escape) => first(alloc, escape, all),
        None => Ok(Value::Map(members(alloc, all)?)),
    }
}

#[cycle(leaf)]
fn leaf(alloc: Global, form: StringForm, json: &Json<'_>) -> Result<Value, ItemFault>
    ensures { Reads item_of (leaf_item form (value_view json.now)) result }
{
    match json {
        Json::Null => Ok(Value::Null),
        Json::Bool(b) => Ok(Value::Bool(*b)),
        Json::Number(text) => value_of_number(alloc, text.as_bytes()),
        Json::String(text) => string(alloc, form, text),
        Json::Array(all) => Ok(Value::Array(elements(alloc, all)?)),
        Json::Object(all) => object(alloc, all),
    }
}

/// Returns the data item that the JSON value is, where a string is of this form and no table divides the
/// item: null, booleans, integers and strings as they are, arrays, and objects as maps, whose members are
/// put in CTAP2's order (CTAP 2.1, section 8). A member's name is a text string; `#` and an integer; or
/// `$` and the key's encoding in hexadecimal. An object with one member is an escape if its name is
/// `$bytes`, a byte string in base64url; `$text`; `$int`, an integer in a string; `$map`, an array of
/// arrays of a key and a value, in this order; or `$cbor`, any item by its encoding in hexadecimal.
///
/// Returns `NoItem` exactly if the value is no item, with where in it and why: a number isn't an integer
/// from -2^64 to 2^64 - 1, a text isn't base64url, digits aren't one item, or two members of an object
/// have one key. Returns `OutOfMemory` if an allocation fails.
pub fn item_from_json(alloc: Global, form: StringForm, json: &Json<'_>) -> Result<Value, ItemFault>
    ensures { Reads item_of (leaf_item form (value_view json.now)) result }
{
    leaf(alloc, form, json)
}
