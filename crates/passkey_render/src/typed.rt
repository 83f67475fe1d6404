//! JSON values, as data items by the tables of a message.
ghost use Rattle.std.specs.Prelude.{◌≡◌, ◌++◌, ◌∷◌, [], ℕ, List as ListOf, map, IfOk, Some};
ghost use Rattle.json.specs.Json.{Json as SpecJson};
ghost use Rattle.json.specs.Value.{value_view};
ghost use Rattle.passkey_cbor.specs.Item.{Item, text_string};
ghost use Rattle.passkey_cbor.specs.View.{item_of, pair_of};
ghost use Rattle.passkey_cbor_text.specs.values.JsonItem.{array_of, map_of};
ghost use Rattle.passkey_cbor_text.specs.values.Keys.{key_item};
ghost use Rattle.passkey_cbor_text.specs.values.NoItem.{Read, Reads, read_map};
ghost use Rattle.passkey_cbor_text.specs.values.Ordered.{Member};
ghost use Rattle.passkey_kinds.specs.Look.{tested, HasForm};
ghost use Rattle.passkey_kinds.specs.Record.{names, naming_of};
ghost use Rattle.passkey_kinds.specs.RecordReading.{entry_of};
ghost use Rattle.passkey_kinds.specs.Shape.{Tested, reached};
ghost use Rattle.passkey_kinds.specs.declared.look.Form.TheVariants.{List as a_list};
ghost use Rattle.passkey_render.specs.Parts.{named_in, read_each};
ghost use Rattle.passkey_render.specs.Typed.{HasKeys, IsTableAt, Keys as SpecKeys, json_item, keys_of, member_item, named_by};
ghost use Rattle.passkey_render.specs.Typed.{named_key, plain_key, string_form, value_item, wanted_item};

use crate::data_parts::data_item_from_json;
use json::Value as Json;
use passkey_cbor::{Integer, Value};
use passkey_cbor_text::values::{
    ItemFault, StringForm, is_escape, item_from_json, value_of_base64url, value_of_hex,
    value_of_number, value_of_text,
};
use passkey_kinds::{Form, FromCbor, Named, Row, Wanted, row_of};
use passkey_memory::OutOfMemory;
use std::alloc::Global;

/// The keys that a map may have.
#[derive(Clone, Copy)]
enum Keys {
    /// Byte strings.
    ByteStrings,
    /// Those of a record: whether its members have numbers, and its rows.
    Rows(bool, &'static [Row]),
}

/// Returns what a string is where this is wanted.
pub(crate) fn string_form(wanted: Wanted) -> StringForm
    ensures { result ≡ string_form wanted }
{
    match wanted {
        Wanted::Bytes => StringForm::Bytes,
        Wanted::SizedBytes(_) => StringForm::Bytes,
        Wanted::AuthenticatorData => StringForm::Bytes,
        Wanted::ByteString(len) => {
            if len == 16 {
                StringForm::Aaguid
            } else {
                StringForm::Bytes
            }
        }
        Wanted::Algorithm => StringForm::Algorithm,
        _ => StringForm::Text,
    }
}

/// Returns the data item where this is wanted: authenticator data also by their parts.
fn wanted_item(alloc: Global, wanted: Wanted, json: &Json<'_>) -> Result<Value, ItemFault>
    ensures { Reads item_of (wanted_item wanted (value_view json.now)) result }
{
    match wanted {
        Wanted::AuthenticatorData => data_item_from_json(alloc, json),
        _ => item_from_json(alloc, string_form(wanted), json),
    }
}

/// Returns the way with one more number.
fn longer(alloc: Global, way: &[u8], number: u8) -> Result<Vec<u8>, OutOfMemory>
    ensures { IfOk result (λ v. v.items ≡ way.now ++ number ∷ []) }
{
    let mut longer = Vec::from_slice(alloc, way)?;
    longer.push(number)?;
    Ok(longer)
}

/// Returns the key of a record's member: the number of the row with this name, if members have numbers,
/// and else the name.
fn named_key(
    alloc: Global,
    is_numbered: bool,
    rows: &[Row],
    name: &str,
) -> Result<Value, OutOfMemory>
    ensures { IfOk result (λ v. item_of v
        ≡ named_key is_numbered (names is_numbered (map entry_of rows.now) (text_string name.now)) name.now) }
{
    let text = value_of_text(alloc, name)?;
    if !is_numbered {
        return Ok(text);
    }
    match row_of(true, rows, &text) {
        Some(Named::Row(number)) => {
            Ok(Value::Integer(Integer::new(i128::from(number)).unwrap()))
        }
        Some(Named::Unknown) => Ok(text),
        None => Ok(text),
    }
}

fn plain_key(alloc: Global, keys: &Keys, name: &str) -> Result<Value, ItemFault>
    ensures { Reads item_of (plain_key (keys_of keys.now) name.now) result }
{
    match keys {
        Keys::ByteStrings => value_of_base64url(alloc, name),
        Keys::Rows(is_numbered, rows) => Ok(named_key(alloc, *is_numbered, rows, name)?),
    }
}

fn key(alloc: Global, keys: &Keys, name: &str) -> Result<Value, ItemFault>
    ensures { Reads item_of (key_item (plain_key (keys_of keys.now)) name.now) result }
{
    match name.as_bytes().split_first() {
        Some((b'$', digits)) => value_of_hex(alloc, digits),
        Some((b'#', digits)) => value_of_number(alloc, digits),
        _ => plain_key(alloc, keys, name),
    }
}

/// Returns the row that the key names.
fn named(keys: &Keys, key: &Value) -> Option<Named>
    ensures { naming_of result ≡ named_by (keys_of keys.now) (item_of key.now) }
{
    match keys {
        Keys::ByteStrings => Some(Named::Row(0)),
        Keys::Rows(is_numbered, rows) => row_of(*is_numbered, rows, key),
    }
}

#[cycle(items)]
fn elements<M: FromCbor>(
    alloc: Global,
    way: &[u8],
    all: &[Json<'_>],
) -> Result<Vec<Value>, ItemFault>
    ensures { (t : Tested) → reached way.now (tested M.typed) ≡ Some t
        → Reads (λ v. map item_of v.items) (read_each (λ _. json_item t.shape) [] 0 (map value_view all.now)) result }
{
    let mut found = Vec::new(alloc);
    for (index, json) in all.iter().enumerate() {
        match item::<M>(alloc, way, json) {
            Ok(value) => found.push(value)?,
            Err(fault) => return Err(fault.under(index)),
        }
    }
    Ok(found)
}

#[cycle(items)]
fn list<M: FromCbor>(alloc: Global, way: &[u8], json: &Json<'_>) -> Result<Value, ItemFault>
    ensures { (t : Tested) → reached way.now (tested M.typed) ≡ Some t → HasForm t.shape a_list
        → Reads item_of (json_item t.shape (value_view json.now)) result }
{
    match json {
        Json::Array(all) => {
            let inner = longer(alloc, way, 0)?;
            array_of(elements::<M>(alloc, &inner, all))
        }
        _ => item_from_json(alloc, StringForm::Text, json),
    }
}

/// Returns the array of these elements, if they are given.
fn array_of(elements: Result<Vec<Value>, ItemFault>) -> Result<Value, ItemFault>
    ensures { (o : Read (ListOf Item)) → Reads (λ v. map item_of v.items) o elements
        → Reads item_of (read_map array_of o) result }
{
    match elements {
        Ok(elements) => Ok(Value::Array(elements)),
        Err(fault) => Err(fault),
    }
}

/// Returns the map of these members, if they are given.
pub(crate) fn map_of(members: Result<Vec<(Value, Value)>, ItemFault>) -> Result<Value, ItemFault>
    ensures { (o : Read (ListOf Member)) → Reads (λ v. map pair_of v.items) o members
        → Reads item_of (read_map map_of o) result }
{
    match members {
        Ok(members) => Ok(Value::Map(members)),
        Err(fault) => Err(fault),
    }
}

/// Returns the value of a member, by what its key names.
#[cycle(items)]
fn value<M: FromCbor>(
    alloc: Global,
    way: &[u8],
    named: Option<Named>,
    json: &Json<'_>,
) -> Result<Value, ItemFault>
    ensures { (ks : SpecKeys) (of : ℕ → SpecJson → Read Item) (label : Item)
        → IsTableAt way.now (tested M.typed) ks of → naming_of named ≡ named_by ks label
        → Reads item_of (value_item of (named_by ks label) (value_view json.now)) result }
{
    match named {
        Some(Named::Row(number)) => {
            let inner = longer(alloc, way, number)?;
            item::<M>(alloc, &inner, json)
        }
        Some(Named::Unknown) => item_from_json(alloc, StringForm::Text, json),
        None => item_from_json(alloc, StringForm::Text, json),
    }
}

#[cycle(items)]
fn member<M: FromCbor>(
    alloc: Global,
    way: &[u8],
    keys: &Keys,
    name: &str,
    json: &Json<'_>,
) -> Result<(Value, Value), ItemFault>
    ensures { (of : ℕ → SpecJson → Read Item) → IsTableAt way.now (tested M.typed) (keys_of keys.now) of
        → Reads pair_of (member_item (keys_of keys.now) of (name.now, value_view json.now)) result }
{
    let key = key(alloc, keys, name)?;
    let value = value::<M>(alloc, way, named(keys, &key), json)?;
    Ok((key, value))
}

#[cycle(items)]
fn members<M: FromCbor>(
    alloc: Global,
    way: &[u8],
    keys: &Keys,
    all: &[(&str, Json<'_>)],
) -> Result<Vec<(Value, Value)>, ItemFault>
    ensures { (of : ℕ → SpecJson → Read Item) → IsTableAt way.now (tested M.typed) (keys_of keys.now) of
        → Reads (λ v. map pair_of v.items)
        (read_each (λ _. member_item (keys_of keys.now) of) [] 0 (map named_in all.now)) result }
{
    let mut found = Vec::new(alloc);
    for (index, (name, json)) in all.iter().enumerate() {
        match member::<M>(alloc, way, keys, name, json) {
            Ok(member) => found.push(member)?,
            Err(fault) => return Err(fault.under(index)),
        }
    }
    Ok(found)
}

/// Returns the map or the record with these keys.
#[cycle(items)]
fn table<M: FromCbor>(
    alloc: Global,
    way: &[u8],
    keys: &Keys,
    json: &Json<'_>,
) -> Result<Value, ItemFault>
    ensures { (t : Tested) → reached way.now (tested M.typed) ≡ Some t → HasKeys t.shape keys.now
        → Reads item_of (json_item t.shape (value_view json.now)) result }
{
    match json {
        Json::Object(all) => {
            if is_escape(all) {
                return item_from_json(alloc, StringForm::Text, json);
            }
            map_of(members::<M>(alloc, way, keys, all))
        }
        _ => item_from_json(alloc, StringForm::Text, json),
    }
}

#[cycle(items)]
fn item<M: FromCbor>(alloc: Global, way: &[u8], json: &Json<'_>) -> Result<Value, ItemFault>
    ensures { (t : Tested) → reached way.now (tested M.typed) ≡ Some t
        → Reads item_of (json_item t.shape (value_view json.now)) result }
{
    match M::look(alloc, way, &Value::Null)?.form {
        Form::Leaf(wanted) => wanted_item(alloc, wanted, json),
        Form::List => list::<M>(alloc, way, json),
        Form::Map => table::<M>(alloc, way, &Keys::ByteStrings, json),
        Form::Record(is_numbered, rows) => {
            table::<M>(alloc, way, &Keys::Rows(is_numbered, rows), json)
        }
    }
}

/// Returns the data item that the JSON value is, by the tables of the type: members by their names, which
/// stand for their numbers where they have some; byte strings in base64url where bytes are wanted, AAGUIDs
/// as UUIDs, and algorithms by their names or numbers; and all else as
/// `passkey_cbor_text::values::item_from_json` has it, escapes too. Whether the type accepts the item isn't
/// said. The errors are those of that call, with where in the JSON it is.
pub fn typed_item_from_json<M: FromCbor>(alloc: Global, json: &Json<'_>) -> Result<Value, ItemFault>
    ensures { Reads item_of (json_item M.typed.shape (value_view json.now)) result }
{
    item::<M>(alloc, &[], json)
}
