//! Data items as JSON texts, from which they are read back.
ghost use Rattle.std.specs.Prelude.{◌≡◌, ◌≤◌, IfOk, IsTrue, Some, string_bytes};
ghost use Rattle.hex.specs.Hex.{encode_lower};
ghost use Rattle.json.specs.Json.{Json as SpecJson, document};
ghost use Rattle.json.specs.Value.{value_view};
ghost use Rattle.passkey_cbor.specs.Bytes.{IsBytes};
ghost use Rattle.passkey_cbor.specs.Depth.{depth};
ghost use Rattle.passkey_cbor.specs.Item.{Item};
ghost use Rattle.passkey_cbor.specs.LeadingItem.{max_depth};
ghost use Rattle.passkey_cbor.specs.View.{item_of};
ghost use Rattle.passkey_cbor_text.specs.values.Exact.{IsEscapeOf, IsJsonOf, ReadsEscapes, escaped, leaf_reads_escapes};
ghost use Rattle.passkey_cbor_text.specs.values.JsonItem.{leaf_item};
ghost use Rattle.passkey_cbor_text.specs.values.NoItem.{Read, Reads};

use crate::values::writer::friendly_json;
use crate::values::{ItemFault, StringForm, item_from_json};
use json::{Error, Scratch, Value as Json};
use passkey_cbor::Value;
use passkey_memory::OutOfMemory;
use std::alloc::Global;

/// Returns the escape with these digits.
fn escape_text(alloc: Global, digits: &str) -> Result<String, OutOfMemory>
    ensures { IfOk result (λ text. document (string_bytes text) ≡ Some (escaped digits.now)) }
{
    let mut members = Vec::new(alloc);
    members.push(("$cbor", Json::String(digits)))?;
    let text = json::to_vec(alloc, &Json::Object(members))?;
    Ok(String::from_utf8(text).unwrap())
}

/// Returns the escape of the item with this encoding.
fn escape_encoding(alloc: Global, encoding: &[u8]) -> Result<String, OutOfMemory>
    ensures fits { IsBytes encoding.now }
    ensures parsed { IfOk result
        (λ text. document (string_bytes text) ≡ Some (escaped (encode_lower encoding.now))) }
{
    let digits = hex::encode(alloc, encoding)?;
    escape_text(alloc, digits.as_str())
}

/// Returns the data item as JSON by its encoding alone, as an escape. Returns `OutOfMemory` if an allocation
/// fails.
pub fn escape_of_item(alloc: Global, value: &Value) -> Result<String, OutOfMemory>
    requires { depth (item_of value.now) ≤ max_depth }
    ensures { IfOk result (λ text. IsEscapeOf (item_of value.now) (string_bytes text)) }
{
    passkey_cbor::laws::leading_item_is_found();
    passkey_cbor::laws::written_is_leading_item();
    let encoding = value.to_vec(alloc)?;
    escape_encoding(alloc, encoding.as_slice())
}

/// A way in which JSON values are read as data items.
pub trait Reading {
    /// The data item that a JSON value is.
    ghost means: { Self → SpecJson → Read Item };

    /// Returns the data item that the JSON value is, or where it is none and why; or `OutOfMemory`.
    fn read(&self, alloc: Global, json: &Json<'_>) -> Result<Value, ItemFault>
        ensures { Reads item_of (means self.now (value_view json.now)) result };

    /// The escape of an item's encoding is read as this item.
    ghost reads_escapes: { (reading : Self) → ReadsEscapes (means reading) };
}

impl Reading for StringForm {
    ghost means = { leaf_item };

    fn read(&self, alloc: Global, json: &Json<'_>) -> Result<Value, ItemFault> {
        item_from_json(alloc, *self, json)
    }

    ghost reads_escapes = { leaf_reads_escapes };
}

/// Whether the text is JSON that is read as the data item. Returns `OutOfMemory` if an allocation fails.
pub fn is_json_of<R: Reading>(
    alloc: Global,
    reading: &R,
    text: &str,
    value: &Value,
) -> Result<bool, OutOfMemory>
    ensures { IfOk result (λ b. IsTrue b → IsJsonOf (R.means reading.now) (item_of value.now) text.now) }
{
    let mut scratch = Scratch::new(alloc);
    let json = match Json::parse(alloc, text, &mut scratch) {
        Ok(json) => json,
        Err(Error::OutOfMemory) => return Err(OutOfMemory),
        Err(_) => return Ok(false),
    };
    match reading.read(alloc, &json) {
        Ok(found) => Ok(found == *value),
        Err(ItemFault::NoItem(_)) => Ok(false),
        Err(ItemFault::OutOfMemory) => Err(OutOfMemory),
    }
}

/// Returns the text, if it is JSON that is read as the data item, and else the item's escape. Returns
/// `OutOfMemory` if an allocation fails.
pub fn exact_json<R: Reading>(
    alloc: Global,
    reading: &R,
    friendly: String,
    value: &Value,
) -> Result<String, OutOfMemory>
    requires { depth (item_of value.now) ≤ max_depth }
    ensures { IfOk result (λ text. IsJsonOf (R.means reading.now) (item_of value.now) (string_bytes text)) }
{
    if is_json_of(alloc, reading, friendly.as_str(), value)? {
        return Ok(friendly);
    }
    escape_of_item(alloc, value)
}

/// Returns the data item as a JSON text that `item_from_json` makes the same item of: byte strings, big
/// numbers, keys that are no text, tags, floats, and the order and the repetition of members are all kept,
/// in escapes where JSON has nothing for them. Returns `OutOfMemory` if an allocation fails.
pub fn json_from_item(alloc: Global, form: StringForm, value: &Value) -> Result<String, OutOfMemory>
    requires { depth (item_of value.now) ≤ max_depth }
    ensures { IfOk result (λ text. IsJsonOf (leaf_item form) (item_of value.now) (string_bytes text)) }
{
    let text = friendly_json(alloc, form, value)?;
    exact_json(alloc, &form, text, value)
}
