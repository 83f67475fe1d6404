//! A description as JSON (RFC 8259).
ghost use Rattle.std.specs.Prelude.{◌≡◌, ◌++◌, ◌∷◌, [], OnOk, IfOk, map, string_bytes};
ghost use Rattle.passkey_cbor.specs.View.{item_of};
ghost use Rattle.passkey_cbor_text.specs.diagnose.Diagnosis.{diagnosis};
ghost use Rattle.passkey_cbor_text.specs.diagnose.Quoted.{quoted};
ghost use Rattle.passkey_explain.specs.Described.{described_of, label_of, labelled, parts_from, element};
ghost use Rattle.passkey_render.specs.Json.{bytes_json, comma_if, json_text, key_json, label_json, leaf_json, number_json, parts_json};

use crate::leaf::{AAGUID, algorithm_name, algorithm_of, uuid_text};
use passkey_bytes::encoding::base64url;
use passkey_cbor::{Integer, Value};
use passkey_cbor_text::diagnose::{diagnose, quote};
use passkey_explain::{Description, FieldName};
use passkey_kinds::Wanted;
use passkey_memory::OutOfMemory;
use std::alloc::Global;

fn bytes_json(alloc: Global, wanted: Wanted, bytes: &[u8]) -> Result<String, OutOfMemory>
    ensures { IfOk result (λ s. string_bytes s ≡ bytes_json wanted bytes.now) }
{
    if wanted == AAGUID && bytes.len() == 16 {
        uuid_text(alloc, bytes)
    } else {
        base64url(alloc, bytes)
    }
}

fn number_json(alloc: Global, wanted: Wanted, number: Integer) -> Result<String, OutOfMemory>
    ensures { IfOk result (λ s. string_bytes s ≡ number_json wanted number) }
{
    if wanted == Wanted::Algorithm {
        if let Some(algorithm) = algorithm_of(number) {
            return quote(alloc, algorithm_name(algorithm));
        }
    }
    diagnose(alloc, &Value::Integer(number))
}

/// Returns a data item in diagnostic notation, as a JSON string.
fn quoted_json(alloc: Global, value: &Value) -> Result<String, OutOfMemory>
    ensures { IfOk result (λ s. string_bytes s ≡ quoted (diagnosis (item_of value.now) [])) }
{
    let text = diagnose(alloc, value)?;
    quote(alloc, text.as_str())
}

// What nests is appended by a function with a small frame: what it appends beside that isn't inlined.
#[inline(never)]
fn leaf_json(alloc: Global, wanted: Wanted, value: &Value) -> Result<String, OutOfMemory>
    ensures { IfOk result (λ s. string_bytes s ≡ leaf_json wanted (item_of value.now)) }
{
    match value {
        Value::Integer(n) => number_json(alloc, wanted, *n),
        Value::Bytes(bytes) => {
            let text = bytes_json(alloc, wanted, bytes)?;
            quote(alloc, text.as_str())
        }
        Value::Text(text) => quote(alloc, text.as_str()),
        Value::Bool(_) => diagnose(alloc, value),
        Value::Null => diagnose(alloc, value),
        Value::Float(_) => quoted_json(alloc, value),
        Value::Simple(_) => quoted_json(alloc, value),
        Value::Tag(_, _) => quoted_json(alloc, value),
        Value::Array(_) => quoted_json(alloc, value),
        Value::Map(_) => quoted_json(alloc, value),
    }
}

/// Returns a text as a JSON string, and a colon.
fn name_json(alloc: Global, name: &str) -> Result<String, OutOfMemory>
    ensures { IfOk result (λ s. string_bytes s ≡ quoted name.now ++ 58 ∷ []) }
{
    let mut text = quote(alloc, name)?;
    text.push(':')?;
    Ok(text)
}

/// Returns a key of a map as a JSON string, and a colon.
#[inline(never)]
fn key_json(alloc: Global, key: &Value) -> Result<String, OutOfMemory>
    ensures { IfOk result (λ s. string_bytes s ≡ key_json (item_of key.now)) }
{
    match key {
        Value::Text(text) => name_json(alloc, text.as_str()),
        _ => {
            let text = diagnose(alloc, key)?;
            name_json(alloc, text.as_str())
        }
    }
}

#[inline(never)]
fn label_json(alloc: Global, name: &FieldName) -> Result<String, OutOfMemory>
    ensures { IfOk result (λ s. string_bytes s ≡ label_json (label_of name.now)) }
{
    match name {
        FieldName::Member(_, name) => name_json(alloc, name),
        FieldName::Unknown(key) => key_json(alloc, key),
    }
}

fn push_comma(out: &mut String, is_first: bool) -> Result<(), OutOfMemory>
    ensures { OnOk result (string_bytes out.new ≡ string_bytes out.old ++ comma_if is_first) }
{
    if is_first { Ok(()) } else { Ok(out.push(',')?) }
}

#[cycle(json)]
fn push_elements(out: &mut String, alloc: Global, items: &[Description]) -> Result<(), OutOfMemory>
    ensures { OnOk result (string_bytes out.new ≡ string_bytes out.old ++ parts_json (parts_from
        (map (λ d. labelled element d) (map described_of items.now))) []) }
{
    let mut is_first = true;
    for item in items {
        push_comma(out, is_first)?;
        push_json(out, alloc, item)?;
        is_first = false;
    }
    Ok(())
}

#[cycle(json)]
fn push_fields(
    out: &mut String,
    alloc: Global,
    fields: &[(FieldName, Description)],
) -> Result<(), OutOfMemory>
    ensures { OnOk result (string_bytes out.new ≡ string_bytes out.old ++ parts_json (parts_from
        (map (λ p. labelled (label_of p.0) (described_of p.1)) fields.now)) []) }
{
    let mut is_first = true;
    for (name, description) in fields {
        push_comma(out, is_first)?;
        out.push_str(label_json(alloc, name)?.as_str())?;
        push_json(out, alloc, description)?;
        is_first = false;
    }
    Ok(())
}

#[cycle(json)]
fn push_json(out: &mut String, alloc: Global, description: &Description) -> Result<(), OutOfMemory>
    ensures { OnOk result (string_bytes out.new ≡ string_bytes out.old ++ json_text (described_of description.now)) }
{
    match description {
        Description::Leaf(wanted, value) => {
            let text = leaf_json(alloc, *wanted, value)?;
            Ok(out.push_str(text.as_str())?)
        }
        Description::List(items) => {
            out.push('[')?;
            push_elements(out, alloc, items)?;
            Ok(out.push(']')?)
        }
        Description::Map(pairs) => {
            out.push('{')?;
            let mut is_first = true;
            for (key, description) in pairs {
                push_comma(out, is_first)?;
                out.push_str(key_json(alloc, key)?.as_str())?;
                push_json(out, alloc, description)?;
                is_first = false;
            }
            Ok(out.push('}')?)
        }
        Description::Record(fields) => {
            out.push('{')?;
            push_fields(out, alloc, fields)?;
            Ok(out.push('}')?)
        }
    }
}

/// Returns a description as compact JSON: members by their names, byte strings in base64url without
/// padding, AAGUIDs as UUIDs, algorithms by their names. Keys that are no text, and floats, tags and
/// simple values, are strings in diagnostic notation. Returns `OutOfMemory` if an allocation fails.
pub fn json_of(alloc: Global, description: &Description) -> Result<String, OutOfMemory>
    ensures { IfOk result (λ text. string_bytes text ≡ json_text (described_of description.now)) }
{
    let mut out = String::new(alloc);
    push_json(&mut out, alloc, description)?;
    Ok(out)
}
