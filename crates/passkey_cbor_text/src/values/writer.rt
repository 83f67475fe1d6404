//! Data items as JSON values that people read, by which `json_from_item` begins.

use crate::diagnose::quote;
use crate::values::StringForm;
use crate::values::names::key_name;
use crate::values::order::are_in_order;
use crate::values::registries::{
    algorithm_name, algorithm_named, curve_name, curve_named, key_type_name, key_type_named,
};
use passkey_bytes::encoding::base64url;
use passkey_cbor::{Integer, Value};
use passkey_memory::OutOfMemory;
use std::alloc::Global;
use uuid::Uuid;

/// How deep arrays and objects nest before an item is written by its encoding. The reader takes 128.
const LEVELS: usize = 60;

/// Appends an object with one member.
fn push_escape(out: &mut String, name: &str, content: &str) -> Result<(), OutOfMemory> {
    out.push_str("{\"")?;
    out.push_str(name)?;
    out.push_str("\":")?;
    out.push_str(content)?;
    Ok(out.push('}')?)
}

/// Appends a text as a JSON string.
fn push_quoted(out: &mut String, alloc: Global, text: &str) -> Result<(), OutOfMemory> {
    Ok(out.push_str(quote(alloc, text)?.as_str())?)
}

fn push_integer(
    out: &mut String,
    alloc: Global,
    form: StringForm,
    number: Integer,
) -> Result<(), OutOfMemory> {
    let name = match form {
        StringForm::Algorithm => algorithm_name(number),
        StringForm::KeyType => key_type_name(number),
        StringForm::Curve => curve_name(number),
        StringForm::Text | StringForm::Bytes | StringForm::Aaguid => None,
    };
    if let Some(name) = name {
        return push_quoted(out, alloc, name);
    }
    let number = number.get();
    Ok(out.push_str(format!(in alloc; "{number}")?.as_str())?)
}

fn push_bytes(
    out: &mut String,
    alloc: Global,
    form: StringForm,
    bytes: &[u8],
) -> Result<(), OutOfMemory> {
    if form == StringForm::Aaguid {
        if let Ok(uuid) = Uuid::from_slice(bytes) {
            let mut buffer = Uuid::encode_buffer();
            return push_quoted(out, alloc, uuid.hyphenated().encode_lower(&mut buffer));
        }
    }
    let text = base64url(alloc, bytes)?;
    let text = quote(alloc, text.as_str())?;
    match form {
        StringForm::Bytes | StringForm::Aaguid => Ok(out.push_str(text.as_str())?),
        _ => push_escape(out, "$bytes", text.as_str()),
    }
}

fn push_text(
    out: &mut String,
    alloc: Global,
    form: StringForm,
    text: &str,
) -> Result<(), OutOfMemory> {
    let is_plain = match form {
        StringForm::Text => true,
        StringForm::Algorithm => algorithm_named(text).is_none(),
        StringForm::KeyType => key_type_named(text).is_none(),
        StringForm::Curve => curve_named(text).is_none(),
        StringForm::Bytes | StringForm::Aaguid => false,
    };
    let quoted = quote(alloc, text)?;
    if is_plain {
        Ok(out.push_str(quoted.as_str())?)
    } else {
        push_escape(out, "$text", quoted.as_str())
    }
}

/// Appends the item's encoding, as an escape.
fn push_encoding(out: &mut String, alloc: Global, value: &Value) -> Result<(), OutOfMemory> {
    let encoding = value.to_vec(alloc)?;
    let digits = hex::encode(alloc, encoding.as_slice())?;
    let text = quote(alloc, digits.as_str())?;
    push_escape(out, "$cbor", text.as_str())
}

fn push_comma(out: &mut String, index: usize) -> Result<(), OutOfMemory> {
    if index == 0 {
        Ok(())
    } else {
        Ok(out.push(',')?)
    }
}

#[cycle(write)]
fn push_elements(
    out: &mut String,
    alloc: Global,
    levels: usize,
    elements: &[Value],
) -> Result<(), OutOfMemory> {
    out.push('[')?;
    for (index, element) in elements.iter().enumerate() {
        push_comma(out, index)?;
        push(out, alloc, levels, StringForm::Text, element)?;
    }
    Ok(out.push(']')?)
}

#[cycle(write)]
fn push_members(
    out: &mut String,
    alloc: Global,
    levels: usize,
    pairs: &[(Value, Value)],
) -> Result<(), OutOfMemory> {
    out.push('{')?;
    for (index, (key, value)) in pairs.iter().enumerate() {
        push_comma(out, index)?;
        push_quoted(out, alloc, key_name(alloc, key)?.as_str())?;
        out.push(':')?;
        push(out, alloc, levels, StringForm::Text, value)?;
    }
    Ok(out.push('}')?)
}

/// Appends the members as they are, as an escape.
#[cycle(write)]
fn push_pairs(
    out: &mut String,
    alloc: Global,
    levels: usize,
    pairs: &[(Value, Value)],
) -> Result<(), OutOfMemory> {
    out.push_str("{\"$map\":[")?;
    for (index, (key, value)) in pairs.iter().enumerate() {
        push_comma(out, index)?;
        out.push('[')?;
        push(out, alloc, levels, StringForm::Text, key)?;
        out.push(',')?;
        push(out, alloc, levels, StringForm::Text, value)?;
        out.push(']')?;
    }
    Ok(out.push_str("]}")?)
}

#[cycle(write)]
fn push_map(
    out: &mut String,
    alloc: Global,
    levels: usize,
    pairs: &[(Value, Value)],
) -> Result<(), OutOfMemory> {
    if are_in_order(alloc, pairs)? {
        push_members(out, alloc, levels, pairs)
    } else {
        push_pairs(out, alloc, levels, pairs)
    }
}

#[cycle(write)]
fn push(
    out: &mut String,
    alloc: Global,
    levels: usize,
    form: StringForm,
    value: &Value,
) -> Result<(), OutOfMemory> {
    match value {
        Value::Integer(number) => push_integer(out, alloc, form, *number),
        Value::Bytes(bytes) => push_bytes(out, alloc, form, bytes),
        Value::Text(text) => push_text(out, alloc, form, text.as_str()),
        Value::Bool(true) => Ok(out.push_str("true")?),
        Value::Bool(false) => Ok(out.push_str("false")?),
        Value::Null => Ok(out.push_str("null")?),
        Value::Array(elements) if levels > 0 => push_elements(out, alloc, levels - 1, elements),
        Value::Map(pairs) if levels > 0 => push_map(out, alloc, levels - 1, pairs),
        _ => push_encoding(out, alloc, value),
    }
}

/// Returns the data item as JSON that people read, where a string is of this form. It is what
/// `json_from_item` writes if the same item is made of it. Returns `OutOfMemory` if an allocation fails.
pub fn friendly_json(
    alloc: Global,
    form: StringForm,
    value: &Value,
) -> Result<String, OutOfMemory> {
    let mut out = String::new(alloc);
    push(&mut out, alloc, LEVELS, form, value)?;
    Ok(out)
}
