//! Data items in diagnostic notation.
ghost use Rattle.std.specs.Prelude.{◌≡◌, ◌++◌, ◌∷◌, [], OnOk, IfOk, codes, decimal, encode_utf8, string_bytes};
ghost use Rattle.std.specs.Fmt.{signed_decimal};
ghost use Rattle.passkey_cbor.specs.Item.{array, map, tagged};
ghost use Rattle.passkey_cbor.specs.View.{item_of, items_view, pairs_view};
ghost use Rattle.passkey_cbor_text.specs.diagnose.Diagnosis.{closing, deeper, diagnosis, separator};

use crate::diagnose::float::push_float;
use crate::diagnose::text::{push_bytes, push_text};
use passkey_cbor::Value;
use passkey_memory::OutOfMemory;
use std::alloc::{AllocError, Global};

/// Returns what begins a line inside an array or a map: the margin of the line around it and two
/// spaces, or nothing if the text is one line.
pub(crate) fn deeper(alloc: Global, margin: &str) -> Result<String, AllocError>
    ensures { IfOk result (λ inner. string_bytes inner ≡ deeper margin.now) }
{
    let mut inner = String::from_str(alloc, margin)?;
    if !margin.is_empty() {
        inner.push_str("  ")?;
    }
    Ok(inner)
}

/// Appends what stands before an element or a member whose line begins with this margin.
pub(crate) fn push_separator(
    out: &mut String,
    is_first: bool,
    margin: &str,
) -> Result<(), AllocError>
    ensures { OnOk result (string_bytes out.new ≡ string_bytes out.old ++ separator is_first margin.now) }
{
    if is_first {
        out.push_str(margin)
    } else {
        out.push(',')?;
        out.push_str(if margin.is_empty() { " " } else { margin })
    }
}

/// Ends an array or a map, which is a line of its own after elements or members.
pub(crate) fn close(
    out: &mut String,
    is_empty: bool,
    margin: &str,
    bracket: char,
) -> Result<(), AllocError>
    ensures { OnOk result (string_bytes out.new
        ≡ string_bytes out.old ++ (closing is_empty margin.now ++ encode_utf8 bracket)) }
{
    if !is_empty {
        out.push_str(margin)?;
    }
    out.push(bracket)
}

#[cycle(diagnosis)]
fn push_array(
    out: &mut String,
    alloc: Global,
    items: &[Value],
    margin: &str,
) -> Result<(), AllocError>
    ensures { OnOk result (string_bytes out.new
        ≡ string_bytes out.old ++ diagnosis (array (items_view items.now)) margin.now) }
{
    let deeper = deeper(alloc, margin)?;
    let inner = deeper.as_str();
    let mut is_first = true;
    out.push('[')?;
    for item in items {
        push_separator(out, is_first, inner)?;
        push_value(out, alloc, item, inner)?;
        is_first = false;
    }
    close(out, items.is_empty(), margin, ']')
}

#[cycle(diagnosis)]
fn push_map(
    out: &mut String,
    alloc: Global,
    pairs: &[(Value, Value)],
    margin: &str,
) -> Result<(), AllocError>
    ensures { OnOk result (string_bytes out.new
        ≡ string_bytes out.old ++ diagnosis (map (pairs_view pairs.now)) margin.now) }
{
    let deeper = deeper(alloc, margin)?;
    let inner = deeper.as_str();
    let mut is_first = true;
    out.push('{')?;
    for (key, value) in pairs {
        push_separator(out, is_first, inner)?;
        push_value(out, alloc, key, inner)?;
        out.push_str(": ")?;
        push_value(out, alloc, value, inner)?;
        is_first = false;
    }
    close(out, pairs.is_empty(), margin, '}')
}

#[cycle(diagnosis)]
fn push_tag(
    out: &mut String,
    alloc: Global,
    tag: u64,
    value: &Value,
    margin: &str,
) -> Result<(), AllocError>
    ensures { OnOk result (string_bytes out.new
        ≡ string_bytes out.old ++ diagnosis (tagged tag (item_of value.now)) margin.now) }
{
    push_number(out, i128::from(tag))?;
    out.push('(')?;
    push_value(out, alloc, value, margin)?;
    out.push(')')
}

pub(crate) fn push_number(out: &mut String, n: i128) -> Result<(), AllocError>
    ensures { OnOk result (string_bytes out.new ≡ string_bytes out.old ++ signed_decimal n) }
{
    write!(out, "{n}")
}

pub(crate) fn push_simple(out: &mut String, n: u8) -> Result<(), AllocError>
    ensures { OnOk result (string_bytes out.new ≡ string_bytes out.old ++ (codes "simple(" ++ decimal n ++ 41 ∷ [])) }
{
    out.push_str("simple(")?;
    push_number(out, i128::from(n))?;
    out.push(')')
}

/// Appends the data item, with this at the beginning of each later line, or nothing if the text
/// is one line.
#[cycle(diagnosis)]
fn push_value(
    out: &mut String,
    alloc: Global,
    value: &Value,
    margin: &str,
) -> Result<(), AllocError>
    ensures { OnOk result (string_bytes out.new
        ≡ string_bytes out.old ++ diagnosis (item_of value.now) margin.now) }
{
    match value {
        Value::Integer(n) => push_number(out, n.get()),
        Value::Bytes(bytes) => push_bytes(out, alloc, bytes),
        Value::Float(f) => push_float(out, *f),
        Value::Text(text) => push_text(out, alloc, text.as_str()),
        Value::Bool(false) => out.push_str("false"),
        Value::Bool(true) => out.push_str("true"),
        Value::Null => out.push_str("null"),
        Value::Simple(s) => push_simple(out, s.get()),
        Value::Tag(tag, inner) => push_tag(out, alloc, *tag, inner, margin),
        Value::Array(items) => push_array(out, alloc, items, margin),
        Value::Map(pairs) => push_map(out, alloc, pairs, margin),
    }
}

fn text_with_margin(alloc: Global, value: &Value, margin: &str) -> Result<String, OutOfMemory>
    ensures { IfOk result (λ text. string_bytes text ≡ diagnosis (item_of value.now) margin.now) }
{
    let mut text = String::new(alloc);
    push_value(&mut text, alloc, value, margin)?;
    Ok(text)
}

/// Returns the data item in diagnostic notation (RFC 8949, section 8), in one line. Byte strings
/// are in hexadecimal. Text strings are JSON strings in which control characters, and what changes
/// the direction of text, are escaped. Floats have their encoding's width (`_1`, `_2`, `_3`), and
/// their value with all decimal digits, or in hexadecimal with an exponent of two where it isn't
/// below 2^64 or has more than 60 digits after the point. Returns `OutOfMemory` if an allocation
/// fails.
pub fn diagnose(alloc: Global, value: &Value) -> Result<String, OutOfMemory>
    ensures { IfOk result (λ text. string_bytes text ≡ diagnosis (item_of value.now) []) }
{
    text_with_margin(alloc, value, "")
}

/// The same with each element of an array and each member of a map on a line of its own, indented
/// by two spaces for each level.
pub fn diagnose_indented(alloc: Global, value: &Value) -> Result<String, OutOfMemory>
    ensures { IfOk result (λ text. string_bytes text ≡ diagnosis (item_of value.now) (10 ∷ [])) }
{
    text_with_margin(alloc, value, "\n")
}
