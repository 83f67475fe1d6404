//! A report: one member a line.

use crate::leaf::leaf_text;
use passkey_cbor::Value;
use passkey_cbor_text::diagnose::diagnose;
use passkey_explain::{Description, DroppedItem, FieldName};
use passkey_kinds::Wanted;
use passkey_memory::OutOfMemory;
use std::alloc::Global;

/// Returns what begins a line inside another: two more spaces.
#[inline(never)]
fn deeper(alloc: Global, margin: &str) -> Result<String, OutOfMemory> {
    let mut inner = String::from_str(alloc, margin)?;
    inner.push_str("  ")?;
    Ok(inner)
}

// What nests is appended by functions with small frames: what they append beside it isn't inlined.

/// Appends a line's beginning: the margin, and a name.
#[inline(never)]
fn push_name(out: &mut String, margin: &str, name: &str) -> Result<(), OutOfMemory> {
    out.push_str(margin)?;
    out.push_str(name)?;
    Ok(out.push(':')?)
}

#[inline(never)]
fn push_index(
    out: &mut String,
    alloc: Global,
    index: usize,
    margin: &str,
) -> Result<(), OutOfMemory> {
    push_name(out, margin, format!(in alloc; "[{index}]")?.as_str())
}

#[inline(never)]
fn push_key(out: &mut String, alloc: Global, key: &Value, margin: &str) -> Result<(), OutOfMemory> {
    push_name(out, margin, diagnose(alloc, key)?.as_str())
}

#[inline(never)]
fn push_field_name(
    out: &mut String,
    alloc: Global,
    name: &FieldName,
    margin: &str,
) -> Result<(), OutOfMemory> {
    match name {
        FieldName::Member(_, name) => push_name(out, margin, name),
        FieldName::Unknown(key) => push_key(out, alloc, key, margin),
    }
}

#[cycle(report)]
fn push_elements(
    out: &mut String,
    alloc: Global,
    items: &[Description],
    margin: &str,
) -> Result<(), OutOfMemory> {
    for (index, item) in items.iter().enumerate() {
        push_index(out, alloc, index, margin)?;
        push_value(out, alloc, item, margin)?;
    }
    Ok(())
}

/// Returns whether no element of the list is divided.
fn is_line(items: &[Description]) -> bool {
    items
        .iter()
        .all(|item| matches!(item, Description::Leaf(_, _)))
}

/// Appends elements that aren't divided, in a line.
#[inline(never)]
fn push_line(out: &mut String, alloc: Global, items: &[Description]) -> Result<(), OutOfMemory> {
    for (index, item) in items.iter().enumerate() {
        out.push_str(if index == 0 { " " } else { ", " })?;
        if let Description::Leaf(wanted, value) = item {
            out.push_str(leaf_text(alloc, *wanted, value)?.as_str())?;
        }
    }
    Ok(out.push('\n')?)
}

/// Appends an item that isn't divided, in a line.
#[inline(never)]
fn push_leaf(
    out: &mut String,
    alloc: Global,
    wanted: Wanted,
    value: &Value,
) -> Result<(), OutOfMemory> {
    out.push(' ')?;
    out.push_str(leaf_text(alloc, wanted, value)?.as_str())?;
    Ok(out.push('\n')?)
}

fn is_empty(description: &Description) -> bool {
    match description {
        Description::Leaf(_, _) => false,
        Description::List(items) => items.is_empty(),
        Description::Map(pairs) => pairs.is_empty(),
        Description::Record(fields) => fields.is_empty(),
    }
}

/// Appends what is after a name: in the same line, or in lines of its own that begin with a deeper
/// margin.
#[cycle(report)]
fn push_value(
    out: &mut String,
    alloc: Global,
    description: &Description,
    margin: &str,
) -> Result<(), OutOfMemory> {
    if is_empty(description) {
        return Ok(out.push_str(" none\n")?);
    }
    let inner = deeper(alloc, margin)?;
    match description {
        Description::Leaf(wanted, value) => push_leaf(out, alloc, *wanted, value),
        Description::List(items) if is_line(items) => push_line(out, alloc, items),
        Description::List(items) => {
            out.push('\n')?;
            push_elements(out, alloc, items, inner.as_str())
        }
        Description::Map(pairs) => {
            out.push('\n')?;
            for (key, description) in pairs {
                push_key(out, alloc, key, inner.as_str())?;
                push_value(out, alloc, description, inner.as_str())?;
            }
            Ok(())
        }
        Description::Record(fields) => {
            out.push('\n')?;
            for (name, description) in fields {
                push_field_name(out, alloc, name, inner.as_str())?;
                push_value(out, alloc, description, inner.as_str())?;
            }
            Ok(())
        }
    }
}

/// Returns a report of a description, whose first line begins with this title: one member a line,
/// those inside another two spaces deeper, and in a line a list of what isn't divided. Texts
/// of the input are in diagnostic notation, but for one where a name of the standard is wanted: it
/// stands as it is if it has only letters, digits, hyphens and underscores of ASCII. Returns
/// `OutOfMemory` if an allocation fails.
pub fn report_of(
    alloc: Global,
    title: &str,
    description: &Description,
) -> Result<String, OutOfMemory> {
    let mut out = String::new(alloc);
    push_name(&mut out, "", title)?;
    push_value(&mut out, alloc, description, "")?;
    Ok(out)
}

/// Returns a line for each item that a message leaves out: where it is, and what is wanted there.
/// Returns `OutOfMemory` if an allocation fails.
pub fn left_out_text(alloc: Global, items: &[DroppedItem]) -> Result<String, OutOfMemory> {
    let mut out = String::new(alloc);
    for item in items {
        out.push_str(format!(in alloc; "left out: {item}\n")?.as_str())?;
    }
    Ok(out)
}
