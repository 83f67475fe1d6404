//! Messages as JSON texts, from which they are read back by their tables.
ghost use Rattle.std.specs.Prelude.{◌≤◌, IfOk, string_bytes};
ghost use Rattle.passkey_cbor.specs.Depth.{depth};
ghost use Rattle.passkey_cbor.specs.LeadingItem.{max_depth};
ghost use Rattle.passkey_cbor.specs.View.{item_of};
ghost use Rattle.passkey_cbor_text.specs.values.Exact.{IsJsonOf};
ghost use Rattle.passkey_kinds.specs.RecordReading.{shape_of};
ghost use Rattle.passkey_render.specs.Typed.{json_item, type_reads_escapes};

use crate::data_text::friendly_data;
use crate::typed::{string_form, typed_item_from_json};
use json::Value as Json;
use passkey_bytes::encoding::base64url;
use passkey_cbor::Value;
use passkey_cbor_text::diagnose::quote;
use passkey_cbor_text::values::{ItemFault, Reading, exact_json, friendly_json, key_name};
use passkey_explain::{Description, FieldName, describe};
use passkey_kinds::{Message, Wanted};
use passkey_memory::OutOfMemory;
use std::alloc::Global;
use std::marker::PhantomData;

/// Returns the name of a member of a map whose keys are byte strings.
fn bytes_name(alloc: Global, key: &Value) -> Result<String, OutOfMemory> {
    match key {
        Value::Bytes(bytes) => base64url(alloc, bytes),
        _ => key_name(alloc, key),
    }
}

fn field_name(alloc: Global, name: &FieldName) -> Result<String, OutOfMemory> {
    match name {
        FieldName::Member(_, name) => Ok(String::from_str(alloc, name)?),
        FieldName::Unknown(key) => key_name(alloc, key),
    }
}

/// Appends a comma, unless the member is the first, its name and a colon.
pub(crate) fn push_name(
    out: &mut String,
    alloc: Global,
    index: usize,
    name: &str,
) -> Result<(), OutOfMemory> {
    if index > 0 {
        out.push(',')?;
    }
    out.push_str(quote(alloc, name)?.as_str())?;
    Ok(out.push(':')?)
}

fn leaf_text(alloc: Global, wanted: Wanted, value: &Value) -> Result<String, OutOfMemory> {
    match wanted {
        Wanted::AuthenticatorData => friendly_data(alloc, value),
        _ => friendly_json(alloc, string_form(wanted), value),
    }
}

#[cycle(text)]
fn push_elements(
    out: &mut String,
    alloc: Global,
    elements: &[Description],
) -> Result<(), OutOfMemory> {
    out.push('[')?;
    for (index, element) in elements.iter().enumerate() {
        if index > 0 {
            out.push(',')?;
        }
        push(out, alloc, element)?;
    }
    Ok(out.push(']')?)
}

#[cycle(text)]
fn push_fields(
    out: &mut String,
    alloc: Global,
    fields: &[(FieldName, Description)],
) -> Result<(), OutOfMemory> {
    out.push('{')?;
    for (index, (name, description)) in fields.iter().enumerate() {
        push_name(out, alloc, index, field_name(alloc, name)?.as_str())?;
        push(out, alloc, description)?;
    }
    Ok(out.push('}')?)
}

#[cycle(text)]
fn push(out: &mut String, alloc: Global, description: &Description) -> Result<(), OutOfMemory> {
    match description {
        Description::Leaf(wanted, value) => {
            Ok(out.push_str(leaf_text(alloc, *wanted, value)?.as_str())?)
        }
        Description::List(elements) => push_elements(out, alloc, elements),
        Description::Map(entries) => {
            out.push('{')?;
            for (index, (key, description)) in entries.iter().enumerate() {
                push_name(out, alloc, index, bytes_name(alloc, key)?.as_str())?;
                push(out, alloc, description)?;
            }
            Ok(out.push('}')?)
        }
        Description::Record(fields) => push_fields(out, alloc, fields),
    }
}

/// Returns the message in a data item as JSON that people read.
fn friendly_message<M: Message>(alloc: Global, value: &Value) -> Result<String, OutOfMemory> {
    let description = describe::<M>(alloc, value)?;
    let mut out = String::new(alloc);
    let pushed = push(&mut out, alloc, &description);
    drop(description);
    pushed?;
    Ok(out)
}

/// The reading of a message by its tables, as `typed_item_from_json`.
#[derive(Drop)]
pub struct MessageReading<M> {
    message: PhantomData<M>,
}

impl<M> MessageReading<M> {
    /// Returns the reading of the message.
    pub fn new() -> MessageReading<M> {
        MessageReading {
            message: PhantomData,
        }
    }
}

impl<M: Message> Reading for MessageReading<M> {
    ghost means = { λ _. json_item (shape_of M.Record.fields) };

    ghost reads_escapes = { λ _. type_reads_escapes (shape_of M.Record.fields) };

    fn read(&self, alloc: Global, json: &Json<'_>) -> Result<Value, ItemFault> {
        typed_item_from_json::<M>(alloc, json)
    }
}

/// Returns the data item as a JSON text that `typed_item_from_json` makes the same item of, by the tables of
/// a message: members by their names, and what would be lost in escapes. Unknown members are kept, and so
/// are items that the message refuses. Returns `OutOfMemory` if an allocation fails.
pub fn json_from_message_item<M: Message>(
    alloc: Global,
    value: &Value,
) -> Result<String, OutOfMemory>
    requires { depth (item_of value.now) ≤ max_depth }
    ensures { IfOk result
        (λ text. IsJsonOf (json_item (shape_of M.Record.fields)) (item_of value.now) (string_bytes text)) }
{
    let reading = MessageReading::<M>::new();
    let text = friendly_message::<M>(alloc, value)?;
    exact_json(alloc, &reading, text, value)
}
