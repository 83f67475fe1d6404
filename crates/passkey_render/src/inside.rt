//! What is inside byte strings that are authenticator data, and in COSE keys that a table keeps whole.
ghost use Rattle.std.specs.Prelude.{◌≡◌, IfOk, map, option_map};
ghost use Rattle.passkey_cbor.specs.View.{item_of};
ghost use Rattle.passkey_core.specs.DataViews.{data_parts};
ghost use Rattle.passkey_explain.specs.Described as spec;
ghost use Rattle.passkey_explain.specs.Described.{described, described_of, label_of, labelled};
ghost use Rattle.passkey_explain.specs.DescribedData.{described_item, field_of};
ghost use Rattle.passkey_kinds.specs.RecordReading.{shape_of};
ghost use Rattle.passkey_render.specs.Opened.{as_map, data_in, is_key_name, item_at, key_in, opened, opened_leaf, opened_part};

use passkey_cbor::Value;
use passkey_core::AuthenticatorData;
use passkey_explain::{
    Description, FieldName, describe, describe_data, describe_item, describe_key,
};
use passkey_kinds::{FromCbor, Message, Refusal, Wanted};
use passkey_memory::OutOfMemory;
use std::alloc::Global;

/// Returns the authenticator data that the item is, if they are wanted there.
fn data_in(
    alloc: Global,
    wanted: Wanted,
    value: &Value,
) -> Result<Option<AuthenticatorData>, OutOfMemory>
    ensures { IfOk result (λ d. option_map data_parts d ≡ data_in wanted (item_of value.now)) }
{
    if wanted != Wanted::AuthenticatorData {
        return Ok(None);
    }
    match AuthenticatorData::from_value(alloc, value) {
        Ok(data) => Ok(Some(data)),
        Err(Refusal::Refused) => Ok(None),
        Err(Refusal::OutOfMemory) => Err(OutOfMemory),
    }
}

/// Returns an array or a map by its elements or members, and any other item as a whole.
fn divided(alloc: Global, wanted: Wanted, value: &Value) -> Result<Description, OutOfMemory>
    ensures { IfOk result (λ d. described_of d ≡ described_item wanted (item_of value.now)) }
{
    match value {
        Value::Array(_) => describe_item(alloc, value),
        Value::Map(_) => describe_item(alloc, value),
        _ => Ok(Description::Leaf(wanted, value.try_clone(alloc)?)),
    }
}

fn open_leaf(alloc: Global, wanted: Wanted, value: &Value) -> Result<Description, OutOfMemory>
    ensures { IfOk result (λ d. described_of d ≡ opened_leaf wanted (item_of value.now)) }
{
    match data_in(alloc, wanted, value)? {
        Some(data) => {
            let description = describe_data(alloc, &data);
            drop(data);
            description
        }
        None => divided(alloc, wanted, value),
    }
}

fn copy_name(alloc: Global, name: &FieldName) -> Result<FieldName, OutOfMemory>
    ensures { IfOk result (λ copy. label_of copy ≡ label_of name.now) }
{
    match name {
        FieldName::Member(number, name) => Ok(FieldName::Member(*number, *name)),
        FieldName::Unknown(key) => Ok(FieldName::Unknown(key.try_clone(alloc)?)),
    }
}

/// Returns whether a member of this name is a COSE key, which its table keeps as a whole (CTAP 2.1,
/// sections 6.5.5, 6.8 and 12.5).
fn is_key_name(name: &FieldName) -> bool
    ensures { result ≡ is_key_name (label_of name.now) }
{
    match name {
        FieldName::Member(_, name) => *name == "keyAgreement" || *name == "publicKey",
        FieldName::Unknown(_) => false,
    }
}

fn as_map(value: &Value) -> Option<&Value>
    ensures { item_at result ≡ as_map (item_of value.now) }
{
    match value {
        Value::Map(_) => Some(value),
        _ => None,
    }
}

/// Returns the COSE key that a member is.
fn key_in<'a>(name: &FieldName, description: &'a Description) -> Option<&'a Value>
    ensures { item_at result ≡ key_in (label_of name.now) (described_of description.now) }
{
    if !is_key_name(name) {
        return None;
    }
    match description {
        Description::Leaf(_, value) => as_map(value),
        _ => None,
    }
}

#[cycle(inside)]
fn open_part(
    alloc: Global,
    name: &FieldName,
    description: &Description,
) -> Result<Description, OutOfMemory>
    ensures { IfOk result (λ d. described_of d
        ≡ (opened_part (labelled (label_of name.now) (described_of description.now))).1) }
{
    match key_in(name, description) {
        Some(key) => describe_key(alloc, key),
        None => opened(alloc, description),
    }
}

#[cycle(inside)]
fn open_items(alloc: Global, items: &[Description]) -> Result<Vec<Description>, OutOfMemory>
    ensures { IfOk result (λ v. map described_of v.items ≡ map opened (map described_of items.now)) }
{
    let mut parts = Vec::new(alloc);
    for item in items {
        parts.push(opened(alloc, item)?)?;
    }
    Ok(parts)
}

#[cycle(inside)]
fn open_members(
    alloc: Global,
    fields: &[(FieldName, Description)],
) -> Result<Vec<(FieldName, Description)>, OutOfMemory>
    ensures { IfOk result (λ v. map field_of v.items ≡ map (λ p. opened_part (field_of p)) fields.now) }
{
    let mut parts = Vec::new(alloc);
    for (name, description) in fields {
        let part = open_part(alloc, name, description)?;
        parts.push((copy_name(alloc, name)?, part))?;
    }
    Ok(parts)
}

/// Returns the same description with authenticator data and keys opened, and data items divided that
/// no table divides.
#[cycle(inside)]
fn opened(alloc: Global, description: &Description) -> Result<Description, OutOfMemory>
    ensures { IfOk result (λ d. described_of d ≡ opened (described_of description.now)) }
{
    match description {
        Description::Leaf(wanted, value) => open_leaf(alloc, *wanted, value),
        Description::List(items) => Ok(Description::List(open_items(alloc, items)?)),
        Description::Map(pairs) => {
            let mut parts = Vec::new(alloc);
            for (key, description) in pairs {
                let part = opened(alloc, description)?;
                parts.push((key.try_clone(alloc)?, part))?;
            }
            Ok(Description::Map(parts))
        }
        Description::Record(fields) => Ok(Description::Record(open_members(alloc, fields)?)),
    }
}

/// Describes the data item by the tables of a message, as `describe` does, down to what is inside:
/// authenticator data by their parts, COSE keys by their parameters, and what no table divides, such as
/// attestation statements, by its elements and members. Returns `OutOfMemory` if an allocation fails.
pub fn describe_opened<M: Message>(alloc: Global, value: &Value) -> Result<Description, OutOfMemory>
    ensures { IfOk result (λ d. described_of d ≡ opened (described (shape_of M.fields) (item_of value.now))) }
{
    let description = describe::<M>(alloc, value)?;
    let opened = opened(alloc, &description);
    drop(description);
    opened
}
