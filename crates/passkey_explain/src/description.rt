//! Data items, described by the tables of a message.
ghost use Rattle.std.specs.Prelude.{◌≡◌, ℕ, true, map, take, IfOk, Some};
ghost use Rattle.passkey_kinds.specs.Look.{tested, HasForm};
ghost use Rattle.passkey_kinds.specs.Record.{names};
ghost use Rattle.passkey_kinds.specs.Shape.{Rows, Tested, reached};
ghost use Rattle.passkey_kinds.specs.RecordReading.{shape_of};
ghost use Rattle.passkey_kinds.specs.Words.{Item, item_of, pair_of, entry_of};
ghost use Rattle.passkey_kinds.specs.declared.look.Form.TheVariants as form;
ghost use Rattle.passkey_kinds.specs.declared.wanted.Wanted.TheVariants as wanted;
ghost use Rattle.passkey_explain.specs.Described as spec;
ghost use Rattle.passkey_explain.specs.Described.{described, described_row, describe_member, described_of, labelled, label_of};
ghost use Rattle.passkey_explain.specs.Next.{IsRecordAt};

use crate::descent::{Table, further, name_of};
use passkey_cbor::Value;
use passkey_kinds::{Form, FromCbor, Message, Named, OutOfMemory, Wanted, row_of};
use std::alloc::Global;

/// What a member of a map is in a record.
#[derive(Debug, Drop)]
pub enum FieldName {
    /// The member with this number and name.
    Member(u8, &'static str),
    /// None of the record's members: its key.
    Unknown(Value),
}

/// A data item, described by the tables of a message.
#[derive(Debug, Drop)]
pub enum Description {
    /// An item as a whole, and what is wanted of it. If an array or a map is wanted, the item is
    /// none.
    Leaf(Wanted, Value),
    /// The elements of an array.
    List(Vec<Description>),
    /// The keys and values of a map that isn't a record, in their order.
    Map(Vec<(Value, Description)>),
    /// The members of a record, in the order in which they are in the item.
    Record(Vec<(FieldName, Description)>),
}

/// Returns the item as a whole.
fn whole(alloc: Global, wanted: Wanted, value: &Value) -> Result<Description, OutOfMemory>
    ensures { IfOk result (λ d. described_of d ≡ spec.leaf wanted (item_of value.now)) }
{
    Ok(Description::Leaf(wanted, value.try_clone(alloc)?))
}

#[cycle(describe)]
fn describe_elements<M: FromCbor>(
    alloc: Global,
    way: &[u8],
    elements: &[Value],
) -> Result<Vec<Description>, OutOfMemory>
    ensures { (t : Tested) → reached way.now (tested M.typed) ≡ Some t → IfOk result
        (λ v. map described_of v.items ≡ map (described t.shape) (map item_of elements.now)) }
{
    let mut all = Vec::new(alloc);
    for element in elements {
        all.push(describe_at::<M>(alloc, way, element)?)?;
    }
    Ok(all)
}

#[cycle(describe)]
fn describe_list<M: FromCbor>(
    alloc: Global,
    way: &[u8],
    value: &Value,
) -> Result<Description, OutOfMemory>
    ensures { (t : Tested) → reached way.now (tested M.typed) ≡ Some t → HasForm t.shape form.List
        → IfOk result (λ d. described_of d ≡ described t.shape (item_of value.now)) }
{
    match value {
        Value::Array(elements) => {
            let inner = further(alloc, way, 0)?;
            Ok(Description::List(describe_elements::<M>(alloc, &inner, elements)?))
        }
        _ => whole(alloc, Wanted::Array, value),
    }
}

#[cycle(describe)]
fn describe_entries<M: FromCbor>(
    alloc: Global,
    way: &[u8],
    pairs: &[(Value, Value)],
) -> Result<Vec<(Value, Description)>, OutOfMemory>
    ensures { (t : Tested) → reached way.now (tested M.typed) ≡ Some t → IfOk result
        (λ v. map (λ p. labelled (spec.key (item_of p.0)) (described_of p.1)) v.items
        ≡ map (λ m. labelled (spec.key m.0) (described t.shape m.1)) (map pair_of pairs.now)) }
{
    let mut all = Vec::new(alloc);
    for (key, value) in pairs {
        let description = describe_at::<M>(alloc, way, value)?;
        all.push((key.try_clone(alloc)?, description))?;
    }
    Ok(all)
}

#[cycle(describe)]
fn describe_map<M: FromCbor>(
    alloc: Global,
    way: &[u8],
    value: &Value,
) -> Result<Description, OutOfMemory>
    ensures { (t : Tested) → reached way.now (tested M.typed) ≡ Some t → HasForm t.shape form.Map
        → IfOk result (λ d. described_of d ≡ described t.shape (item_of value.now)) }
{
    match value {
        Value::Map(pairs) => {
            let inner = further(alloc, way, 0)?;
            Ok(Description::Map(describe_entries::<M>(alloc, &inner, pairs)?))
        }
        _ => whole(alloc, Wanted::Map, value),
    }
}

/// Returns a member that the record's table hasn't.
fn unknown(
    alloc: Global,
    key: &Value,
    value: &Value,
) -> Result<(FieldName, Description), OutOfMemory>
    ensures { IfOk result (λ p. labelled (label_of p.0) (described_of p.1)
        ≡ labelled (spec.unknown (item_of key.now)) (spec.leaf wanted.Any (item_of value.now))) }
{
    let description = whole(alloc, Wanted::Any, value)?;
    Ok((FieldName::Unknown(key.try_clone(alloc)?), description))
}

#[cycle(describe)]
fn describe_field<M: FromCbor>(
    alloc: Global,
    way: &[u8],
    table: &Table,
    value: &Value,
    key: &Value,
) -> Result<(FieldName, Description), OutOfMemory>
    ensures { (rows : Rows) → IsRecordAt way.now (tested M.typed) rows table.now.is_numbered
        (map entry_of table.now.rows.now) → IfOk result (λ p. labelled (label_of p.0) (described_of p.1)
        ≡ describe_member (map entry_of table.now.rows.now) (described_row rows)
        (names table.now.is_numbered (map entry_of table.now.rows.now) (item_of key.now)) (item_of key.now)
        (item_of value.now)) }
{
    match row_of(table.is_numbered, table.rows, key) {
        Some(Named::Row(number)) => {
            let inner = further(alloc, way, number)?;
            let description = describe_at::<M>(alloc, &inner, value)?;
            let name = FieldName::Member(number, name_of(table.rows, number));
            Ok((name, description))
        }
        Some(Named::Unknown) => unknown(alloc, key, value),
        None => unknown(alloc, key, value),
    }
}

#[cycle(describe)]
fn describe_fields<M: FromCbor>(
    alloc: Global,
    way: &[u8],
    table: &Table,
    pairs: &[(Value, Value)],
) -> Result<Vec<(FieldName, Description)>, OutOfMemory>
    ensures { (rows : Rows) → IsRecordAt way.now (tested M.typed) rows table.now.is_numbered
        (map entry_of table.now.rows.now) → IfOk result
        (λ v. map (λ p. labelled (label_of p.0) (described_of p.1)) v.items
        ≡ map (λ m. describe_member (map entry_of table.now.rows.now) (described_row rows)
        (names table.now.is_numbered (map entry_of table.now.rows.now) m.0) m.0 m.1) (map pair_of pairs.now)) }
{
    let mut all = Vec::new(alloc);
    for (key, value) in pairs {
        all.push(describe_field::<M>(alloc, way, table, value, key)?)?;
    }
    Ok(all)
}

#[cycle(describe)]
fn describe_record<M: FromCbor>(
    alloc: Global,
    way: &[u8],
    table: &Table,
    value: &Value,
) -> Result<Description, OutOfMemory>
    ensures { (t : Tested) → reached way.now (tested M.typed) ≡ Some t
        → HasForm t.shape (form.Record table.now.is_numbered table.now.rows)
        → IfOk result (λ d. described_of d ≡ described t.shape (item_of value.now)) }
{
    match value {
        Value::Map(pairs) => Ok(Description::Record(describe_fields::<M>(
            alloc, way, table, pairs,
        )?)),
        _ => whole(alloc, Wanted::Map, value),
    }
}

/// Describes the item by the type to which the way leads.
#[cycle(describe)]
fn describe_at<M: FromCbor>(
    alloc: Global,
    way: &[u8],
    value: &Value,
) -> Result<Description, OutOfMemory>
    ensures { (t : Tested) → reached way.now (tested M.typed) ≡ Some t
        → IfOk result (λ d. described_of d ≡ described t.shape (item_of value.now)) }
{
    match M::look(alloc, way, value)?.form {
        Form::Leaf(wanted) => whole(alloc, wanted, value),
        Form::List => describe_list::<M>(alloc, way, value),
        Form::Map => describe_map::<M>(alloc, way, value),
        Form::Record(is_numbered, rows) => {
            describe_record::<M>(alloc, way, &Table { is_numbered, rows }, value)
        }
    }
}

/// Describes the data item by the tables of a message: its members by their numbers and names, and
/// so the records in it. An item that the message refuses is described too: where an array, a map or
/// a record is wanted and the item is none, it is described as a whole. Returns `OutOfMemory` if an
/// allocation fails.
pub fn describe<M: Message>(alloc: Global, value: &Value) -> Result<Description, OutOfMemory>
    ensures { IfOk result (λ d. described_of d ≡ described (shape_of M.Record.fields) (item_of value.now)) }
{
    describe_at::<M>(alloc, &[], value)
}
