//! Records whose members are one table, by which they are decoded and encoded.
ghost use Rattle.std.specs.Prelude.{◌≡◌, false, IfOk, IfSome, IsTrue, OnOk, map, option_map};
ghost use Rattle.passkey_json.specs.Blame.{Blames, BlamesPart};
ghost use Rattle.passkey_json.specs.Dropped.{Adds, Drops, dropped_present};
ghost use Rattle.passkey_json.specs.Dropped as spec;
ghost use Rattle.passkey_json.specs.Fault.{Gives, IsFaultOf};
ghost use Rattle.passkey_json.specs.Held.{GivesAs, HasAnswered, found, names_of};
ghost use Rattle.passkey_json.specs.Members.{MemberTakes, in_object, record_kind, takes_in};
ghost use Rattle.passkey_json.specs.Shape.{entry_named, entry_of, present_in, row_at};
ghost use Rattle.passkey_json.specs.Table.{AreBack, PlainTable, RowIsBack, encoded_row, entries, looked, members_in, read_row};
ghost use Rattle.passkey_json.specs.Table.{rows_in, rows_of, shape_row, table_json, table_shape, takes_of, takes_row};
ghost use Rattle.passkey_json.specs.Written.{put_rows, so_far};
ghost use Rattle.serde_json.specs.View.{view};
ghost use Rattle.serde_json.specs.Written.{has_float};

use crate::blame::{JsonBlame, JsonReason, JsonStep};
use crate::bytes_form::BytesForm;
use crate::dropped::{DroppedValue, append_part};
use crate::from_json::FromJson;
use crate::json_encoder::{EncodeResult, JsonEncoder};
use crate::json_fault::JsonFault;
use crate::json_record::{JsonRecord, read_nested};
use crate::json_refusal::JsonRefusal;
use crate::member::{Member, Question};
use crate::object::Object;
use crate::record_to_json::RecordToJson;
use crate::row::Row;
use crate::to_json::ToJson;
use crate::wanted::WantedJson;
use crate::written::ObjectWriter;
use passkey_memory::OutOfMemory;
use serde_json::Value;
use std::alloc::Global;

/// A record whose members are one table, by which it is decoded from an object and encoded as one.
/// Unknown members are skipped.
pub trait PlainJsonRecord: Drop {
    /// What the record holds before a member is decoded, and its members in the order in which they
    /// are decoded and encoded.
    ghost table: { PlainTable Self };

    /// Returns the table's rows.
    fn rows() -> &'static [Row]
        ensures { map entry_of result.now ≡ entries table.members };

    /// Returns the record before a member is decoded. Allocates nothing.
    fn blank(alloc: Global) -> Self
        ensures { result ≡ table.blank };

    /// Decodes the member of the row with this number and puts it into the record, or returns its
    /// fault. Returns `OutOfMemory` if an allocation fails, which can only happen if the member is
    /// present and its value takes memory to decode. Puts nothing if no row has the number.
    fn put(&mut self, number: u8, member: &mut Member<'_>) -> Result<(), JsonFault>
        ensures gives { GivesAs (MemberTakes (takes_row table number) (found member.old)) (λ _. self.new)
            (read_row table number (found member.old) self.old) result }

        // What is asked of it is answered by the type that it is decoded as.
        ensures answers { IfSome (shape_row table number) (λ s. HasAnswered s member.old member.new) };

    /// Encodes the member of the row with this number. Returns `None` if it is absent, or if no row
    /// has the number, and `OutOfMemory` if an allocation fails.
    fn encode(&self, number: u8, encoder: JsonEncoder) -> EncodeResult
        ensures written { IfOk result (λ v. option_map view v ≡ encoded_row table number encoder.form self.now) }
        ensures reads_back { OnOk result (RowIsBack table number encoder.form self.now) }
        ensures without_floats { IfOk result (λ v. IfSome v (λ v. has_float (view v) ≡ false)) };
}

impl Row {
    /// Returns the member's number.
    pub fn number(&self) -> u8
        ensures { result ≡ (entry_of self.now).number }
    {
        match self {
            Row::Named(number, _) | Row::Aliased(number, _, _) => *number,
        }
    }

    /// Returns the member's name; if it has two, the one under which it is encoded.
    pub fn name(&self) -> &'static str
        ensures { result.now ≡ (entry_of self.now).name }
    {
        match self {
            Row::Named(_, name) | Row::Aliased(_, name, _) => name,
        }
    }

    /// Finds the member in the object.
    fn find<'a>(&self, object: &Object<'a>) -> Result<Member<'a>, JsonFault>
        ensures { GivesAs ⊥ found (looked (entry_of self.now) (names_of object.now)) result }
    {
        match self {
            Row::Named(_, name) => Ok(object.member(name)),
            Row::Aliased(_, name, other) => object.aliased(name, other),
        }
    }

    /// Returns the member's value, and the name under which it is present.
    fn present<'a>(&self, value: &'a Value) -> Option<(&'static str, &'a Value)>
        ensures { option_map (λ p. (p.0.now, view p.1.now)) result
            ≡ present_in (entry_of self.now) (view value.now) }
    {
        let (name, other) = match *self {
            Row::Named(_, name) => (name, None),
            Row::Aliased(_, name, other) => (name, Some(other)),
        };
        if let Some(member) = value.get(name) {
            return Some((name, member));
        }
        let other = other?;
        Some((other, value.get(other)?))
    }
}

/// Returns the row with this name.
fn row_named(rows: &'static [Row], name: &str) -> Option<Row>
    ensures { option_map entry_of result ≡ entry_named (map entry_of rows.now) name.now }
{
    for row in rows {
        if name == row.name() {
            return Some(*row);
        }
    }
    None
}

/// Decodes the members in the table's order.
fn read_members<R: PlainJsonRecord>(object: &Object<'_>) -> Result<R, JsonFault>
    ensures { Gives (IsTrue (takes_of R.table (names_of object.now))) (members_in R.table (names_of object.now))
        result }
{
    let mut read = R::blank(object.allocator());
    for row in R::rows() {
        let mut member = row.find(object)?;
        read.put(row.number(), &mut member)?;
    }
    Ok(read)
}

/// Encodes the members in the table's order.
fn put_members<R: PlainJsonRecord>(
    value: &R,
    alloc: Global,
    form: BytesForm,
    object: &mut ObjectWriter,
) -> Result<(), OutOfMemory>
    ensures written { OnOk result (so_far object.new
        ≡ put_rows (so_far object.old) (rows_of R.table.members form value.now)) }
    ensures reads_back { OnOk result (AreBack R.table.members form value.now) }
{
    let encoder = JsonEncoder { alloc, form };
    for row in R::rows() {
        let member = value.encode(row.number(), encoder)?;
        object.put_value(alloc, row.name(), member)?;
    }
    Ok(())
}

impl<R: PlainJsonRecord> JsonRecord for R {
    ghost members = { members_in R.table };

    ghost takes = { takes_of R.table };

    fn from_object(object: &Object<'_>) -> Result<R, JsonFault> {
        read_members(object)
    }
}

/// Returns the fault of decoding the record from the JSON value, if it has one. Returns `OutOfMemory`
/// if an allocation fails.
pub fn find_fault<R: JsonRecord>(
    alloc: Global,
    value: &Value,
) -> Result<Option<JsonFault>, OutOfMemory>
    ensures { IfOk result (IsFaultOf (in_object R.members (view value.now))) }
{
    match R::from_json(alloc, value) {
        Ok(_) => Ok(None),
        Err(JsonFault::OutOfMemory) => Err(OutOfMemory),
        Err(fault) => Ok(Some(fault)),
    }
}

/// Returns what is to blame in the value of the member of the row with this number.
fn blame_member<R: PlainJsonRecord>(
    alloc: Global,
    number: u8,
    value: &Value,
) -> Result<JsonBlame, OutOfMemory>
    ensures { IfSome (shape_row R.table number) (λ s. IfOk result (Blames s (view value.now))) }
{
    let mut member = Member::asked(alloc, Question::Blame, value)?;
    let put = R::blank(alloc).put(number, &mut member);
    drop(put);
    member.into_blame()
}

/// Lists what is left out of the value of the member of the row with this number.
fn dropped_member<R: PlainJsonRecord>(
    alloc: Global,
    number: u8,
    value: &Value,
) -> Result<Vec<DroppedValue>, OutOfMemory>
    ensures { IfSome (shape_row R.table number) (λ s. IfOk result (λ v. Drops s (view value.now) v.items)) }
{
    let mut member = Member::asked(alloc, Question::Dropped, value)?;
    let put = R::blank(alloc).put(number, &mut member);
    drop(put);
    member.into_dropped()
}

/// Appends what is left out of the row's member, if it is present.
fn append_row<R: PlainJsonRecord>(
    alloc: Global,
    dropped: &mut Vec<DroppedValue>,
    row: &Row,
    value: &Value,
) -> Result<(), OutOfMemory>
    ensures { IfSome (shape_row R.table (entry_of row.now).number) (λ s. OnOk result (Adds
        (dropped_present (spec.dropped s) (present_in (entry_of row.now) (view value.now)))
        dropped.old.items dropped.new.items)) }
{
    let Some((name, member)) = row.present(value) else {
        return Ok(());
    };
    let part = dropped_member::<R>(alloc, row.number(), member)?;
    append_part(alloc, dropped, &JsonStep::Member(name), part)
}

/// Returns what is to blame in the member with this name.
fn blame_row<R: PlainJsonRecord>(
    alloc: Global,
    name: &str,
    value: &Value,
) -> Result<JsonBlame, OutOfMemory>
    ensures { IfOk result (BlamesPart (row_at (rows_in R.table.members) name.now (view value.now))) }
{
    let object = JsonBlame::wanted(alloc, WantedJson::Object);
    let Some(row) = row_named(R::rows(), name) else {
        return Ok(object);
    };
    match row.present(value) {
        Some((name, member)) => {
            blame_member::<R>(alloc, row.number(), member)?.under(JsonStep::Member(name))
        }
        None => Ok(object),
    }
}

impl<R: PlainJsonRecord> FromJson for R {
    ghost kind = { record_kind (members_in R.table) };

    ghost takes = { takes_in (takes_of R.table) };

    ghost shape = { table_shape R.table };

    fn from_value(alloc: Global, value: &Value) -> Result<R, JsonRefusal> {
        read_nested(alloc, value)
    }

    fn blame(alloc: Global, value: &Value) -> Result<JsonBlame, OutOfMemory> {
        let reason = match find_fault::<R>(alloc, value)? {
            Some(JsonFault::Refused(name)) => return blame_row::<R>(alloc, name, value),
            Some(JsonFault::Float(name)) => return blame_row::<R>(alloc, name, value),
            Some(JsonFault::Missing(name)) => JsonReason::Missing(name),
            Some(JsonFault::Repeated(name)) => JsonReason::Repeated(name),
            _ => JsonReason::Wanted(WantedJson::Object),
        };
        Ok(JsonBlame::whole(alloc, reason))
    }

    fn dropped(alloc: Global, value: &Value) -> Result<Vec<DroppedValue>, OutOfMemory> {
        let mut dropped = Vec::new(alloc);
        for row in R::rows() {
            append_row::<R>(alloc, &mut dropped, row, value)?;
        }
        Ok(dropped)
    }
}

impl<R: PlainJsonRecord> ToJson for R {
    ghost json = { table_json R.table };

    fn to_json(&self, alloc: Global, form: BytesForm) -> Result<Value, OutOfMemory> {
        let mut object = ObjectWriter::new(alloc);
        put_members(self, alloc, form, &mut object)?;
        Ok(object.into_value())
    }
}

impl<R: PlainJsonRecord> RecordToJson for R {
    ghost use Rattle.std.specs.Prelude.{refl};

    ghost kind_is_record = { λ _. refl };
}
