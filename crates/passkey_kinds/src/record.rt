//! Records, decoded member by member.
ghost use Rattle.std.specs.Prelude.{◌≡◌, ◌≤◌, ℕ, Bool, true, false, length, map, get_or, is_ok, OnOk, set, [], None};
ghost use Rattle.passkey_kinds.specs.Words.{CountsHeads, Item, max_depth, IsEncodedAt, PairsAreEncodedAt, item_of, pair_of};
ghost use Rattle.passkey_kinds.specs.Words.{Onward, Further, MayGrowIn, MayGrowAt, Reads, named_as, Fields, table_of};
ghost use Rattle.passkey_kinds.specs.Words.{read_members, read_item, nested, cost_at, keeps_at, shape_at, Puts, entry_of};
ghost use Rattle.passkey_kinds.specs.Words.{Members, entries, named, MayGrowBy, one_more, progress_of, read_from, cost_by};
ghost use Rattle.passkey_kinds.specs.Words.{keeps_by, DecodesMember, DecodesMembers, DecodesRecord, as_nested};
ghost use Rattle.passkey_kinds.specs.Record.{first_missing as missing_of, unmarked};
ghost use Rattle.passkey_cbor.specs.EncodedAt.{Lies};
ghost use Rattle.passkey_cbor.specs.Inside.{PairWithin};

use crate::head::read_map;
use crate::key::read_key;
use crate::look::look_at_row;
use crate::rows::{Named, row_of};
use crate::{Fault, Form, FromCbor, InMemory, Look, OutOfMemory, Refusal, Row, Source, looked};
use passkey_cbor::{Cursor, Value};
use std::alloc::Global;

/// A record, decoded member by member from a map: it starts as the blank record with its defaults,
/// and each decoded value is put into it.
pub trait Record: Drop {
    /// What contracts see of the record.
    ghost Parts: { Type 0 } = { Self };

    ghost parts: { Self → Parts };

    /// Its rows, and what it holds before a member is decoded.
    ghost fields: { Fields Parts };

    /// The data item that a record is encoded as.
    ghost tree: { Parts → Item };

    /// Whether a message's encoding can be decoded again. Only `Message` speaks of it.
    ghost coherent: { Parts → Bool };

    /// Returns whether members have numbers in addition to their names.
    fn is_numbered() -> bool
        ensures { result ≡ fields.is_numbered };

    /// Returns the table's rows, at most 64.
    fn rows() -> &'static [Row]
        ensures rows { map entry_of result.now ≡ entries (table_of fields) }
        ensures few { length result.now ≤ 64 };

    /// Returns the record before a member is decoded. Allocates nothing.
    fn blank(alloc: Global) -> Self
        ensures { parts result ≡ fields.blank };

    /// Decodes the value of the row with this number and puts it into the record. Returns `Refused`
    /// if the row doesn't accept the item, or if no row has the number. Returns `OutOfMemory` if an
    /// allocation fails, which can only happen for an item that takes memory.
    fn put<S: Source>(&mut self, alloc: Global, number: u8, source: &mut S) -> Result<(), Refusal>
        ensures puts { (i : Item) (to : ℕ) → S.At source.old i to
            → Puts fields number i (parts self.old) (parts self.new) result }
        ensures spends { (i : Item) (to : ℕ) → S.At source.old i to → S.HasCost (cost_at fields.rows number)
            (keeps_at fields.rows number) (shape_at fields.rows number) i to source.old source.new (is_ok result) }
        ensures onward { S.IsOnward source.old source.new }
        ensures further { OnOk result (S.IsFurther source.old source.new) };
}

/// Decodes the value of the next member, by what its map key names.
fn read_member<R: Record, S: Source>(
    alloc: Global,
    read: &mut R,
    seen: &mut [bool; 256],
    key: Named,
    source: &mut S,
) -> Result<(), Fault>
    ensures reads { (label value : Item) (to : ℕ) → named (table_of R.fields) label ≡ named_as key
        → S.At source.old value to → Reads (λ _. progress_of (R.parts read.new) seen.new)
        (MayGrowBy (table_of R.fields) (named_as key) value)
        (one_more R.fields (named_as key) value (progress_of (R.parts read.old) seen.old)) result }
    ensures spends { (value : Item) (to : ℕ) → S.At source.old value to → S.HasCost (cost_by R.fields.rows
        (named_as key)) (keeps_by R.fields.rows (named_as key)) None value to source.old source.new (is_ok result) }
    ensures onward { S.IsOnward source.old source.new }
    ensures further { OnOk result (S.IsFurther source.old source.new) }
{
    let number = match key {
        Named::Row(number) => number,
        Named::Unknown => {
            if source.skip() {
                return Ok(());
            }
            // A well-formed map has a value for every key, so this is only reached for other bytes.
            return Err(Fault::DecodeFailed);
        }
    };
    if is_marked(seen, number) {
        return Err(Fault::Repeated(number));
    }
    match read.put(alloc, number, source) {
        Ok(()) => {
            mark(seen, number);
            Ok(())
        }
        Err(Refusal::Refused) => Err(Fault::Refused(number)),
        Err(Refusal::OutOfMemory) => Err(Fault::OutOfMemory),
    }
}

/// Returns whether the row with this number is marked.
pub fn is_marked(seen: &[bool; 256], number: u8) -> bool
    ensures { result ≡ get_or seen.now number false }
{
    seen[usize::from(number)]
}

/// Marks the row with this number.
pub fn mark(seen: &mut [bool; 256], number: u8)
    ensures { seen.new ≡ set seen.old number true }
{
    seen[usize::from(number)] = true;
}

/// Returns the number of the first required row that isn't marked.
pub fn first_missing(rows: &[Row], seen: &[bool; 256]) -> Option<u8>
    ensures { result ≡ missing_of (map entry_of rows.now) (λ n. get_or seen.now n false) }
{
    for row in rows {
        if row.is_required() && !is_marked(seen, row.number()) {
            return Some(row.number());
        }
    }
    None
}

/// Returns marks with no row marked.
#[tactic(auto, unfolding(crate::specs::Record::unmarked))]
pub fn no_marks() -> [bool; 256]
    ensures { result ≡ unmarked }
{
    [false; 256]
}

/// Returns the record, or `Missing` for the first required row that isn't marked.
fn finish<R: Record>(read: R, seen: &[bool; 256]) -> Result<R, Fault>
    ensures { Reads R.parts ⊥ (read_from R.fields [] (progress_of (R.parts read) seen.now)) result }
{
    match first_missing(R::rows(), seen) {
        Some(number) => Err(Fault::Missing(number)),
        None => Ok(read),
    }
}

#[tactic(auto, using(crate::proofs::Members::reads_pairs))]
fn read_pairs<R: Record>(alloc: Global, pairs: &[(Value, Value)]) -> Result<R, Fault>
    ensures { Reads R.parts (MayGrowIn (table_of R.fields) (map pair_of pairs.now))
        (read_members R.fields (map pair_of pairs.now)) result }
{
    let mut read = R::blank(alloc);
    let mut seen = no_marks();
    for (key, value) in pairs {
        let key = match row_of(R::is_numbered(), R::rows(), key) {
            Some(key) => key,
            None => return Err(Fault::BadKey),
        };
        read_member(alloc, &mut read, &mut seen, key, &mut InMemory(value))?;
    }
    finish(read, &seen)
}

/// Decodes a record from a map (CTAP 2.1, sections 6 and 8). Returns `NotAMap` if the item isn't
/// one; otherwise the fault of its first bad member, in the order of the members (`BadKey`,
/// `Repeated`, `Refused`); otherwise `Missing` for the first required member, in the table's order,
/// that is absent. Returns `OutOfMemory` if an allocation fails, which can only happen for a member
/// that takes memory.
#[tactic(auto, using(crate::proofs::Members::reads_map))]
pub fn record_from_value<R: Record>(alloc: Global, value: &Value) -> Result<R, Fault>
    ensures { Reads R.parts (MayGrowAt (table_of R.fields) (item_of value.now))
        (read_item R.fields (item_of value.now)) result }
{
    match value {
        Value::Map(pairs) => read_pairs::<R>(alloc, pairs),
        _ => Err(Fault::NotAMap),
    }
}

/// Decodes the next member at the cursor: its map key, and then its value.
#[tactic(auto, using(crate::proofs::Cursor::on_ok))]
fn read_next<R: Record>(
    alloc: Global,
    read: &mut R,
    seen: &mut [bool; 256],
    cursor: &mut Cursor<'_>,
) -> Result<(), Fault>
    ensures reads { (m : Item × Item) (to : ℕ)
        → Lies (PairWithin max_depth m) cursor.old.bytes cursor.old.place to
        → DecodesMember R.fields (named (table_of R.fields) m.0) m (progress_of (R.parts read.old) seen.old)
        (progress_of (R.parts read.new) seen.new) to cursor.old cursor.new result }
    ensures onward { Onward cursor.old cursor.new }
    ensures further { OnOk result (Further cursor.old cursor.new) }
{
    match read_key(R::is_numbered(), R::rows(), cursor) {
        Some(key) => read_member(alloc, read, seen, key, cursor),
        None => Err(Fault::BadKey),
    }
}

/// Decodes the members that follow a map's head.
#[tactic(auto, using(crate::proofs::Loops::begun, crate::proofs::Members::has_begun))]
fn read_pairs_ahead<R: Record>(
    alloc: Global,
    mut left: Option<u64>,
    cursor: &mut Cursor<'_>,
) -> Result<R, Fault>
    ensures reads { (ms : Members) (to : ℕ) → PairsAreEncodedAt left ms cursor.old.bytes cursor.old.place to
        → DecodesMembers R.parts R.fields ms to cursor.old cursor.new result }
    ensures onward { Onward cursor.old cursor.new }
    ensures counts { OnOk result (CountsHeads cursor.old cursor.new) }
{
    let mut read = R::blank(alloc);
    let mut seen = no_marks();
    while cursor.more(&mut left) {
        read_next(alloc, &mut read, &mut seen, cursor)?;
    }
    finish(read, &seen)
}

/// Decodes the record at the cursor, as `record_from_value` decodes a data item, and moves past it.
/// After an error the cursor may be anywhere in it.
pub(crate) fn read_record<R: Record>(alloc: Global, cursor: &mut Cursor<'_>) -> Result<R, Fault>
    ensures reads { (i : Item) (to : ℕ) → IsEncodedAt i cursor.old.bytes cursor.old.place to
        → DecodesRecord R.parts R.fields i to cursor.old cursor.new result }
    ensures onward { Onward cursor.old cursor.new }
    ensures further { OnOk result (Further cursor.old cursor.new) }
{
    match read_map(cursor) {
        Some(left) => read_pairs_ahead::<R>(alloc, left, cursor),
        None => Err(Fault::NotAMap),
    }
}

/// Returns the result for a record inside another one: each fault but `OutOfMemory` becomes
/// `Refused`.
fn nested_result<R: Record>(read: Result<R, Fault>) -> Result<R, Refusal>
    ensures { result ≡ as_nested read }
{
    match read {
        Ok(record) => Ok(record),
        Err(Fault::OutOfMemory) => Err(Refusal::OutOfMemory),
        Err(_) => Err(Refusal::Refused),
    }
}

/// A record inside another one. Returns `Refused` if `record_from_value` returns any fault but
/// `OutOfMemory`.
impl<R: Record> FromCbor for R {
    ghost Meaning = { R.Parts };

    ghost view = { R.parts };

    ghost typed = { nested R.fields };

    #[tactic(auto, using(crate::proofs::RecordLaws::may_grow, crate::proofs::Members::held_answers))]
    fn from_value(alloc: Global, value: &Value) -> Result<R, Refusal> {
        nested_result(record_from_value::<R>(alloc, value))
    }

    #[tactic(auto, using(crate::proofs::Members::held_ok))]
    fn read(alloc: Global, cursor: &mut Cursor<'_>) -> Result<R, Refusal> {
        nested_result(read_record::<R>(alloc, cursor))
    }

    fn look(alloc: Global, way: &[u8], value: &Value) -> Result<Look, OutOfMemory> {
        match way.split_first() {
            None => looked(
                nested_result(record_from_value::<R>(alloc, value)),
                Form::Record(R::is_numbered(), R::rows()),
            ),
            Some((number, rest)) => look_at_row::<R>(alloc, *number, rest, value),
        }
    }
}
