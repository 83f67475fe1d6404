//! Records whose members have names alone, and which keep no data item.
ghost use Rattle.std.specs.Prelude.{◌≡◌, ◌≤◌, ℕ, true, false, length, map, is_ok, OnOk};
ghost use Rattle.passkey_kinds.specs.Words.{Item, PlainTable, EachFits, fields_of, places_of, plain_tree, KeysAscend, IsReadBack};
ghost use Rattle.passkey_kinds.specs.Words.{table_of, cost_at, keeps_at, shape_at, Puts, entry_of, AllAccepted, put_all, entries};
ghost use Rattle.passkey_kinds.specs.Words.{plain_kind};

use crate::{OutOfMemory, Refusal, Row, Sink, Source, TableRecord};
use std::alloc::Global;

/// A record whose members have names alone, and which keeps no data item. One table says how it is
/// decoded and how it is encoded.
pub trait PlainRecord: Drop {
    /// What the record holds before a member is decoded, and its members in the order in which they
    /// are encoded.
    ghost table: { PlainTable Self };

    /// The record that the encoding of a record decodes to.
    ghost normal: { Self → Self } = { λ r. r };

    /// Returns the table's rows, at most 64.
    fn rows() -> &'static [Row]
        ensures rows { map entry_of result.now ≡ entries (table_of (fields_of table)) }
        ensures few { length result.now ≤ 64 };

    /// Returns the record before a member is decoded. Allocates nothing.
    fn blank(alloc: Global) -> Self
        ensures { result ≡ table.blank };

    /// Decodes the value of the row with this number and puts it into the record, as `Record::put`.
    fn put<S: Source>(&mut self, alloc: Global, number: u8, source: &mut S) -> Result<(), Refusal>
        ensures puts { (i : Item) (to : ℕ) → S.At source.old i to
            → Puts (fields_of table) number i self.old self.new result }
        ensures spends { (i : Item) (to : ℕ) → S.At source.old i to → S.HasCost (cost_at (fields_of table).rows number)
            (keeps_at (fields_of table).rows number) (shape_at (fields_of table).rows number) i to
            source.old source.new (is_ok result) }
        ensures onward { S.IsOnward source.old source.new }
        ensures further { OnOk result (S.IsFurther source.old source.new) };

    /// Puts the members into a sink. Returns `OutOfMemory` if an allocation fails.
    fn put_members<S: Sink>(&self, alloc: Global, sink: &mut S) -> Result<(), OutOfMemory>
        ensures put { OnOk result
            (S.state sink.new ≡ put_all S.step (S.state sink.old) (places_of table.members self.now)) }
        ensures accepts { OnOk result (AllAccepted S.Accepts (places_of table.members self.now)) }
        ensures fits { OnOk result (S.Encodes → EachFits table.members self.now) };

    /// The encoding of a record decodes to its normal form, and its map keys ascend in CTAP2's order
    /// (CTAP 2.1, section 8). Does nothing.
    fn lawful()
        ensures back { IsReadBack (plain_kind table) (plain_tree table) (EachFits table.members) normal }
        ensures ordered { KeysAscend (places_of table.members) };
}

impl<R: PlainRecord> TableRecord for R {
    ghost table = { R.PlainRecord.table };

    ghost numbered = { false };

    ghost normal = { R.PlainRecord.normal };

    fn is_numbered() -> bool {
        false
    }

    fn rows() -> &'static [Row] {
        <R as PlainRecord>::rows()
    }

    fn blank(alloc: Global) -> R {
        <R as PlainRecord>::blank(alloc)
    }

    fn put<S: Source>(&mut self, alloc: Global, number: u8, source: &mut S) -> Result<(), Refusal> {
        <R as PlainRecord>::put(self, alloc, number, source)
    }

    fn put_members<S: Sink>(&self, alloc: Global, sink: &mut S) -> Result<(), OutOfMemory> {
        <R as PlainRecord>::put_members(self, alloc, sink)
    }

    fn lawful() {
        <R as PlainRecord>::lawful();
    }
}
