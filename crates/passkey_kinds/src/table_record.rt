//! Records that one table defines.
ghost use Rattle.std.specs.Prelude.{◌≡◌, ◌≤◌, ℕ, Bool, true, length, map, is_ok, OnOk, Option, None};
ghost use Rattle.passkey_kinds.specs.Words.{Item, PlainTable, EachFits, places_of, plain_tree, KeysAscend, IsReadBack, table_of};
ghost use Rattle.passkey_kinds.specs.Words.{cost_at, keeps_at, shape_at, Puts, entry_of, AllAccepted, put_all, entries};
ghost use Rattle.passkey_kinds.specs.Words.{record_kind};
ghost use Rattle.passkey_kinds.specs.Numbered.{table_fields, is_shallow};

use crate::{OutOfMemory, Record, RecordReadBack, Refusal, Row, Sink, Source, ToCborMap};
use std::alloc::Global;

/// A record that one table defines: the table says how it is decoded and how it is encoded.
pub trait TableRecord: Drop {
    /// What the record holds before a member is decoded, and its members in the order in which they
    /// are encoded.
    ghost table: { PlainTable Self };

    /// Whether members have numbers in addition to their names.
    ghost numbered: { Bool } = { true };

    /// The data item that a message keeps undecoded, if it has one. Only `TableMessage` speaks of it.
    ghost kept: { Self → Option Item } = { λ r. None };

    /// The record that the encoding of a record decodes to.
    ghost normal: { Self → Self } = { λ r. r };

    /// Returns whether members have numbers in addition to their names.
    fn is_numbered() -> bool
        ensures { result ≡ numbered };

    /// Returns the table's rows, at most 64.
    fn rows() -> &'static [Row]
        ensures rows { map entry_of result.now ≡ entries (table_of (table_fields numbered table)) }
        ensures few { length result.now ≤ 64 };

    /// Returns the record before a member is decoded. Allocates nothing.
    fn blank(alloc: Global) -> Self
        ensures { result ≡ table.blank };

    /// Decodes the value of the row with this number and puts it into the record, as `Record::put`.
    fn put<S: Source>(&mut self, alloc: Global, number: u8, source: &mut S) -> Result<(), Refusal>
        ensures puts { (i : Item) (to : ℕ) → S.At source.old i to
            → Puts (table_fields numbered table) number i self.old self.new result }
        ensures spends { (i : Item) (to : ℕ) → S.At source.old i to
            → S.HasCost (cost_at (table_fields numbered table).rows number)
            (keeps_at (table_fields numbered table).rows number)
            (shape_at (table_fields numbered table).rows number) i to source.old source.new (is_ok result) }
        ensures onward { S.IsOnward source.old source.new }
        ensures further { OnOk result (S.IsFurther source.old source.new) };

    /// Puts the members into a sink. Returns `OutOfMemory` if an allocation fails.
    fn put_members<S: Sink>(&self, alloc: Global, sink: &mut S) -> Result<(), OutOfMemory>
        ensures put { OnOk result
            (S.state sink.new ≡ put_all S.step (S.state sink.old) (places_of table.members self.now)) }
        ensures accepts { OnOk result (AllAccepted S.Accepts (places_of table.members self.now)) }
        ensures fits { OnOk result (S.Encodes → EachFits table.members self.now) };

    /// The encoding of a record decodes to its normal form, and its map keys ascend in CTAP2's order
    /// (CTAP 2.1, section 8). Does nothing.
    fn lawful()
        ensures back { IsReadBack (record_kind (table_fields numbered table)) (plain_tree table)
            (EachFits table.members) normal }
        ensures ordered { KeysAscend (places_of table.members) };
}

impl<R: TableRecord> Record for R {
    ghost parts = { λ r. r };

    ghost fields = { table_fields R.numbered R.table };

    ghost tree = { plain_tree R.table };

    ghost coherent = { is_shallow R.table };

    fn is_numbered() -> bool {
        <R as TableRecord>::is_numbered()
    }

    fn rows() -> &'static [Row] {
        <R as TableRecord>::rows()
    }

    fn blank(alloc: Global) -> R {
        <R as TableRecord>::blank(alloc)
    }

    fn put<S: Source>(&mut self, alloc: Global, number: u8, source: &mut S) -> Result<(), Refusal> {
        <R as TableRecord>::put(self, alloc, number, source)
    }
}

impl<R: TableRecord> ToCborMap for R {
    ghost places = { λ r. places_of R.table.members r };

    ghost holds = { λ r. EachFits R.table.members r };

    fn put_members<S: Sink>(&self, alloc: Global, sink: &mut S) -> Result<(), OutOfMemory> {
        <R as TableRecord>::put_members(self, alloc, sink)
    }

    fn ordered() {
        R::lawful();
    }
}

impl<R: TableRecord> RecordReadBack for R {
    ghost normal = { R.normal };

    fn record_back() {
        R::lawful();
    }
}
