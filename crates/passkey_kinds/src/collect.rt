//! Elements of arrays and members of maps, decoded one after the other at a cursor.
ghost use Rattle.std.specs.Prelude.{◌<◌, ◌≤◌, ◌+◌, ℕ, suc, IsTrue, List, length, map, is_ok, IfSome, None, OnOk};
ghost use Rattle.passkey_kinds.specs.Words.{CountsHeads, Item, item_of, AnswersAs, CountsLeast, IsEncodedAt, kept_sum, least_sum};
ghost use Rattle.passkey_kinds.specs.Words.{Decodes, Spends, Further, Onward, OpensAt, Gathering, in_array, Way, AddsOne};
ghost use Rattle.passkey_kinds.specs.Words.{Collects, collected};
ghost use Rattle.passkey_cbor.specs.EncodedAt.{Lies};
ghost use Rattle.passkey_cbor.specs.Inside.{Left};

use crate::head::read_array;
use crate::{InMemory, Refusal, Source};
use passkey_cbor::{Cursor, Value};
use std::alloc::Global;

/// What the elements of an array, or the members of a map, are put into as they are decoded.
pub(crate) trait Collect: Drop {
    /// An element, or a member.
    ghost Element: { Type 0 };

    /// What contracts see of the elements so far.
    ghost Value: { Type 0 };

    ghost value: { Self → Value };

    ghost way: { Way Element Value };

    /// Decodes the head of the array or map at the cursor and returns its length, which is
    /// `Some(None)` if it is indefinite. Returns `None` if none is there.
    fn start(cursor: &mut Cursor<'_>) -> Option<Option<u64>>
        ensures opens { (i : Item) (to : ℕ) → IsEncodedAt i cursor.old.bytes cursor.old.place to
            → OpensAt way.parts way.Encoded i to cursor.new result }
        ensures spends { (i : Item) (to : ℕ) → IsEncodedAt i cursor.old.bytes cursor.old.place to
            → Spends 1 0 to cursor.old cursor.new }
        ensures counted { cursor.new.heads ≤ cursor.old.heads + 1 }
        ensures onward { Onward cursor.old cursor.new }
        ensures further { IfSome result (λ _. Further cursor.old cursor.new) };

    /// Decodes the element at the cursor and adds it. Returns `Refused` exactly if it isn't accepted.
    fn add(&mut self, alloc: Global, cursor: &mut Cursor<'_>) -> Result<(), Refusal>
        ensures adds { (x : Element) (to : ℕ) → Lies (way.Encoded x) cursor.old.bytes cursor.old.place to
            → AddsOne way x (value self.old) (value self.new) to cursor.old cursor.new result }
        ensures onward { Onward cursor.old cursor.new }
        ensures further { OnOk result (Further cursor.old cursor.new) };
}

/// What the elements of an array are put into as they are decoded, in memory or at a cursor.
pub(crate) trait Gather: Drop {
    /// What contracts see of the elements so far.
    ghost Value: { Type 0 };

    ghost value: { Self → Value };

    ghost gathering: { Gathering Value };

    /// Decodes the element and adds it. Returns `Refused` exactly if it isn't accepted.
    fn add<S: Source>(&mut self, alloc: Global, source: &mut S) -> Result<(), Refusal>
        ensures adds { (x : Item) (to : ℕ) → S.At source.old x to → AnswersAs (λ _. value self.new)
            (gathering.next x (value self.old)) (IsTrue gathering.takes) result }
        ensures spends { (x : Item) (to : ℕ) → S.At source.old x to
            → S.HasCost gathering.cost gathering.keeps None x to source.old source.new (is_ok result) }
        ensures onward { S.IsOnward source.old source.new }
        ensures further { OnOk result (S.IsFurther source.old source.new) };
}

/// Decodes the elements in memory, and adds them. Returns `Refused` if one of them isn't accepted.
pub(crate) fn read_elements<G: Gather>(
    alloc: Global,
    empty: G,
    elements: &[Value],
) -> Result<G, Refusal>
    ensures { AnswersAs G.value (collected G.gathering.next (map item_of elements.now) (G.value empty))
        (IsTrue G.gathering.takes × (0 < length elements.now)) result }
{
    let mut into = empty;
    for element in elements {
        Gather::add(&mut into, alloc, &mut InMemory(element))?;
    }
    Ok(into)
}

/// The elements of the array at a cursor.
impl<G: Gather> Collect for G {
    ghost Element = { Item };

    ghost Value = { G.Value };

    ghost value = { G.value };

    ghost way = { in_array G.gathering };

    fn start(cursor: &mut Cursor<'_>) -> Option<Option<u64>> {
        read_array(cursor)
    }

    fn add(&mut self, alloc: Global, cursor: &mut Cursor<'_>) -> Result<(), Refusal> {
        Gather::add(self, alloc, cursor)
    }
}

/// Decodes the elements that follow the head of an array or a map, and adds them.
fn read_all<C: Collect>(
    alloc: Global,
    empty: C,
    mut left: Option<u64>,
    cursor: &mut Cursor<'_>,
) -> Result<C, Refusal>
    ensures reads { (xs : List C.Element) (to : ℕ)
        → Lies (Left C.way.Encoded left xs) cursor.old.bytes cursor.old.place to
        → Decodes C.value (collected C.way.next xs (C.value empty)) (IsTrue C.way.takes × (0 < length xs))
        (suc C.way.cost) (kept_sum C.way.kept xs) to cursor.old cursor.new result }
    ensures onward { Onward cursor.old cursor.new }
    ensures counts { OnOk result (CountsHeads cursor.old cursor.new) }
    ensures least { (xs : List C.Element) (to : ℕ)
        → Lies (Left C.way.Encoded left xs) cursor.old.bytes cursor.old.place to
        → OnOk result (CountsLeast (least_sum C.way.least xs) cursor.old cursor.new) }
{
    let mut into = empty;
    while cursor.more(&mut left) {
        Collect::add(&mut into, alloc, cursor)?;
    }
    Ok(into)
}

/// Decodes the array or the map at the cursor, and adds its elements or members. Returns `Refused` if
/// none is there, or if one of them isn't accepted.
pub(crate) fn read_whole<C: Collect>(
    alloc: Global,
    empty: C,
    cursor: &mut Cursor<'_>,
) -> Result<C, Refusal>
    ensures reads { (i : Item) (to : ℕ) → IsEncodedAt i cursor.old.bytes cursor.old.place to
        → Collects C.value C.way (C.value empty) i to cursor.old cursor.new result }
    ensures onward { Onward cursor.old cursor.new }
    ensures further { OnOk result (Further cursor.old cursor.new) }
{
    match C::start(cursor) {
        Some(left) => read_all(alloc, empty, left, cursor),
        None => Err(Refusal::Refused),
    }
}
