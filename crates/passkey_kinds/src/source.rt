//! Where a record's values are decoded from.
ghost use Rattle.std.specs.Prelude.{◌≡◌, ℕ, suc, map, option_map, Option, Some, None, is_ok, Bool, true, false, OnOk};
ghost use Rattle.passkey_kinds.specs.Words.{Shape, Item, IsEncodedAt, item_of, Keeping, nothing, Answers, Onward, Further, Costs};
ghost use Rattle.passkey_kinds.specs.Words.{accepted, or_else, tolerated, Sets, costs_nothing, onward_same, costs_at_most};

use crate::{FromCbor, Refusal, TolerantList, Tolerated};
use passkey_bytes::List;
use passkey_cbor::{Cursor, Value};
use std::alloc::Global;

/// A data item to decode: in memory, or at a cursor.
pub trait Source {
    /// The data item, and the place where it ends.
    ghost At: { Self → Item → ℕ → Type 0 };

    /// The cost of decoding the item: at most this many heads for each byte, and at most these data
    /// items made as values; and the shape of the type that was decoded, if one was. After a success
    /// the source is after the item, and what is kept was counted.
    ghost HasCost: { ℕ → Keeping → Option Shape → Item → ℕ → Self → Self → Bool → Type 0 };

    /// The source didn't move back, and its counts didn't fall.
    ghost IsOnward: { Self → Self → Type 0 };

    /// The source moved on, and counted at least the heads of what it passed.
    ghost IsFurther: { Self → Self → Type 0 };

    /// Decodes the item. Returns `Refused` exactly if the type doesn't accept it, and `OutOfMemory`
    /// if an allocation fails, which can only happen for an item that takes memory.
    fn read<T: FromCbor>(&mut self, alloc: Global) -> Result<T, Refusal>
        ensures answers { (i : Item) (to : ℕ) → At self.old i to → Answers T.view T.typed i result }
        ensures spends { (i : Item) (to : ℕ) → At self.old i to
            → HasCost T.typed.cost T.typed.keeps (Some T.typed.shape) i to self.old self.new (is_ok result) }
        ensures onward { IsOnward self.old self.new }
        ensures further { OnOk result (IsFurther self.old self.new) };

    /// Skips the item, which is the value of an unknown member, and returns whether there is one.
    /// Allocates nothing.
    fn skip(&mut self) -> bool
        ensures passes { (i : Item) (to : ℕ) → At self.old i to → result ≡ true }
        ensures spends { (i : Item) (to : ℕ) → At self.old i to → HasCost 1 nothing None i to self.old self.new true }
        ensures onward { IsOnward self.old self.new }
        ensures further { result ≡ true → IsFurther self.old self.new };

    ghost stays: { (cost : ℕ) (keeps : Keeping) (shape : Option Shape) (i : Item) (to : ℕ) (s : Self)
        → shape ≡ None → At s i to → HasCost cost keeps shape i to s s false };

    ghost still: { (s : Self) → IsOnward s s };

    ghost at_most: { (cost : ℕ) (keeps : Keeping) (shape : Option Shape) (i : Item) (to : ℕ) (s e : Self)
        → HasCost cost keeps shape i to s e true → HasCost cost keeps shape i to s e false };

    ghost forget: { (cost : ℕ) (keeps : Keeping) (shape : Option Shape) (i : Item) (to : ℕ) (s e : Self)
        (ok : Bool) → HasCost cost keeps shape i to s e ok → HasCost cost keeps None i to s e ok };
}

/// A data item in memory.
#[derive(Drop)]
pub struct InMemory<'a>(pub &'a Value);

impl<'a> Source for InMemory<'a> {
    ghost At = { λ t i to. item_of t.0.now ≡ i };

    ghost HasCost = { λ cost keeps shape i to old new ok. Unit {0} };

    ghost IsOnward = { λ old new. Unit {0} };

    ghost IsFurther = { λ old new. Unit {0} };

    ghost stays = { λ cost keeps shape i to s none at. tt };

    ghost still = { λ s. tt };

    ghost at_most = { λ cost keeps shape i to s e spent. tt };

    ghost forget = { λ cost keeps shape i to s e ok spent. tt };

    fn read<T: FromCbor>(&mut self, alloc: Global) -> Result<T, Refusal> {
        T::from_value(alloc, self.0)
    }

    fn skip(&mut self) -> bool {
        true
    }
}

/// The data item at a cursor.
impl<'a> Source for Cursor<'a> {
    ghost At = { λ w i to. IsEncodedAt i w.bytes w.place to };

    ghost HasCost = { λ cost keeps shape i to old new ok. Costs cost keeps i to old new ok };

    ghost IsOnward = { Onward };

    ghost IsFurther = { Further };

    ghost stays = { λ cost keeps shape i to s none at. costs_nothing cost keeps i to s at };

    ghost still = { onward_same };

    ghost at_most = { λ cost keeps shape i to s e spent. costs_at_most cost keeps i to s e spent };

    ghost forget = { λ cost keeps shape i to s e ok spent. spent };

    fn read<T: FromCbor>(&mut self, alloc: Global) -> Result<T, Refusal> {
        T::read(alloc, self)
    }

    fn skip(&mut self) -> bool {
        self.skip()
    }
}

/// Decodes the item into the field. Returns `Refused` exactly if the type doesn't accept it, and
/// `OutOfMemory` if an allocation fails, which can only happen for an item that takes memory.
pub fn set<T: FromCbor, S: Source>(
    field: &mut T,
    alloc: Global,
    source: &mut S,
) -> Result<(), Refusal>
    ensures sets { (i : Item) (to : ℕ) → S.At source.old i to → Sets T.view T.typed i field.new result }
    ensures spends { (i : Item) (to : ℕ) → S.At source.old i to
        → S.HasCost T.typed.cost T.typed.keeps (Some T.typed.shape) i to source.old source.new (is_ok result) }
    ensures onward { S.IsOnward source.old source.new }
    ensures further { OnOk result (S.IsFurther source.old source.new) }
{
    *field = source.read(alloc)?;
    Ok(())
}

/// Decodes the item into the field, which becomes `None` if the type doesn't accept the item.
/// Running out of memory is still an error.
pub fn set_tolerated<T: FromCbor, S: Source>(
    field: &mut Option<T>,
    alloc: Global,
    source: &mut S,
) -> Result<(), Refusal>
    ensures sets { (i : Item) (to : ℕ) → S.At source.old i to
        → Sets (option_map T.view) (tolerated T.typed) i field.new result }
    ensures spends { (i : Item) (to : ℕ) → S.At source.old i to
        → S.HasCost (suc T.typed.cost) (tolerated T.typed).keeps (Some (tolerated T.typed).shape) i to source.old
        source.new (is_ok result) }
    ensures onward { S.IsOnward source.old source.new }
    ensures further { OnOk result (S.IsFurther source.old source.new) }
{
    let read: Tolerated<T> = source.read(alloc)?;
    *field = read.0;
    Ok(())
}

/// Decodes the item into the field, which becomes this default if the type doesn't accept the item.
/// Running out of memory is still an error.
pub fn set_or<T: FromCbor, S: Source>(
    field: &mut T,
    default: T,
    alloc: Global,
    source: &mut S,
) -> Result<(), Refusal>
    ensures sets { (i : Item) (to : ℕ) → S.At source.old i to
        → Sets T.view (or_else (T.view default) T.typed) i field.new result }
    ensures spends { (i : Item) (to : ℕ) → S.At source.old i to
        → S.HasCost (suc T.typed.cost) (tolerated T.typed).keeps (Some (tolerated T.typed).shape) i to source.old
        source.new (is_ok result) }
    ensures onward { S.IsOnward source.old source.new }
    ensures further { OnOk result (S.IsFurther source.old source.new) }
{
    let read: Tolerated<T> = source.read(alloc)?;
    *field = read.0.unwrap_or(default);
    Ok(())
}

/// Decodes the elements of an array into the field, in their order, and skips those that the type
/// doesn't accept. Returns `Refused` if the item isn't an array. Running out of memory is still an
/// error.
pub fn set_accepted<T: FromCbor, S: Source>(
    field: &mut List<T>,
    alloc: Global,
    source: &mut S,
) -> Result<(), Refusal>
    ensures sets { (i : Item) (to : ℕ) → S.At source.old i to
        → Sets (λ xs. map T.view xs) (accepted T.typed) i field.new result }
    ensures spends { (i : Item) (to : ℕ) → S.At source.old i to
        → S.HasCost (suc (suc T.typed.cost)) (accepted T.typed).keeps (Some (accepted T.typed).shape) i to
        source.old source.new (is_ok result) }
    ensures onward { S.IsOnward source.old source.new }
    ensures further { OnOk result (S.IsFurther source.old source.new) }
{
    let read: TolerantList<T> = source.read(alloc)?;
    *field = read.0;
    Ok(())
}

/// Does the same for a field that becomes `None` if the item isn't an array.
pub fn set_accepted_or_none<T: FromCbor, S: Source>(
    field: &mut Option<List<T>>,
    alloc: Global,
    source: &mut S,
) -> Result<(), Refusal>
    ensures sets { (i : Item) (to : ℕ) → S.At source.old i to
        → Sets (λ o. option_map (λ xs. map T.view xs) o) (tolerated (accepted T.typed)) i field.new result }
    ensures spends { (i : Item) (to : ℕ) → S.At source.old i to
        → S.HasCost (suc (suc (suc T.typed.cost))) (tolerated (accepted T.typed)).keeps
        (Some (tolerated (accepted T.typed)).shape) i to source.old source.new (is_ok result) }
    ensures onward { S.IsOnward source.old source.new }
    ensures further { OnOk result (S.IsFurther source.old source.new) }
{
    let read: Tolerated<TolerantList<T>> = source.read(alloc)?;
    *field = read.0.map(|list| list.0);
    Ok(())
}
