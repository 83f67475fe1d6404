//! Members of extension maps that a record doesn't know, kept undecoded.
ghost use Rattle.std.specs.Prelude.{◌≡◌, ◌<◌, IfOk, OnOk, length, map};
ghost use Rattle.passkey_kinds.specs.Words.{item_of, named, pair_of, plain_tree, table_of};
ghost use Rattle.passkey_registered.specs.extensions.Others.{others_at, place_in, placed, tree_with, tree_with_row, wanted_in, wants, with_all};

use passkey_cbor::{Value, ctap2_order};
use passkey_kinds::{Named, OutOfMemory, Record, TableRecord, ToCbor, row_of};
use std::alloc::Global;
use std::cmp::Ordering;

/// Which members of a map are wanted, by what their keys name.
#[derive(Clone, Copy)]
enum Which {
    /// Those that name no row.
    Others,
    /// All but those that name the row with this number.
    AllBut(u8),
}

fn is_wanted<R: Record>(which: Which, key: &Value) -> bool
    ensures { result ≡ wants which (named (table_of R.fields) (item_of key.now)) }
{
    match (which, row_of(R::is_numbered(), R::rows(), key)) {
        (Which::Others, Some(Named::Unknown)) => true,
        (Which::Others, _) => false,
        (Which::AllBut(number), Some(Named::Row(found))) => found != number,
        (Which::AllBut(_), _) => true,
    }
}

fn wanted_among<R: Record>(
    alloc: Global,
    which: Which,
    pairs: &[(Value, Value)],
) -> Result<Vec<(Value, Value)>, OutOfMemory>
    ensures { IfOk result (λ ms. map pair_of ms.items ≡ wanted_in which (table_of R.fields) (map pair_of pairs.now)) }
{
    let mut wanted = Vec::new(alloc);
    for (key, value) in pairs {
        if is_wanted::<R>(which, key) {
            wanted.push((key.try_clone(alloc)?, value.try_clone(alloc)?))?;
        }
    }
    Ok(wanted)
}

/// Returns copies of the members of the map whose keys name no row of the record, in their order: the
/// extensions that the record doesn't know. Returns none if the item is no map, and `OutOfMemory` if
/// an allocation fails.
#[tactic(auto, using(passkey_kinds::proofs::Members::reads_map))]
pub fn others_of<R: Record>(alloc: Global, item: &Value) -> Result<Vec<(Value, Value)>, OutOfMemory>
    ensures { IfOk result (λ ms. map pair_of ms.items ≡ others_at (table_of R.fields) (item_of item.now)) }
{
    match item {
        Value::Map(pairs) => wanted_among::<R>(alloc, Which::Others, pairs),
        _ => Ok(Vec::new(alloc)),
    }
}

/// Returns the index of the first member whose key comes after the encoded key.
#[tactic(auto, using(crate::proofs::Places::written_long))]
fn index_of(alloc: Global, pairs: &[(Value, Value)], encoded: &[u8]) -> Result<usize, OutOfMemory>
    requires { 0 < length encoded.now }
    ensures { IfOk result (λ n. n ≡ place_in encoded.now (map pair_of pairs.now)) }
{
    for (index, (key, _)) in pairs.iter().enumerate() {
        if ctap2_order(encoded, &key.to_vec(alloc)?) == Ordering::Less {
            return Ok(index);
        }
    }
    Ok(pairs.len())
}

#[tactic(auto, using(crate::proofs::Places::written_long, crate::proofs::Places::place_within, crate::proofs::Places::inserted))]
fn place(
    alloc: Global,
    pairs: &mut Vec<(Value, Value)>,
    key: &Value,
    value: &Value,
) -> Result<(), OutOfMemory>
    ensures { OnOk result (map pair_of pairs.new.items ≡ placed (item_of key.now, item_of value.now)
        (map pair_of pairs.old.items)) }
{
    let encoded = key.to_vec(alloc)?;
    let index = index_of(alloc, pairs, &encoded)?;
    pairs.insert(index, (key.try_clone(alloc)?, value.try_clone(alloc)?))?;
    Ok(())
}

fn place_all(
    alloc: Global,
    pairs: &mut Vec<(Value, Value)>,
    others: &[(Value, Value)],
) -> Result<(), OutOfMemory>
    ensures { OnOk result (map pair_of pairs.new.items ≡ with_all (map pair_of others.now) (map pair_of pairs.old.items)) }
{
    for (key, value) in others {
        place(alloc, pairs, key, value)?;
    }
    Ok(())
}

/// Returns the map of the members of `known` and of these others, each before the first member whose
/// key comes after its own in CTAP2's order (CTAP 2.1, section 8). With what `others_of` returned, no
/// unknown extension is lost. Takes quadratic time in the number of members: limit the length of
/// untrusted maps. Returns `OutOfMemory` if an allocation fails.
#[tactic(auto, using(passkey_kinds::proofs::Members::reads_map))]
pub fn with_others<R: TableRecord>(
    alloc: Global,
    known: &R,
    others: &[(Value, Value)],
) -> Result<Value, OutOfMemory>
    ensures { IfOk result (λ v. item_of v ≡ tree_with (map pair_of others.now) (plain_tree R.table known.now)) }
{
    match known.to_value(alloc)? {
        Value::Map(mut pairs) => {
            place_all(alloc, &mut pairs, others)?;
            Ok(Value::Map(pairs))
        }
        value => Ok(value),
    }
}

/// Returns the map with this value for the row with this number, under its number and in its place:
/// so a message gets back its extensions, with all that its record doesn't know. Any other member
/// that names the row is left out. Returns an item that is no map unchanged, and `OutOfMemory` if an
/// allocation fails.
#[tactic(auto, using(passkey_kinds::proofs::Members::reads_map))]
pub fn with_row<R: Record>(
    alloc: Global,
    message: &Value,
    number: u8,
    value: &Value,
) -> Result<Value, OutOfMemory>
    ensures { IfOk result (λ v. item_of v ≡ tree_with_row (table_of R.fields) number (item_of value.now)
        (item_of message.now)) }
{
    match message {
        Value::Map(pairs) => {
            let mut members = wanted_among::<R>(alloc, Which::AllBut(number), pairs)?;
            place(alloc, &mut members, &Value::from(number), value)?;
            Ok(Value::Map(members))
        }
        message => message.try_clone(alloc),
    }
}
