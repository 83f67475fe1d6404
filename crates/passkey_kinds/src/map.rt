//! Maps from byte strings, decoded from CBOR maps and encoded as CBOR maps.
ghost use Rattle.std.specs.Prelude.{◌≡◌, ◌<◌, length, map, IfOk, OnOk};
ghost use Rattle.std.specs.List.{All};
ghost use Rattle.std.specs.List.Sorted.{IsPermutation};
ghost use Rattle.std.specs.Map.Iter.{deref_pair};
ghost use Rattle.passkey_kinds.specs.Words.{ByteMap, item_of, pair_of, AnswersAs, Item, byte_map_tree, entering, map_values};
ghost use Rattle.passkey_kinds.specs.Words.{with_members, short_first, entry_tree, map_from_bytes};
ghost use Rattle.std.specs.FinMap as fin;

use crate::collect::{Collect, read_whole};
use crate::head::read_map;
use crate::{Form, FromCbor, Look, OutOfMemory, Refusal, ToCbor, looked};
use passkey_bytes::{Bytes, Map};
use passkey_cbor::{Cursor, Value};
use std::alloc::Global;

fn read_entries<T: FromCbor>(
    alloc: Global,
    pairs: &[(Value, Value)],
) -> Result<Map<Bytes, T>, Refusal>
    ensures { AnswersAs (λ m. map_values T.view m) (with_members T.typed.of fin.empty (map pair_of pairs.now))
        (0 < length pairs.now) result }
{
    let mut read = Map::empty(alloc);
    for (key, value) in pairs {
        read.insert(Bytes::from_value(alloc, key)?, T::from_value(alloc, value)?)?;
    }
    Ok(read)
}

impl<T: FromCbor> Collect for Map<Bytes, T> {
    ghost Element = { Item × Item };

    ghost Value = { ByteMap T.Meaning };

    ghost value = { λ m. map_values T.view m };

    ghost way = { entering T.typed };

    fn start(cursor: &mut Cursor<'_>) -> Option<Option<u64>> {
        read_map(cursor)
    }

    fn add(&mut self, alloc: Global, cursor: &mut Cursor<'_>) -> Result<(), Refusal> {
        let key = Bytes::read(alloc, cursor)?;
        self.insert(key, T::read(alloc, cursor)?)?;
        Ok(())
    }
}

impl<T: FromCbor> FromCbor for Map<Bytes, T> {
    ghost Meaning = { ByteMap T.Meaning };

    ghost view = { λ m. map_values T.view m };

    ghost typed = { map_from_bytes T.typed };

    #[tactic(auto, using(crate::proofs::Lists::arrays))]
    fn from_value(alloc: Global, value: &Value) -> Result<Map<Bytes, T>, Refusal> {
        match value {
            Value::Map(pairs) => read_entries(alloc, pairs),
            _ => Err(Refusal::Refused),
        }
    }

    fn read(alloc: Global, cursor: &mut Cursor<'_>) -> Result<Map<Bytes, T>, Refusal> {
        read_whole(alloc, Map::empty(alloc), cursor)
    }

    fn look(alloc: Global, way: &[u8], value: &Value) -> Result<Look, OutOfMemory> {
        match way.split_first() {
            None => looked(<Map<Bytes, T>>::from_value(alloc, value), Form::Map),
            Some((_, rest)) => T::look(alloc, rest, value),
        }
    }
}

// Returns the entries in CTAP2's order of their keys.
fn in_order<'a, T>(
    alloc: Global,
    entries: &'a Map<Bytes, T>,
) -> Result<Vec<(&'a Bytes, &'a T)>, OutOfMemory>
    ensures sorted { IfOk result (λ sorted. map deref_pair sorted.items ≡ short_first (fin.entries entries.now)) }
    ensures moved { IfOk result (λ sorted. IsPermutation (fin.entries entries.now) (map deref_pair sorted.items)) }
{
    let mut sorted: Vec<(&'a Bytes, &'a T)> = entries.iter().collect(alloc)?;
    sorted.sort_unstable_by_key(|(key, _)| (key.len(), *key));
    Ok(sorted)
}

fn write_entries<T: ToCbor>(
    alloc: Global,
    entries: &[(&Bytes, &T)],
) -> Result<Vec<(Value, Value)>, OutOfMemory>
    ensures trees { IfOk result
        (λ pairs. map pair_of pairs.items ≡ map (entry_tree T.tree) (map deref_pair entries.now)) }
    ensures fits { OnOk result (All (λ e. T.fits e.1) (map deref_pair entries.now)) }
{
    let mut pairs = Vec::with_capacity(alloc, entries.len())?;
    for (key, value) in entries {
        let key = Vec::from_slice(alloc, key.as_slice())?;
        let value = value.to_value(alloc)?;
        pairs.push((Value::Bytes(key), value))?;
    }
    Ok(pairs)
}

impl<T: ToCbor> ToCbor for Map<Bytes, T> {
    ghost tree = { λ m. byte_map_tree T.tree m };

    ghost fits = { λ m. All (λ e. T.fits e.1) (fin.entries m) };

    fn to_value(&self, alloc: Global) -> Result<Value, OutOfMemory> {
        let entries = in_order(alloc, self)?;
        Ok(Value::Map(write_entries(alloc, &entries)?))
    }
}
