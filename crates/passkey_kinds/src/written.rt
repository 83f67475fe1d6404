//! Lists and maps to encode.
ghost use Rattle.std.specs.Prelude.{◌≡◌, ◌++◌, [], map, IfOk, OnOk};
ghost use Rattle.std.specs.List.{All};
ghost use Rattle.passkey_kinds.specs.Words.{encoding, item_of, IsWritable, written, Members, list_tree, map_tree, members_of, append_member};

use crate::{OutOfMemory, Sink, ToCbor};
use passkey_bytes::List;
use passkey_cbor::{Encoder, Value};
use std::alloc::Global;

pub(crate) fn write_each<T: ToCbor>(alloc: Global, list: &[T]) -> Result<Vec<Value>, OutOfMemory>
    ensures trees { IfOk result (λ vs. map item_of vs.items ≡ map T.tree list.now) }
    ensures fits { OnOk result (All T.fits list.now) }
{
    let mut values = Vec::with_capacity(alloc, list.len())?;
    for value in list {
        values.push(value.to_value(alloc)?)?;
    }
    Ok(values)
}

pub(crate) fn append_each<T: ToCbor>(
    alloc: Global,
    list: &[T],
    encoder: &mut Encoder,
) -> Result<(), OutOfMemory>
    ensures written { OnOk result (encoding encoder.new ≡ encoding encoder.old ++ written (list_tree T.tree list.now)) }
    ensures writable { OnOk result (IsWritable (list_tree T.tree list.now)) }
    ensures fits { OnOk result (All T.fits list.now) }
{
    encoder.array_head(list.len())?;
    for value in list {
        value.append(alloc, encoder)?;
    }
    Ok(())
}

impl<T: ToCbor> ToCbor for List<T> {
    ghost tree = { λ xs. list_tree T.tree xs };

    ghost fits = { λ xs. All T.fits xs };

    fn to_value(&self, alloc: Global) -> Result<Value, OutOfMemory> {
        Ok(Value::Array(write_each(alloc, self.as_slice())?))
    }

    fn append(&self, alloc: Global, encoder: &mut Encoder) -> Result<(), OutOfMemory> {
        append_each(alloc, self.as_slice(), encoder)
    }
}

/// The members of a map, in the order in which they are encoded.
#[derive(Drop)]
pub struct MapBuilder {
    members: Vec<(Value, Value)>,
}

impl MapBuilder {
    /// Returns no members. Allocates nothing.
    pub fn new(alloc: Global) -> MapBuilder
        ensures { members_of result ≡ [] }
    {
        MapBuilder {
            members: Vec::new(alloc),
        }
    }

    /// Returns the map of the members.
    pub fn into_value(self) -> Value
        ensures { item_of result ≡ map_tree (members_of self) }
    {
        Value::Map(self.members)
    }
}

impl Sink for MapBuilder {
    ghost State = { Members };

    ghost state = { members_of };

    ghost step = { append_member };

    ghost Accepts = { λ _. Unit {0} };

    ghost Encodes = { Unit {0} };

    #[tactic(auto, unfolding(crate::specs::Tree::put_one))]
    fn put<K: ToCbor + Drop, T: ToCbor>(
        &mut self,
        alloc: Global,
        key: K,
        value: &T,
    ) -> Result<(), OutOfMemory> {
        let member = (key.to_value(alloc)?, value.to_value(alloc)?);
        self.members.push(member)?;
        Ok(())
    }
}
