//! Data items that are kept undecoded.
ghost use Rattle.std.specs.Prelude.{◌≡◌, false, IfOk, OnErr, Some, option_map};
ghost use Rattle.passkey_kinds.specs.Words.{Item, item_of, Grows};
ghost use Rattle.passkey_kinds.specs.Numbered.{kept_item, not_null, has_room, IsNotNull};

use crate::{Form, FromCbor, Look, OutOfMemory, Refusal, ToCbor, Wanted, looked};
use passkey_cbor::{Cursor, Encoder, MAX_DEPTH, Value};
use std::alloc::Global;
use std::marker::Model;

/// A data item other than null, which is kept undecoded: a COSE key, or parameters to which another
/// member gives their meaning.
#[derive(Debug, Drop)]
pub struct Kept {
    value: Value,
}

/// Contracts see the item.
impl Model for Kept {
    ghost use Rattle.passkey_kinds.specs.Words.{Item, item_of};
    ghost use Rattle.passkey_kinds.specs.ItemCode.{coded_item};
    ghost use Rattle.passkey_kinds.specs.Numbered.{IsNotNull};

    ghost Value = { Item };

    ghost coded = { coded_item };

    ghost view = { λ k. item_of k.value };

    ghost invariant = { λ k. IsNotNull (item_of k.value) };
}

impl Kept {
    /// Returns the item. Returns `None` exactly if it is null.
    pub fn new(value: Value) -> Option<Kept>
        ensures { result ≡ not_null (item_of value) }
    {
        match value {
            Value::Null => None,
            value => Some(Kept { value }),
        }
    }

    /// Lends the item.
    pub fn value(&self) -> &Value
        ensures { item_of result.now ≡ self.now }
    {
        &self.value
    }

    /// Returns the item.
    pub fn into_value(self) -> Value
        ensures { item_of result ≡ self }
    {
        self.value
    }

    /// Returns an equal item. Returns `OutOfMemory` if an allocation fails, which can only happen
    /// for an item that takes memory.
    pub fn try_clone(&self, alloc: Global) -> Result<Kept, OutOfMemory>
        ensures same { IfOk result (λ copy. copy ≡ self.now) }
        ensures grows { OnErr result (Grows self.now) }
    {
        let value = self.value.try_clone(alloc)?;
        Ok(Kept { value })
    }

    /// Returns whether a message has room for the item: it has fewer than `MAX_DEPTH` nesting levels.
    /// Allocates nothing.
    pub fn has_room(&self) -> bool
        ensures { result ≡ has_room (Some self.now) }
    {
        self.value.depth() <= MAX_DEPTH - 1
    }
}

impl FromCbor for Kept {
    ghost Meaning = { Item };

    ghost view = { λ k. k };

    ghost typed = { kept_item.typed };

    fn from_value(alloc: Global, value: &Value) -> Result<Kept, Refusal> {
        match value {
            Value::Null => Err(Refusal::Refused),
            _ => {
                let value = value.try_clone(alloc)?;
                Ok(Kept { value })
            }
        }
    }

    fn read(alloc: Global, cursor: &mut Cursor<'_>) -> Result<Kept, Refusal> {
        Kept::new(Value::read(alloc, cursor)?).ok_or(Refusal::Refused)
    }

    fn look(alloc: Global, _way: &[u8], value: &Value) -> Result<Look, OutOfMemory> {
        looked(Kept::from_value(alloc, value), Form::Leaf(Wanted::NotNull))
    }
}

impl ToCbor for Kept {
    ghost tree = { λ k. k };

    ghost fits = { IsNotNull };

    fn to_value(&self, alloc: Global) -> Result<Value, OutOfMemory> {
        self.value.try_clone(alloc)
    }

    fn append(&self, _alloc: Global, encoder: &mut Encoder) -> Result<(), OutOfMemory> {
        encoder.item(&self.value)
    }
}
