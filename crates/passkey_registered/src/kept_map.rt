//! Maps that are kept undecoded.
ghost use Rattle.std.specs.Prelude.{◌≡◌};
ghost use Rattle.passkey_kinds.specs.Numbered.{has_room};
ghost use Rattle.passkey_kinds.specs.Words.{Item};
ghost use Rattle.passkey_registered.specs.Kept.{IsMap, kept_map, map_from};

use passkey_cbor::{Cursor, Encoder, Value};
use passkey_kinds::{Form, FromCbor, Kept, Look, OutOfMemory, Refusal, ToCbor, Wanted, looked};
use std::alloc::Global;
use std::marker::Model;

/// A map, which is kept undecoded with all of its members: an attestation statement, or extension
/// outputs.
#[derive(Debug, Drop)]
pub struct KeptMap {
    item: Kept,
}

/// Contracts see the item.
impl Model for KeptMap {
    ghost use Rattle.passkey_kinds.specs.Words.{Item};
    ghost use Rattle.passkey_kinds.specs.ItemCode.{coded_item};
    ghost use Rattle.passkey_registered.specs.Kept.{IsMap};

    ghost Value = { Item };

    ghost coded = { coded_item };

    ghost view = { λ m. m.item };

    ghost invariant = { λ m. IsMap m.item };
}

impl KeptMap {
    /// Returns the map. Returns `None` exactly if the item is none.
    pub fn new(item: Kept) -> Option<KeptMap>
        ensures { result ≡ map_from item }
    {
        match item.value() {
            Value::Map(_) => Some(KeptMap { item }),
            _ => None,
        }
    }

    /// Returns the item.
    pub fn into_item(self) -> Kept
        ensures { result ≡ self }
    {
        self.item
    }

    /// Lends the item.
    pub fn item(&self) -> &Kept
        ensures { result.now ≡ self.now }
    {
        &self.item
    }
}

/// Returns whether a message has room for the map, if it is there, as `Kept::has_room`.
pub(crate) fn is_room_for(map: &Option<KeptMap>) -> bool
    ensures { result ≡ has_room map.now }
{
    match map {
        Some(map) => map.item.has_room(),
        None => true,
    }
}

impl FromCbor for KeptMap {
    ghost Meaning = { Item };

    ghost view = { λ m. m };

    ghost typed = { kept_map.typed };

    fn from_value(alloc: Global, value: &Value) -> Result<KeptMap, Refusal> {
        KeptMap::new(Kept::from_value(alloc, value)?).ok_or(Refusal::Refused)
    }

    fn read(alloc: Global, cursor: &mut Cursor<'_>) -> Result<KeptMap, Refusal> {
        KeptMap::new(Kept::read(alloc, cursor)?).ok_or(Refusal::Refused)
    }

    fn look(alloc: Global, _way: &[u8], value: &Value) -> Result<Look, OutOfMemory> {
        looked(KeptMap::from_value(alloc, value), Form::Leaf(Wanted::Map))
    }
}

impl ToCbor for KeptMap {
    ghost tree = { λ m. m };

    ghost fits = { IsMap };

    fn to_value(&self, alloc: Global) -> Result<Value, OutOfMemory> {
        self.item.to_value(alloc)
    }

    fn append(&self, alloc: Global, encoder: &mut Encoder) -> Result<(), OutOfMemory> {
        self.item.append(alloc, encoder)
    }
}
