//! Values that are decoded from data items of their own type alone.
ghost use Rattle.std.specs.Prelude.{◌≡◌, ℕ, List, Some, is_ok, option_map, OnOk};
ghost use Rattle.passkey_kinds.specs.Kind.{nothing};
ghost use Rattle.passkey_kinds.specs.Words.{Item, Sets};
ghost use Rattle.passkey_registered.specs.Exact.{exact_bytes, present};

use passkey_bytes::Bytes;
use passkey_cbor::{Cursor, Value};
use passkey_kinds::{Form, FromCbor, Look, OutOfMemory, Refusal, Source, Wanted, looked};
use std::alloc::Global;

/// A byte string. Unlike `Bytes`, it is decoded neither from an array nor from a text.
#[derive(Drop)]
pub(crate) struct ExactBytes(Bytes);

impl ExactBytes {
    pub(crate) fn as_slice(&self) -> &[u8]
        ensures { result.now ≡ self.now.0 }
    {
        self.0.as_slice()
    }

    pub(crate) fn into_bytes(self) -> Bytes
        ensures { result ≡ self.0 }
    {
        self.0
    }
}

impl FromCbor for ExactBytes {
    ghost Meaning = { List ℕ };

    ghost view = { λ b. b.0 };

    ghost typed = { exact_bytes.typed };

    fn from_value(alloc: Global, value: &Value) -> Result<ExactBytes, Refusal> {
        match value {
            Value::Bytes(bytes) => Ok(ExactBytes(Bytes::from_slice(alloc, bytes)?)),
            _ => Err(Refusal::Refused),
        }
    }

    fn read(alloc: Global, cursor: &mut Cursor<'_>) -> Result<ExactBytes, Refusal> {
        match cursor.bytes() {
            Some(token) => Ok(ExactBytes(Bytes::from(token.copy(alloc, cursor)?))),
            None => Err(Refusal::Refused),
        }
    }

    fn look(alloc: Global, _way: &[u8], value: &Value) -> Result<Look, OutOfMemory> {
        looked(
            ExactBytes::from_value(alloc, value),
            Form::Leaf(Wanted::Bytes),
        )
    }
}

/// Decodes the item into the field. Returns `Refused` exactly if it isn't a byte string, and
/// `OutOfMemory` if an allocation fails.
pub(crate) fn set_bytes<S: Source>(
    field: &mut Bytes,
    alloc: Global,
    source: &mut S,
) -> Result<(), Refusal>
    ensures sets { (i : Item) (to : ℕ) → S.At source.old i to → Sets (λ b. b) exact_bytes.typed i field.new result }
    ensures spends { (i : Item) (to : ℕ) → S.At source.old i to
        → S.HasCost 2 nothing (Some exact_bytes.typed.shape) i to source.old source.new (is_ok result) }
    ensures onward { S.IsOnward source.old source.new }
    ensures further { OnOk result (S.IsFurther source.old source.new) }
{
    let bytes: ExactBytes = source.read(alloc)?;
    *field = bytes.0;
    Ok(())
}

/// Does the same for a field that is optional. Null is refused, too.
pub(crate) fn set_present_bytes<S: Source>(
    field: &mut Option<Bytes>,
    alloc: Global,
    source: &mut S,
) -> Result<(), Refusal>
    ensures sets { (i : Item) (to : ℕ) → S.At source.old i to
        → Sets (λ o. o) (present exact_bytes.typed) i field.new result }
    ensures spends { (i : Item) (to : ℕ) → S.At source.old i to
        → S.HasCost 2 nothing (Some exact_bytes.typed.shape) i to source.old source.new (is_ok result) }
    ensures onward { S.IsOnward source.old source.new }
    ensures further { OnOk result (S.IsFurther source.old source.new) }
{
    let bytes: ExactBytes = source.read(alloc)?;
    *field = Some(bytes.0);
    Ok(())
}

/// Decodes the item into the field of an optional member. Returns `Refused` exactly if the type
/// doesn't accept the item: null doesn't stand for an absent member. Returns `OutOfMemory` if an
/// allocation fails, which can only happen for an item that takes memory.
pub(crate) fn set_present<T: FromCbor, S: Source>(
    field: &mut Option<T>,
    alloc: Global,
    source: &mut S,
) -> Result<(), Refusal>
    ensures sets { (i : Item) (to : ℕ) → S.At source.old i to
        → Sets (option_map T.view) (present T.typed) i field.new result }
    ensures spends { (i : Item) (to : ℕ) → S.At source.old i to
        → S.HasCost T.typed.cost T.typed.keeps (Some T.typed.shape) i to source.old source.new (is_ok result) }
    ensures onward { S.IsOnward source.old source.new }
    ensures further { OnOk result (S.IsFurther source.old source.new) }
{
    let value: T = source.read(alloc)?;
    *field = Some(value);
    Ok(())
}
