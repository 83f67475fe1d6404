//! Values that are decoded from data items.
ghost use Rattle.std.specs.Prelude.{◌≡◌, ◌^◌, ℕ, Option, option_map, OnOk, is_ok, true};
ghost use Rattle.passkey_kinds.specs.Look.{Looks, tested};
ghost use Rattle.passkey_kinds.specs.Shape.{reached};
ghost use Rattle.passkey_kinds.specs.Words.{tolerated, Item, IsEncodedAt, item_of, Answers, Typed, CountsKept, Onward, Further};
ghost use Rattle.passkey_kinds.specs.Words.{ReadsAs, truth, below, text, item, optional, scalar_of};

use crate::head::read_scalar;
use crate::look::accepted_if;
use crate::{Form, Look, OutOfMemory, Refusal, Wanted, looked};
use passkey_bytes::Text;
use passkey_cbor::{CborError, Cursor, Head, Value};
use std::alloc::Global;

/// A type whose values are decoded from data items, in memory or at a cursor.
pub trait FromCbor: Drop {
    /// What contracts see of a value.
    ghost Meaning: { Type 0 } = { Self };

    ghost view: { Self → Meaning };

    /// The value that each data item decodes to, if it decodes to one; whether decoding may take
    /// memory; the most heads that `read` decodes for each byte of the data item; the data items
    /// that it makes as values at most, and counts at least if it accepts the item: those that the
    /// result keeps, and in authenticator data those for the credential public key and the extensions,
    /// with their heads; and what it is decoded from, part by part.
    ghost typed: { Typed Meaning };

    /// Decodes the value from a data item. Returns `Refused` exactly if the type doesn't accept the
    /// item, and `OutOfMemory` if an allocation fails, which can only happen for a tag, a text
    /// string, or a byte string, array or map that isn't empty.
    fn from_value(alloc: Global, value: &Value) -> Result<Self, Refusal>
        ensures { Answers view typed (item_of value.now) result };

    /// Decodes the data item at the cursor, head by head and without building it, and moves past
    /// it. If a well-formed item of at most 256 nesting levels is there, the result is one that
    /// `from_value` may return for it. After an error the cursor may be anywhere in the item, and
    /// its counts include what was spent.
    fn read(alloc: Global, cursor: &mut Cursor<'_>) -> Result<Self, Refusal>
        ensures reads { (i : Item) (to : ℕ) → IsEncodedAt i cursor.old.bytes cursor.old.place to
            → ReadsAs view typed i to cursor.old cursor.new result }

        // Whatever the bytes are, the cursor doesn't move back, and its counts don't fall.
        ensures onward { Onward cursor.old cursor.new }

        // After a success it moved on by whole heads, and counted at least as many.
        ensures further { OnOk result (Further cursor.old cursor.new) }

        // After a success it counted what the type keeps of the item.
        ensures counts { (i : Item) (to : ℕ) → IsEncodedAt i cursor.old.bytes cursor.old.place to
            → is_ok result ≡ true → CountsKept typed.keeps i cursor.old cursor.new };

    /// Returns what the part of the type to which the way leads is decoded from, and whether it
    /// accepts the data item, and keeps it. For each list and map on the way there is any number,
    /// which leads to its elements or values, and for each record the number of a row, which leads
    /// to its value; an empty way leads to the type itself. Nothing is promised for a way that leads nowhere. Returns
    /// `OutOfMemory` if an allocation fails.
    fn look(alloc: Global, way: &[u8], value: &Value) -> Result<Look, OutOfMemory>
        ensures { Looks (reached way.now (tested typed)) (item_of value.now) result };
}

fn truth_of(head: Option<Head>) -> Result<bool, Refusal>
    ensures { Answers (λ b. b) truth.typed (scalar_of head) result }
{
    match head {
        Some(Head::Simple(20)) => Ok(false),
        Some(Head::Simple(21)) => Ok(true),
        _ => Err(Refusal::Refused),
    }
}

fn byte(head: Option<Head>) -> Result<u8, Refusal>
    ensures { Answers (λ n. n) (below (2 ^ 8)) (scalar_of head) result }
{
    match head {
        Some(Head::Unsigned(n)) => u8::try_from(n).or(Err(Refusal::Refused)),
        _ => Err(Refusal::Refused),
    }
}

fn word(head: Option<Head>) -> Result<u32, Refusal>
    ensures { Answers (λ n. n) (below (2 ^ 32)) (scalar_of head) result }
{
    match head {
        Some(Head::Unsigned(n)) => u32::try_from(n).or(Err(Refusal::Refused)),
        _ => Err(Refusal::Refused),
    }
}

impl FromCbor for bool {
    ghost view = { λ b. b };

    ghost typed = { truth.typed };

    fn from_value(_alloc: Global, value: &Value) -> Result<bool, Refusal> {
        match value {
            Value::Bool(b) => Ok(*b),
            _ => Err(Refusal::Refused),
        }
    }

    fn read(_alloc: Global, cursor: &mut Cursor<'_>) -> Result<bool, Refusal> {
        truth_of(read_scalar(cursor))
    }

    fn look(alloc: Global, _way: &[u8], value: &Value) -> Result<Look, OutOfMemory> {
        looked(bool::from_value(alloc, value), Form::Leaf(Wanted::Boolean))
    }
}

impl FromCbor for u8 {
    ghost view = { λ n. n };

    ghost typed = { below (2 ^ 8) };

    fn from_value(_alloc: Global, value: &Value) -> Result<u8, Refusal> {
        match value {
            Value::Integer(n) => u8::try_from(n.get()).or(Err(Refusal::Refused)),
            _ => Err(Refusal::Refused),
        }
    }

    fn read(_alloc: Global, cursor: &mut Cursor<'_>) -> Result<u8, Refusal> {
        byte(read_scalar(cursor))
    }

    fn look(alloc: Global, _way: &[u8], value: &Value) -> Result<Look, OutOfMemory> {
        looked(u8::from_value(alloc, value), Form::Leaf(Wanted::Below(256)))
    }
}

impl FromCbor for u32 {
    ghost view = { λ n. n };

    ghost typed = { below (2 ^ 32) };

    fn from_value(_alloc: Global, value: &Value) -> Result<u32, Refusal> {
        match value {
            Value::Integer(n) => u32::try_from(n.get()).or(Err(Refusal::Refused)),
            _ => Err(Refusal::Refused),
        }
    }

    fn read(_alloc: Global, cursor: &mut Cursor<'_>) -> Result<u32, Refusal> {
        word(read_scalar(cursor))
    }

    fn look(alloc: Global, _way: &[u8], value: &Value) -> Result<Look, OutOfMemory> {
        looked(
            u32::from_value(alloc, value),
            Form::Leaf(Wanted::Below(4_294_967_296)),
        )
    }
}

impl FromCbor for Text {
    ghost view = { λ t. t };

    ghost typed = { text.typed };

    fn from_value(alloc: Global, value: &Value) -> Result<Text, Refusal> {
        match value {
            Value::Text(text) => Ok(Text::from_str(alloc, text.as_str())?),
            _ => Err(Refusal::Refused),
        }
    }

    fn read(alloc: Global, cursor: &mut Cursor<'_>) -> Result<Text, Refusal> {
        match cursor.text() {
            Some(token) => Ok(Text::from(token.copy(alloc, cursor)?)),
            None => Err(Refusal::Refused),
        }
    }

    fn look(alloc: Global, _way: &[u8], value: &Value) -> Result<Look, OutOfMemory> {
        looked(Text::from_value(alloc, value), Form::Leaf(Wanted::Text))
    }
}

impl FromCbor for Value {
    ghost Meaning = { Item };

    ghost view = { item_of };

    ghost typed = { item.typed };

    fn from_value(alloc: Global, value: &Value) -> Result<Value, Refusal> {
        Ok(value.try_clone(alloc)?)
    }

    #[tactic(auto, using(crate::proofs::Cursor::value_further))]
    fn read(alloc: Global, cursor: &mut Cursor<'_>) -> Result<Value, Refusal> {
        match cursor.value_ahead(alloc) {
            Ok(value) => Ok(value),
            Err(CborError::OutOfMemory) => Err(Refusal::OutOfMemory),
            Err(CborError::DecodeFailed) => Err(Refusal::Refused),
            Err(CborError::OutOfRangeIntegerValue) => Err(Refusal::Refused),
        }
    }

    fn look(alloc: Global, _way: &[u8], value: &Value) -> Result<Look, OutOfMemory> {
        looked(Value::from_value(alloc, value), Form::Leaf(Wanted::Any))
    }
}

impl<T: FromCbor> FromCbor for Option<T> {
    ghost Meaning = { Option T.Meaning };

    ghost view = { λ o. option_map T.view o };

    ghost typed = { optional T.typed };

    fn from_value(alloc: Global, value: &Value) -> Result<Option<T>, Refusal> {
        match value {
            Value::Null => Ok(None),
            _ => Ok(Some(T::from_value(alloc, value)?)),
        }
    }

    #[tactic(auto, using(crate::proofs::Cursor::skip_further))]
    fn read(alloc: Global, cursor: &mut Cursor<'_>) -> Result<Option<T>, Refusal> {
        if cursor.null() {
            return Ok(None);
        }
        Ok(Some(T::read(alloc, cursor)?))
    }

    fn look(alloc: Global, way: &[u8], value: &Value) -> Result<Look, OutOfMemory> {
        let look = T::look(alloc, way, value)?;
        match way.split_first() {
            None => accepted_if(<Option<T>>::from_value(alloc, value), look),
            Some(_) => Ok(look),
        }
    }
}

/// A value, or `None` if the type doesn't accept the data item. Running out of memory is still an
/// error.
#[derive(Debug, Drop)]
pub struct Tolerated<T>(pub Option<T>);

impl<T: FromCbor> FromCbor for Tolerated<T> {
    ghost Meaning = { Option T.Meaning };

    ghost view = { λ t. option_map T.view t.0 };

    ghost typed = { tolerated T.typed };

    fn from_value(alloc: Global, value: &Value) -> Result<Tolerated<T>, Refusal> {
        match T::from_value(alloc, value) {
            Ok(read) => Ok(Tolerated(Some(read))),
            Err(Refusal::Refused) => Ok(Tolerated(None)),
            Err(Refusal::OutOfMemory) => Err(Refusal::OutOfMemory),
        }
    }

    #[tactic(auto, using(crate::proofs::Cursor::skip_further))]
    fn read(alloc: Global, cursor: &mut Cursor<'_>) -> Result<Tolerated<T>, Refusal> {
        let start = cursor.place();
        match T::read(alloc, cursor) {
            Ok(read) => Ok(Tolerated(Some(read))),
            Err(Refusal::Refused) => {
                cursor.go_back(start);
                if cursor.skip() {
                    Ok(Tolerated(None))
                } else {
                    Err(Refusal::Refused)
                }
            }
            Err(Refusal::OutOfMemory) => Err(Refusal::OutOfMemory),
        }
    }

    fn look(alloc: Global, way: &[u8], value: &Value) -> Result<Look, OutOfMemory> {
        let look = T::look(alloc, way, value)?;
        match way.split_first() {
            None => Ok(Look {
                is_accepted: true,
                is_kept: look.is_accepted && look.is_kept,
                form: look.form,
            }),
            Some(_) => Ok(look),
        }
    }
}
