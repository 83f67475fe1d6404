//! Looking at a type: what it is decoded from, part by part, and which data items it accepts.
ghost use Rattle.std.specs.Prelude.{◌≡◌, true, IfOk, IfSome};
ghost use Rattle.std.specs.Option.{option_and_then};
ghost use Rattle.passkey_kinds.specs.Look.{AcceptedIf, FoundAs, Looks, says_nothing};
ghost use Rattle.passkey_kinds.specs.RecordReading.{shapes_of};
ghost use Rattle.passkey_kinds.specs.Shape.{reached, row_in};
ghost use Rattle.passkey_kinds.specs.Words.{item_of};

use crate::{FromCbor, OutOfMemory, Record, Refusal, Row, Source, Wanted};
use passkey_cbor::Value;
use std::alloc::Global;

/// What a type is decoded from.
#[derive(Clone, Copy)]
pub enum Form {
    /// A data item as a whole, of which this is wanted.
    Leaf(Wanted),
    /// An array.
    List,
    /// A map whose keys are byte strings.
    Map,
    /// A record: whether its members have numbers, and its rows.
    Record(bool, &'static [Row]),
}

/// What a type is decoded from, and what it makes of a data item.
#[derive(Clone, Copy)]
pub struct Look {
    /// Whether the type accepts the item.
    pub is_accepted: bool,
    /// False where the type tolerates any item, and leaves this one out: `Tolerated` does if the
    /// type inside it refuses the item. True of all other types.
    pub is_kept: bool,
    pub form: Form,
}

/// Returns whether the item was accepted, and otherwise what was seen. Returns `OutOfMemory` if an
/// allocation failed.
pub(crate) fn accepted_if<T: Drop>(
    read: Result<T, Refusal>,
    seen: Look,
) -> Result<Look, OutOfMemory>
    ensures { IfOk result (λ l. AcceptedIf read l.is_accepted × (l.form ≡ seen.form) × (l.is_kept ≡ seen.is_kept)) }
{
    let is_accepted = match read {
        Ok(_) => true,
        Err(Refusal::Refused) => false,
        Err(Refusal::OutOfMemory) => return Err(OutOfMemory),
    };
    Ok(Look {
        is_accepted,
        is_kept: seen.is_kept,
        form: seen.form,
    })
}

/// Returns whether the item was accepted, and the form. Returns `OutOfMemory` if an allocation
/// failed.
pub fn looked<T: Drop>(read: Result<T, Refusal>, form: Form) -> Result<Look, OutOfMemory>
    ensures { IfOk result (λ l. AcceptedIf read l.is_accepted × (l.form ≡ form) × (l.is_kept ≡ true)) }
{
    let kept = Look {
        is_accepted: true,
        is_kept: true,
        form,
    };
    accepted_if(read, kept)
}

/// A data item in memory, at which the type that is decoded from it is looked at.
#[derive(Drop)]
struct Looking<'a> {
    way: &'a [u8],
    value: &'a Value,
    found: Result<Look, OutOfMemory>,
}

impl<'a> Source for Looking<'a> {
    ghost At = { λ l i to. item_of l.value.now ≡ i };

    ghost HasCost = { λ cost keeps shape i to old new ok. IfSome shape (λ s. FoundAs old.way.now s i new.found) };

    ghost IsOnward = { λ old new. Unit {0} };

    ghost IsFurther = { λ old new. Unit {0} };

    ghost stays = { λ cost keeps shape i to s none at. says_nothing _ none };

    ghost still = { λ s. tt };

    ghost at_most = { λ cost keeps shape i to s e spent. spent };

    ghost forget = { λ cost keeps shape i to s e ok spent. tt };

    fn read<T: FromCbor>(&mut self, alloc: Global) -> Result<T, Refusal> {
        self.found = T::look(alloc, self.way, self.value);
        T::from_value(alloc, self.value)
    }

    fn skip(&mut self) -> bool {
        true
    }
}

/// Looks at the type of the row with this number, and the rest of the way into it.
pub(crate) fn look_at_row<R: Record>(
    alloc: Global,
    number: u8,
    way: &[u8],
    value: &Value,
) -> Result<Look, OutOfMemory>
    ensures { Looks (option_and_then (reached way.now) (row_in (shapes_of R.fields.rows) number))
        (item_of value.now) result }
{
    let mut record = R::blank(alloc);
    let mut source = Looking {
        way,
        value,
        found: Err(OutOfMemory),
    };
    let put = record.put(alloc, number, &mut source);
    match way.split_first() {
        None => accepted_if(put, source.found?),
        Some(_) => source.found,
    }
}
