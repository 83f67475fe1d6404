//! Sizes, decoded from data items. They aren't encoded here, since CBOR has no integer above 2^64 -
//! 1.
ghost use Rattle.std.specs.Prelude.{◌≡◌, ℕ, option_map};
ghost use Rattle.std.specs.Int.NonZero.{non_zero_u128_get};
ghost use Rattle.passkey_kinds.specs.Words.{number, Answers, size, scalar_of};
ghost use Rattle.passkey_kinds.specs.Kind.{size_from as size_of};

use crate::head::read_scalar;
use crate::{Form, FromCbor, Look, OutOfMemory, Refusal, Wanted, looked};
use passkey_cbor::{Cursor, Head, Integer, Value};
use std::alloc::Global;
use std::num::NonZeroU128;

fn positive(n: Integer) -> Option<NonZeroU128>
    ensures { option_map non_zero_u128_get result ≡ size_of (number n) }
{
    NonZeroU128::new(u128::try_from(n.get()).ok()?)
}

fn not_zero(head: Option<Head>) -> Result<NonZeroU128, Refusal>
    ensures { Answers non_zero_u128_get size (scalar_of head) result }
{
    match head {
        Some(Head::Unsigned(n)) => NonZeroU128::new(u128::from(n)).ok_or(Refusal::Refused),
        _ => Err(Refusal::Refused),
    }
}

impl FromCbor for NonZeroU128 {
    ghost Meaning = { ℕ };

    ghost view = { non_zero_u128_get };

    ghost typed = { size };

    fn from_value(_alloc: Global, value: &Value) -> Result<NonZeroU128, Refusal> {
        match value {
            Value::Integer(n) => positive(*n).ok_or(Refusal::Refused),
            _ => Err(Refusal::Refused),
        }
    }

    fn read(_alloc: Global, cursor: &mut Cursor<'_>) -> Result<NonZeroU128, Refusal> {
        not_zero(read_scalar(cursor))
    }

    fn look(alloc: Global, _way: &[u8], value: &Value) -> Result<Look, OutOfMemory> {
        looked(
            NonZeroU128::from_value(alloc, value),
            Form::Leaf(Wanted::Size),
        )
    }
}
