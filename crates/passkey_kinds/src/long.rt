//! Unsigned integers of at most 64 bits.
ghost use Rattle.std.specs.Prelude.{◌^◌, ◌<◌};
ghost use Rattle.passkey_kinds.specs.Words.{Answers, below, scalar_of, number_tree};

use crate::head::read_scalar;
use crate::to_cbor::{integer, number};
use crate::{Form, FromCbor, Look, OutOfMemory, ReadBack, Refusal, ToCbor, Wanted, looked};
use passkey_cbor::{Cursor, Encoder, Head, Value};
use std::alloc::Global;

fn long(head: Option<Head>) -> Result<u64, Refusal>
    ensures { Answers (λ n. n) (below (2 ^ 64)) (scalar_of head) result }
{
    match head {
        Some(Head::Unsigned(n)) => Ok(n),
        _ => Err(Refusal::Refused),
    }
}

impl FromCbor for u64 {
    ghost view = { λ n. n };

    ghost typed = { below (2 ^ 64) };

    fn from_value(_alloc: Global, value: &Value) -> Result<u64, Refusal> {
        match value {
            Value::Integer(n) => u64::try_from(n.get()).or(Err(Refusal::Refused)),
            _ => Err(Refusal::Refused),
        }
    }

    fn read(_alloc: Global, cursor: &mut Cursor<'_>) -> Result<u64, Refusal> {
        long(read_scalar(cursor))
    }

    fn look(alloc: Global, _way: &[u8], value: &Value) -> Result<Look, OutOfMemory> {
        looked(
            u64::from_value(alloc, value),
            Form::Leaf(Wanted::Below(18_446_744_073_709_551_616)),
        )
    }
}

impl ToCbor for u64 {
    ghost tree = { number_tree };

    ghost fits = { λ n. n < 2 ^ 64 };

    fn to_value(&self, _alloc: Global) -> Result<Value, OutOfMemory> {
        Ok(number(*self))
    }

    fn append(&self, _alloc: Global, encoder: &mut Encoder) -> Result<(), OutOfMemory> {
        encoder.integer(integer(*self))
    }
}

impl ReadBack for u64 {
    #[tactic(auto, using(crate::proofs::Numbered::long_back))]
    fn read_back() {}
}
