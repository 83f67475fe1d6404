//! COSE algorithm identifiers, decoded from data items and encoded.
ghost use Rattle.std.specs.Prelude.{◌≡◌, ℕ, List, true};
ghost use Rattle.std.specs.Option.{option_and_then};
ghost use Rattle.passkey_kinds.specs.Words.{IsRegion, HoldsString, algorithm_named, algorithm_number, algorithm_tree, AnswersAs};
ghost use Rattle.passkey_kinds.specs.Words.{LooksAtMost, algorithm, whole_64, scalar_of, signed_in};

use crate::head::read_scalar;
use crate::{Form, FromCbor, Look, OutOfMemory, Refusal, ToCbor, Wanted, looked};
use passkey_cbor::{Cursor, Encoder, Head, Integer, TextToken, Value};
use passkey_cose::signed_64;
use passkey_iana::{Algorithm, EnumI64};
use passkey_webauthn::{NumberText, whole_part};
use std::alloc::Global;

fn named(number: Option<i64>) -> Result<Algorithm, Refusal>
    ensures { AnswersAs (λ a. a) (option_and_then algorithm_named number) ⊥ result }
{
    match number {
        Some(number) => Algorithm::from_i64(number).ok_or(Refusal::Refused),
        None => Err(Refusal::Refused),
    }
}

fn integer(head: Option<Head>) -> Option<i64>
    ensures { result ≡ signed_in (scalar_of head) }
{
    match head {
        Some(Head::Unsigned(n)) => i64::try_from(n).ok(),
        Some(Head::Negative(n)) => match i64::try_from(n) {
            Ok(n) => Some(-1 - n),
            Err(_) => None,
        },
        _ => None,
    }
}

/// Returns the whole part of the number in a text string. Returns `None` if the text isn't a
/// number, or if its whole part doesn't fit in `i64`. Joins no chunks in memory.
#[tactic(auto, using(crate::proofs::Lent::adds_none))]
fn whole_of(token: &TextToken<'_>, cursor: &mut Cursor<'_>) -> Option<i64>
    requires { IsRegion true token.now }
    ensures whole { (s : List ℕ) → HoldsString true token.now s → result ≡ whole_64 s }
    ensures looks { LooksAtMost token.now cursor.old cursor.new }
{
    // The count of heads never exceeds this bound, where adding to it stops, so adding never lowers
    // it.
    prove!(cursor.count().heads <= u128::MAX);
    let mut number = NumberText::new();
    let mut pieces = token.chunks();
    while let Some(piece) = pieces.next(cursor) {
        number.push(piece);
    }
    number.whole()
}

impl FromCbor for Algorithm {
    ghost view = { λ a. a };

    ghost typed = { algorithm.typed };

    fn from_value(_alloc: Global, value: &Value) -> Result<Algorithm, Refusal> {
        match value {
            Value::Integer(n) => named(signed_64(*n)),
            Value::Text(text) => named(whole_part(text.as_str())),
            _ => Err(Refusal::Refused),
        }
    }

    fn read(_alloc: Global, cursor: &mut Cursor<'_>) -> Result<Algorithm, Refusal> {
        match cursor.text() {
            Some(token) => named(whole_of(&token, cursor)),
            None => named(integer(read_scalar(cursor))),
        }
    }

    fn look(alloc: Global, _way: &[u8], value: &Value) -> Result<Look, OutOfMemory> {
        looked(
            Algorithm::from_value(alloc, value),
            Form::Leaf(Wanted::Algorithm),
        )
    }
}

fn integer_of(algorithm: Algorithm) -> Integer
    ensures { result ≡ algorithm_number algorithm }
{
    Integer::new(i128::from(algorithm.to_i64())).unwrap()
}

impl ToCbor for Algorithm {
    ghost tree = { algorithm_tree };

    fn to_value(&self, _alloc: Global) -> Result<Value, OutOfMemory> {
        Ok(Value::Integer(integer_of(*self)))
    }

    fn append(&self, _alloc: Global, encoder: &mut Encoder) -> Result<(), OutOfMemory> {
        encoder.integer(integer_of(*self))
    }
}
