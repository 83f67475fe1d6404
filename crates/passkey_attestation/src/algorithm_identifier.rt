//! COSE algorithm identifiers, registered or not.
ghost use Rattle.std.specs.Prelude.{◌≡◌, true};
ghost use Rattle.passkey_attestation.specs.AlgorithmIdentifier.{identifier_tree, signed};
ghost use Rattle.passkey_iana.specs.Signed64.{is_signed_64};
ghost use Rattle.passkey_kinds.specs.Words.{Answers, scalar_of};

use passkey_cbor::{Cursor, Encoder, Head, Integer, Value};
use passkey_cose::signed_64;
use passkey_kinds::{
    Form, FromCbor, Look, OutOfMemory, Refusal, ToCbor, Wanted, looked, read_scalar,
};
use std::alloc::Global;

/// A COSEAlgorithmIdentifier (WebAuthn Level 3, section 5.8.5): a number of IANA's registry of COSE
/// algorithms, or any other signed 64-bit integer.
#[derive(Clone, Copy, Debug, PartialEq, Eq)]
pub struct AlgorithmIdentifier(pub i64);

fn identifier(head: Option<Head>) -> Result<AlgorithmIdentifier, Refusal>
    ensures { Answers (λ a. a) signed (scalar_of head) result }
{
    let number = match head {
        Some(Head::Unsigned(n)) => i64::try_from(n).ok(),
        Some(Head::Negative(n)) => match i64::try_from(n) {
            Ok(n) => Some(-1 - n),
            Err(_) => None,
        },
        _ => None,
    };
    match number {
        Some(number) => Ok(AlgorithmIdentifier(number)),
        None => Err(Refusal::Refused),
    }
}

fn integer(identifier: AlgorithmIdentifier) -> Integer
    ensures value { result ≡ identifier.0 }
    ensures fits { is_signed_64 identifier.0 ≡ true }
{
    Integer::new(i128::from(identifier.0)).unwrap()
}

impl FromCbor for AlgorithmIdentifier {
    ghost view = { λ a. a };

    ghost typed = { signed };

    fn from_value(_alloc: Global, value: &Value) -> Result<AlgorithmIdentifier, Refusal> {
        match value {
            Value::Integer(n) => match signed_64(*n) {
                Some(number) => Ok(AlgorithmIdentifier(number)),
                None => Err(Refusal::Refused),
            },
            _ => Err(Refusal::Refused),
        }
    }

    fn read(_alloc: Global, cursor: &mut Cursor<'_>) -> Result<AlgorithmIdentifier, Refusal> {
        identifier(read_scalar(cursor))
    }

    fn look(alloc: Global, _way: &[u8], value: &Value) -> Result<Look, OutOfMemory> {
        looked(
            AlgorithmIdentifier::from_value(alloc, value),
            Form::Leaf(Wanted::Algorithm),
        )
    }
}

impl ToCbor for AlgorithmIdentifier {
    ghost tree = { identifier_tree };

    ghost fits = { λ a. is_signed_64 a.0 ≡ true };

    fn to_value(&self, _alloc: Global) -> Result<Value, OutOfMemory> {
        Ok(Value::Integer(integer(*self)))
    }

    fn append(&self, _alloc: Global, encoder: &mut Encoder) -> Result<(), OutOfMemory> {
        encoder.integer(integer(*self))
    }
}
