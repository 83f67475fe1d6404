//! Arrays of 32 bytes, decoded from data items and encoded as arrays of integers.
ghost use Rattle.std.specs.Prelude.{◌≡◌, ◌==◌, ℕ, [], OnOk, List, length, map, take, if◌then◌else◌, false, Some, None};
ghost use Rattle.passkey_kinds.specs.Words.{Item, HoldsString, IsEncodedAt, Further, Onward, Decodes, LooksAtMost, item_of};
ghost use Rattle.passkey_kinds.specs.Words.{byte_string, Answers, AnswersAs, each, AreBytes, numbers_tree, sized_bytes, filling};
ghost use Rattle.passkey_kinds.specs.Words.{full, numbers_in, MayGrow};
ghost use Rattle.passkey_kinds.specs.Kind.{number_from};

use crate::collect::{Gather, read_elements, read_whole};
use crate::written::{append_each, write_each};
use crate::{Form, FromCbor, Look, OutOfMemory, Refusal, Source, ToCbor, Wanted, looked};
use passkey_cbor::{BytesToken, Cursor, Encoder, Value};
use std::alloc::Global;

/// The first bytes of an array.
#[derive(Drop)]
struct Front {
    bytes: [u8; 32],
    len: usize,
}

impl Gather for Front {
    ghost Value = { List ℕ };

    ghost value = { λ front. take front.len front.bytes };

    ghost gathering = { filling 32 };

    fn add<S: Source>(&mut self, alloc: Global, source: &mut S) -> Result<(), Refusal> {
        if self.len >= 32 {
            return Err(Refusal::Refused);
        }
        self.bytes[self.len] = source.read(alloc)?;
        self.len += 1;
        Ok(())
    }
}

fn no_bytes() -> Front
    ensures { take result.len result.bytes ≡ [] }
{
    Front {
        bytes: [0; 32],
        len: 0,
    }
}

/// Returns all 32 bytes, or `Refused` if there are fewer.
fn whole(front: Front) -> Result<[u8; 32], Refusal>
    ensures { AnswersAs (λ b. b) (full 32 (take front.len front.bytes)) ⊥ result }
{
    if front.len >= 32 {
        Ok(front.bytes)
    } else {
        Err(Refusal::Refused)
    }
}

/// Decodes the bytes from an array of integers. Returns `Refused` exactly if it doesn't have 32
/// elements or one of them isn't an integer from 0 to 255.
fn read_numbers(alloc: Global, elements: &[Value]) -> Result<[u8; 32], Refusal>
    ensures { AnswersAs (λ b. b)
        (if length elements.now == 32 then each (number_from 256) (map item_of elements.now) else None) ⊥ result }
{
    match read_elements(alloc, no_bytes(), elements) {
        Ok(front) => whole(front),
        Err(refusal) => Err(refusal),
    }
}

/// Decodes the bytes from the array of integers at the cursor.
fn read_numbers_here(alloc: Global, cursor: &mut Cursor<'_>) -> Result<[u8; 32], Refusal>
    ensures reads { (i : Item) (to : ℕ) → IsEncodedAt i cursor.old.bytes cursor.old.place to
        → Decodes (λ b. b) (numbers_in 32 i) (MayGrow false i) 2 0 to cursor.old cursor.new result }
    ensures onward { Onward cursor.old cursor.new }
    ensures further { OnOk result (Further cursor.old cursor.new) }
{
    let front = read_whole(alloc, no_bytes(), cursor)?;
    whole(front)
}

/// Copies a byte string of exactly `N` bytes. Returns `Refused` if its length differs.
#[tactic(auto, using(crate::proofs::Lists::tells_one))]
pub(crate) fn filled<const N: usize>(
    token: &BytesToken<'_>,
    cursor: &mut Cursor<'_>,
) -> Result<[u8; N], Refusal>
    ensures answers { (s : List ℕ) → HoldsString false token.now s
        → Answers (λ b. b) (sized_bytes N).typed (byte_string s) result }
    ensures looks { LooksAtMost token.now cursor.old cursor.new }
{
    let mut bytes = [0; N];
    if token.fill(cursor, &mut bytes) {
        Ok(bytes)
    } else {
        Err(Refusal::Refused)
    }
}

impl FromCbor for [u8; 32] {
    ghost view = { λ b. b };

    ghost typed = { (sized_bytes 32).typed };

    #[tactic(auto, using(crate::proofs::Lists::arrays))]
    fn from_value(alloc: Global, value: &Value) -> Result<[u8; 32], Refusal> {
        match value {
            Value::Bytes(bytes) => <[u8; 32]>::try_from(bytes.as_slice()).or(Err(Refusal::Refused)),
            Value::Array(elements) => read_numbers(alloc, elements),
            _ => Err(Refusal::Refused),
        }
    }

    fn read(alloc: Global, cursor: &mut Cursor<'_>) -> Result<[u8; 32], Refusal> {
        match cursor.bytes() {
            Some(token) => filled(&token, cursor),
            None => read_numbers_here(alloc, cursor),
        }
    }

    fn look(alloc: Global, _way: &[u8], value: &Value) -> Result<Look, OutOfMemory> {
        looked(
            <[u8; 32]>::from_value(alloc, value),
            Form::Leaf(Wanted::SizedBytes(32)),
        )
    }
}

impl ToCbor for [u8; 32] {
    ghost tree = { numbers_tree };

    ghost fits = { AreBytes 32 };

    fn to_value(&self, alloc: Global) -> Result<Value, OutOfMemory> {
        Ok(Value::Array(write_each(alloc, self.as_slice())?))
    }

    fn append(&self, alloc: Global, encoder: &mut Encoder) -> Result<(), OutOfMemory> {
        append_each(alloc, self.as_slice(), encoder)
    }
}
