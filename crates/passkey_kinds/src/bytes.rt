//! Bytes, decoded from byte strings, from arrays of integers, and from text strings in base64url or
//! base64.
ghost use Rattle.std.specs.Prelude.{ℕ, List, true};
ghost use Rattle.passkey_kinds.specs.Words.{IsRegion, HoldsString, LooksAtMost, text_bytes, text_string, Answers, AnswersAs, bytes, pushing, MayGrow, below};

use crate::collect::{Gather, read_elements, read_whole};
use crate::{Form, FromCbor, Look, OutOfMemory, Refusal, Source, Wanted, looked};
use passkey_bytes::{Bytes, BytesFault};
use passkey_cbor::{Cursor, TextToken, Value};
use std::alloc::Global;

/// Decodes a text in base64url or base64. Returns `Refused` if it is neither.
fn read_text(alloc: Global, text: &str) -> Result<Bytes, Refusal>
    ensures { AnswersAs (λ b. b) (text_bytes text.now) (MayGrow true (text_string text.now)) result }
{
    match Bytes::try_from(alloc, text) {
        Ok(bytes) => Ok(bytes),
        Err(BytesFault::NotBase64Encoded(_)) => Err(Refusal::Refused),
        Err(BytesFault::OutOfMemory) => Err(Refusal::OutOfMemory),
    }
}

/// Consecutive bytes.
impl Gather for Bytes {
    ghost Value = { List ℕ };

    ghost value = { λ b. b };

    ghost gathering = { pushing (below 256) };

    fn add<S: Source>(&mut self, alloc: Global, source: &mut S) -> Result<(), Refusal> {
        let byte: u8 = source.read(alloc)?;
        self.as_mut_vec().push(byte)?;
        Ok(())
    }
}

/// Decodes a text string in base64url or base64, with white space allowed around it.
fn read_base64(
    alloc: Global,
    token: &TextToken<'_>,
    cursor: &mut Cursor<'_>,
) -> Result<Bytes, Refusal>
    requires { IsRegion true token.now }
    ensures answers { (s : List ℕ) → HoldsString true token.now s → Answers (λ b. b) bytes.typed (text_string s) result }
    ensures looks { LooksAtMost token.now cursor.old cursor.new }
{
    match token.lent() {
        Some(text) => read_text(alloc, text.trim()),
        None => {
            let text = token.copy(alloc, cursor)?;
            read_text(alloc, text.as_str().trim())
        }
    }
}

impl FromCbor for Bytes {
    ghost view = { λ b. b };

    ghost typed = { bytes.typed };

    #[tactic(auto, using(crate::proofs::Lists::arrays))]
    fn from_value(alloc: Global, value: &Value) -> Result<Bytes, Refusal> {
        match value {
            Value::Bytes(bytes) => Ok(Bytes::from_slice(alloc, bytes)?),
            Value::Array(elements) => read_elements(alloc, Bytes::empty(alloc), elements),
            Value::Text(text) => read_text(alloc, text.as_str().trim()),
            _ => Err(Refusal::Refused),
        }
    }

    fn read(alloc: Global, cursor: &mut Cursor<'_>) -> Result<Bytes, Refusal> {
        if let Some(token) = cursor.bytes() {
            return Ok(Bytes::from(token.copy(alloc, cursor)?));
        }
        if let Some(token) = cursor.text() {
            return read_base64(alloc, &token, cursor);
        }
        read_whole(alloc, Bytes::empty(alloc), cursor)
    }

    fn look(alloc: Global, _way: &[u8], value: &Value) -> Result<Look, OutOfMemory> {
        looked(Bytes::from_value(alloc, value), Form::Leaf(Wanted::Bytes))
    }
}
