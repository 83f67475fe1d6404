//! Values that are decoded from text strings, whatever the text.
ghost use Rattle.std.specs.Prelude.{◌≡◌, ℕ, List, true, IfOk, OnOk};
ghost use Rattle.passkey_kinds.specs.Words.{Item, IsRegion, HoldsString, IsEncodedAt, Onward, Further, ReadsAs, LooksAtMost, Answers, text_string, text_as};
ghost use Rattle.passkey_kinds.specs.Kind.{name_from};

use crate::{OutOfMemory, Refusal};
use passkey_cbor::{Cursor, TextToken};
use std::alloc::Global;

/// A type with a value for each text, such as names of which unknown ones are kept.
pub trait FromText: Drop {
    /// The value of each text.
    ghost of_text: { List ℕ → Self };

    /// Returns the text's value. Returns `OutOfMemory` if an allocation fails.
    fn from_text(alloc: Global, text: &str) -> Result<Self, OutOfMemory>
        ensures { IfOk result (λ v. v ≡ of_text text.now) };
}

/// Returns the value of a text string. Chunks are first joined in memory.
fn text_value<T: FromText>(
    alloc: Global,
    token: &TextToken<'_>,
    cursor: &mut Cursor<'_>,
) -> Result<T, Refusal>
    requires { IsRegion true token.now }
    ensures answers { (s : List ℕ) → HoldsString true token.now s → Answers (λ v. v)
        (text_as (name_from (λ s. Some (T.of_text s)))) (text_string s) result }
    ensures looks { LooksAtMost token.now cursor.old cursor.new }
{
    match token.lent() {
        Some(text) => Ok(T::from_text(alloc, text)?),
        None => {
            let text = token.copy(alloc, cursor)?;
            Ok(T::from_text(alloc, text.as_str())?)
        }
    }
}

/// Decodes the value of the text string at the cursor, and moves past it. Returns `Refused` if no
/// text string is there, and `OutOfMemory` if an allocation fails.
pub fn read_text_value<T: FromText>(alloc: Global, cursor: &mut Cursor<'_>) -> Result<T, Refusal>
    ensures reads { (i : Item) (to : ℕ) → IsEncodedAt i cursor.old.bytes cursor.old.place to
        → ReadsAs (λ v. v) (text_as (name_from (λ s. Some (T.of_text s)))) i to cursor.old cursor.new result }
    ensures onward { Onward cursor.old cursor.new }
    ensures further { OnOk result (Further cursor.old cursor.new) }
{
    match cursor.text() {
        Some(token) => text_value(alloc, &token, cursor),
        None => Err(Refusal::Refused),
    }
}
