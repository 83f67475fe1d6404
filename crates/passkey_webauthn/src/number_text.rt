//! Texts of numbers.
ghost use Rattle.std.specs.Prelude.{◌≡◌, ℕ, List, [], ◌++◌};
ghost use Rattle.passkey_webauthn.specs.NumberState.{IsOf};
ghost use Rattle.passkey_webauthn.specs.NumberText.{whole_64};

use crate::number_state::NumberState;
use std::marker::Model;

/// The text of a number that arrives in pieces: an optional sign, ASCII digits, and optionally a
/// point and ASCII digits, with at least one digit. It takes the same space however long the text
/// is.
#[derive(Drop)]
pub struct NumberText {
    state: NumberState,
}

impl Model for NumberText {
    ghost use Rattle.passkey_webauthn.specs.declared.number_state.NumberState.{NumberState as State};

    ghost Value = { State };

    ghost view = { λ n. n.state };
}

impl NumberText {
    /// Returns the empty text.
    pub fn new() -> NumberText
        ensures { IsOf result [] }
    {
        NumberText {
            state: NumberState::Empty,
        }
    }

    /// Adds a piece to the end of the text.
    pub fn push(&mut self, piece: &str)
        ensures { (text : List ℕ) → IsOf self.old text → IsOf self.new (text ++ piece.now) }
    {
        for byte in piece.as_bytes() {
            self.state = self.state.push(*byte);
        }
    }

    /// Returns the number, rounded towards zero: -1 for `-1.5`. `None` if the text is no number, or
    /// the result doesn't fit in an `i64`.
    pub fn whole(&self) -> Option<i64>
        ensures { (text : List ℕ) → IsOf self.now text → result ≡ whole_64 text }
    {
        self.state.whole()
    }
}

/// Returns the number in the text, rounded towards zero: -1 for `-1.5`. The text is an optional
/// sign, ASCII digits, and optionally a point and ASCII digits, with at least one digit. `None` if
/// it is no such text, or the result doesn't fit in an `i64`.
pub fn whole_part(text: &str) -> Option<i64>
    ensures { result ≡ whole_64 text.now }
{
    let mut number = NumberText::new();
    number.push(text);
    number.whole()
}
