//! Map keys on the way to what is repaired.
ghost use Rattle.std.specs.Prelude.{◌≡◌, Some};
ghost use Rattle.passkey_cbor.specs.Same.{item_eq};
ghost use Rattle.passkey_cbor.specs.View.{item_of};
ghost use Rattle.passkey_repair.specs.messages.Texts.{key_text};
ghost use Rattle.passkey_repair.specs.messages.Views.{key_item};

use passkey_cbor::Value;
use std::fmt;

/// A map key on the way to what is repaired.
#[derive(Clone, Copy, Debug, PartialEq, Eq)]
pub enum Key {
    /// An integer, the number of a member with this name. The name is only for display.
    Number(u8, &'static str),
    /// A text string: a member's name.
    Name(&'static str),
}

impl Key {
    /// Returns whether the data item is this key.
    pub fn is(&self, value: &Value) -> bool
        ensures { result ≡ item_eq (item_of value.now) (key_item self.now) }
    {
        match (value, self) {
            (Value::Integer(n), Key::Number(number, _)) => n.get() == i128::from(*number),
            (Value::Text(text), Key::Name(name)) => text.as_str() == *name,
            _ => false,
        }
    }
}

impl fmt::Display for Key {
    ghost output = { λ k. Some (key_text k) };

    fn fmt<W: fmt::Write>(&self, f: &mut fmt::Formatter<W>) -> fmt::Result {
        match self {
            Key::Number(_, name) | Key::Name(name) => f.write_str(name),
        }
    }
}
