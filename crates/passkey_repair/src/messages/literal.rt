//! Data items that repairs find and leave.
ghost use Rattle.std.specs.Prelude.{◌≡◌, Some};
ghost use Rattle.passkey_cbor.specs.View.{item_of};
ghost use Rattle.passkey_repair.specs.messages.Texts.{literal_text};
ghost use Rattle.passkey_repair.specs.messages.Views.{literal_item};

use passkey_cbor::Value;
use std::alloc::Global;
use std::fmt;

/// A data item that a repair looks for or leaves.
#[derive(Clone, Copy, Debug, PartialEq, Eq)]
pub enum Literal {
    /// An empty text string.
    EmptyText,
    /// An empty array.
    EmptyArray,
    /// An empty map.
    EmptyMap,
    /// Null.
    Null,
    /// True.
    True,
}

impl Literal {
    /// Returns the data item. Allocates nothing.
    pub fn to_value(self, alloc: Global) -> Value
        ensures { item_of result ≡ literal_item self }
    {
        match self {
            Literal::EmptyText => Value::Text(String::new(alloc)),
            Literal::EmptyArray => Value::Array(Vec::new(alloc)),
            Literal::EmptyMap => Value::Map(Vec::new(alloc)),
            Literal::Null => Value::Null,
            Literal::True => Value::Bool(true),
        }
    }
}

impl fmt::Display for Literal {
    ghost output = { λ l. Some (literal_text l) };

    fn fmt<W: fmt::Write>(&self, f: &mut fmt::Formatter<W>) -> fmt::Result {
        f.write_str(match self {
            Literal::EmptyText => "an empty text",
            Literal::EmptyArray => "an empty array",
            Literal::EmptyMap => "an empty map",
            Literal::Null => "null",
            Literal::True => "true",
        })
    }
}
