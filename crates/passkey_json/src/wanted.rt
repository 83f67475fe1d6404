//! What types want.
ghost use Rattle.std.specs.Prelude.{Some};
ghost use Rattle.passkey_json.specs.Wanted.{wanted_text};

use std::fmt;

/// What a type wants in place of a JSON value that it refuses.
#[derive(Clone, Copy, Debug, PartialEq, Eq)]
pub enum WantedJson {
    /// False or true.
    Boolean,
    /// False or true, or a text of that.
    BooleanText,
    /// A text.
    Text,
    /// A text that is one of the names of the standard.
    Name,
    /// A text in base64url or base64, or an array of integers from 0 to 255.
    Bytes,
    /// An integer from -2^63 to 2^63 - 1.
    Integer,
    /// An integer from 0 to 2^32 - 1, or a text of one.
    Word,
    /// The identifier of a COSE algorithm, or a text of it.
    Algorithm,
    /// An array.
    Array,
    /// An object.
    Object,
    /// Any value that contains no float.
    NoFloat,
}

impl fmt::Display for WantedJson {
    ghost output = { λ wanted. Some (wanted_text wanted) };

    fn fmt<W: fmt::Write>(&self, f: &mut fmt::Formatter<W>) -> fmt::Result {
        f.write_str(match self {
            WantedJson::Boolean => "true or false",
            WantedJson::BooleanText => "true or false, or a text of that",
            WantedJson::Text => "a text",
            WantedJson::Name => "a name that the standard lists",
            WantedJson::Bytes => "a text in base64url",
            WantedJson::Integer => "an integer",
            WantedJson::Word => "an integer from 0 to 4294967295",
            WantedJson::Algorithm => "the identifier of a COSE algorithm",
            WantedJson::Array => "an array",
            WantedJson::Object => "an object",
            WantedJson::NoFloat => "a value without a float",
        })
    }
}
