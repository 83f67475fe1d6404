//! What a type wants of a data item.
ghost use Rattle.std.specs.Prelude.{Some};
ghost use Rattle.passkey_kinds.specs.Wanted.{wanted_text};

use std::fmt;

/// What a type wants in place of a data item that it refuses.
#[derive(Clone, Copy, Debug, PartialEq, Eq)]
pub enum Wanted {
    /// False or true.
    Boolean,
    /// An unsigned integer below this number.
    Below(u128),
    /// A size: an integer from 1 to 2^64 - 1.
    Size,
    /// A text string.
    Text,
    /// A text string that is one of the names of the standard.
    Name,
    /// A byte string, an array of integers from 0 to 255, or a text string in base64url or base64.
    Bytes,
    /// A byte string of this length.
    ByteString(usize),
    /// A byte string of this length, or an array of as many integers from 0 to 255.
    SizedBytes(usize),
    /// The identifier of a COSE algorithm.
    Algorithm,
    /// A byte string with authenticator data.
    AuthenticatorData,
    /// An array.
    Array,
    /// A map.
    Map,
    /// Any item but null.
    NotNull,
    /// Any item.
    Any,
}

impl fmt::Display for Wanted {
    ghost output = { λ wanted. Some (wanted_text wanted) };

    fn fmt<W: fmt::Write>(&self, f: &mut fmt::Formatter<W>) -> fmt::Result {
        match self {
            Wanted::Boolean => f.write_str("true or false"),
            Wanted::Below(limit) => write!(f, "an unsigned integer below {limit}"),
            Wanted::Size => f.write_str("an integer from 1 to 18446744073709551615"),
            Wanted::Text => f.write_str("a text string"),
            Wanted::Name => f.write_str("a name that the standard lists"),
            Wanted::Bytes => f.write_str("a byte string"),
            Wanted::ByteString(len) => write!(f, "a byte string of {len} bytes"),
            Wanted::SizedBytes(len) => write!(f, "{len} bytes"),
            Wanted::Algorithm => f.write_str("the identifier of a COSE algorithm"),
            Wanted::AuthenticatorData => f.write_str("a byte string with authenticator data"),
            Wanted::Array => f.write_str("an array"),
            Wanted::Map => f.write_str("a map"),
            Wanted::NotNull => f.write_str("any item but null"),
            Wanted::Any => f.write_str("any item"),
        }
    }
}
