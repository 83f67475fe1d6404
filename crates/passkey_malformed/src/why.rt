//! Where and why bytes aren't well-formed.
ghost use Rattle.std.specs.Prelude.{Some};
ghost use Rattle.passkey_malformed.specs.Why.{malformed_text, why_text};

use std::fmt;

/// Why bytes don't begin with a well-formed data item (RFC 8949, section 3 and appendix F).
#[derive(Clone, Copy, Debug, PartialEq, Eq)]
pub enum Why {
    /// The bytes end inside a head, a string, an array, a map or a tag, or before a break.
    CutOff,
    /// The additional information of a head is 28, 29 or 30; or it is 31, and there is no indefinite
    /// length for the major type (section 3, and section 3.2.1).
    ReservedArgument,
    /// A break is where a data item belongs: outside any array and map, after a tag number, or in an
    /// array or a map of definite length (section 3.2.1).
    StrayBreak,
    /// A chunk of a string of indefinite length isn't a string of definite length of the same major
    /// type (section 3.2.3).
    BadChunk,
    /// A text string, or one of its chunks, isn't UTF-8 (section 3.1, major type 3).
    NotUtf8,
    /// Arrays, maps and tags are inside one another at more than 256 levels (section 10).
    TooDeep,
    /// A break is where the value of a key belongs, in a map of indefinite length (section 3.2.2).
    OddMap,
    /// A simple value below 32 is encoded in two bytes (section 3.3).
    BadSimple,
}

impl fmt::Display for Why {
    ghost output = { λ why. Some (why_text why) };

    fn fmt<W: fmt::Write>(&self, f: &mut fmt::Formatter<W>) -> fmt::Result {
        f.write_str(match self {
            Why::CutOff => "the bytes end before the data item does",
            Why::ReservedArgument => "this first byte of a data item is reserved",
            Why::StrayBreak => "a break is where a data item belongs",
            Why::BadChunk => "a chunk isn't a string of known length and of the same kind",
            Why::NotUtf8 => "this text isn't UTF-8",
            Why::TooDeep => "there are more than 256 levels of arrays, maps and tags",
            Why::OddMap => "a break is where the value of a map's last key belongs",
            Why::BadSimple => "a simple value below 32 has two bytes",
        })
    }
}

/// Where and why bytes don't begin with a well-formed data item.
#[derive(Clone, Copy, Debug, PartialEq, Eq)]
pub struct Malformed {
    /// The offset of the head that can't be there; of the content that isn't UTF-8; or, where the
    /// bytes are cut off, their length.
    pub offset: usize,
    /// Why the bytes aren't well-formed.
    pub why: Why,
}

impl fmt::Display for Malformed {
    ghost output = { λ malformed. Some (malformed_text malformed) };

    fn fmt<W: fmt::Write>(&self, f: &mut fmt::Formatter<W>) -> fmt::Result {
        write!(f, "{} (offset {})", self.why, self.offset)
    }
}
