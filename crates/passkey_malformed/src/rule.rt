//! The rules of CTAP2's canonical form.
ghost use Rattle.std.specs.Prelude.{◌≡◌, Some};
ghost use Rattle.passkey_malformed.specs.Rules.{not_canonical_text, rule_number, rule_text};

use crate::why::Why;
use std::fmt;

/// A rule of CTAP2's canonical form (CTAP 2.2, section 8).
#[derive(Clone, Copy, Debug, PartialEq, Eq)]
pub enum Rule {
    /// The bytes are well-formed (RFC 8949, section 3). Where they aren't, this is why.
    WellFormed(Why),
    /// Each integer and each length has its shortest encoding.
    ShortestHead,
    /// Strings, arrays and maps have a definite length.
    DefiniteLength,
    /// There are no tags.
    NoTag,
    /// There is no undefined, which is encoded as null.
    NoUndefined,
    /// Each key of a map comes after the key before it, in CTAP2's order (`ctap2_order`).
    AscendingKeys,
    /// No key of a map equals the key before it.
    DistinctKeys,
    /// Arrays and maps are inside one another at no more levels than are allowed.
    Levels,
    /// No bytes follow the data item.
    NothingAfter,
}

impl Rule {
    /// The rule's number in C, from 1 on.
    pub fn number(self) -> u8
        ensures { result ≡ rule_number self }
    {
        match self {
            Rule::WellFormed(_) => 1,
            Rule::ShortestHead => 2,
            Rule::DefiniteLength => 3,
            Rule::NoTag => 4,
            Rule::NoUndefined => 5,
            Rule::AscendingKeys => 6,
            Rule::DistinctKeys => 7,
            Rule::Levels => 8,
            Rule::NothingAfter => 9,
        }
    }
}

impl fmt::Display for Rule {
    ghost output = { λ rule. Some (rule_text rule) };

    fn fmt<W: fmt::Write>(&self, f: &mut fmt::Formatter<W>) -> fmt::Result {
        match self {
            Rule::WellFormed(why) => write!(f, "{why}"),
            Rule::ShortestHead => f.write_str(
                "this number or length could be encoded in fewer bytes",
            ),
            Rule::DefiniteLength => f.write_str(
                "this string, array or map has an indefinite length",
            ),
            Rule::NoTag => f.write_str("a tag is here"),
            Rule::NoUndefined => f.write_str("undefined is here"),
            Rule::AscendingKeys => f.write_str(
                "this key of a map belongs before the key before it",
            ),
            Rule::DistinctKeys => f.write_str("this key of a map is there twice"),
            Rule::Levels => f.write_str("this array or map is inside more others than are allowed"),
            Rule::NothingAfter => f.write_str("bytes follow the data item"),
        }
    }
}

/// Where bytes aren't in CTAP2's canonical form, and by which rule.
#[derive(Clone, Copy, Debug, PartialEq, Eq)]
pub struct NotCanonical {
    /// The offset of the head that breaks the rule: of a key that isn't in its place, its own. Of bytes
    /// that aren't well-formed, that of `Malformed`. Of trailing bytes, that of the first.
    pub offset: usize,
    /// The rule that is broken.
    pub rule: Rule,
}

impl fmt::Display for NotCanonical {
    ghost output = { λ n. Some (not_canonical_text n) };

    fn fmt<W: fmt::Write>(&self, f: &mut fmt::Formatter<W>) -> fmt::Result {
        write!(f, "{} (offset {})", self.rule, self.offset)
    }
}
