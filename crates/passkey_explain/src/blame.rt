//! What in a data item a type refuses, and why.

use passkey_kinds::{Fault, Wanted};

/// Why a data item, or a map key, is to blame.
#[derive(Clone, Copy, Debug, PartialEq, Eq)]
pub enum Reason {
    /// It isn't what is wanted.
    Wanted(Wanted),
    /// It is no map (`NotAMap`), it lacks a member (`Missing`), or it is a key that names no member
    /// (`BadKey`) or one that was named before (`Repeated`).
    Fault(Fault),
}

/// A step from a data item into it. Elements and pairs are counted from 0, as they are encoded.
#[derive(Clone, Copy, Debug)]
pub enum Step {
    /// To an element of an array.
    Element(usize),
    /// To the value of a pair of a map, which is a member with this number and name.
    Member(usize, u8, &'static str),
    /// To the value of a pair of a map that isn't a record.
    Value(usize),
    /// To the key of a pair of a map.
    Key(usize),
}

/// What in a data item is to blame for a refusal: the innermost item, or map key, that is refused.
#[derive(Debug, Drop)]
pub struct Blame {
    /// The steps to it, from the outermost.
    pub path: Vec<Step>,
    /// Why it is refused.
    pub reason: Reason,
}
