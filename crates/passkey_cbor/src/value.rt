//! Data items as values.

use crate::float::Float;
use crate::integer::Integer;
use crate::simple::Simple;

/// A data item (RFC 8949, section 2). It doesn't record how it was encoded: the size of heads, the
/// chunks of strings, and whether lengths were definite. The members of a map keep their order,
/// duplicate keys included.
#[derive(Debug, Drop)]
pub enum Value {
    /// An integer: major types 0 and 1.
    Integer(Integer),
    /// A byte string: major type 2, its chunks joined.
    Bytes(Vec<u8>),
    /// A floating-point number: major type 7, additional information 25 to 27.
    Float(Float),
    /// A text string: major type 3, its chunks joined, each of them UTF-8 by itself.
    Text(String),
    /// False or true.
    Bool(bool),
    /// Null. Undefined is decoded as null, too.
    Null,
    /// Any other simple value.
    Simple(Simple),
    /// A tag number and the tag content: major type 6.
    Tag(u64, Box<Value>),
    /// An array: major type 4.
    Array(Vec<Value>),
    /// A map: major type 5.
    Map(Vec<(Value, Value)>),
}
