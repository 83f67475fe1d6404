//! Encoding, one data item after the other.
ghost use Rattle.std.specs.Prelude.{◌≡◌, ◌<◌, ◌^◌, ◌++◌, [], OnOk};
ghost use Rattle.passkey_cbor.specs.Encoder.{encoding};
ghost use Rattle.passkey_cbor.specs.Item.{number, byte_string, text_string, boolean, null};
ghost use Rattle.passkey_cbor.specs.View.{item_of};
ghost use Rattle.passkey_cbor.specs.Written.{shortest_head, written};
ghost use Rattle.passkey_cbor.specs.Writable.{IsWritable};

use crate::integer::Integer;
use crate::value::Value;
use crate::write::{push_byte, push_head, push_integer, push_string, push_value};
use passkey_memory::OutOfMemory;
use std::alloc::Global;

/// The room for a map at the beginning, if there is none yet: most messages need about as much, and to grow from a few
/// bytes takes longer than to encode them.
const FIRST: usize = 512;

/// Bytes to which data items are appended, encoded with shortest heads and definite lengths
/// (RFC 8949, section 4.1). No data item has to be built for an array or a map: their elements and
/// members are appended after the head. If a call returns `OutOfMemory`, an allocation failed, and
/// the bytes may end within what the call appends.
#[derive(Drop)]
pub struct Encoder {
    bytes: Vec<u8>,
}

impl Encoder {
    /// Returns an encoder with no bytes. Allocates nothing.
    pub fn new(alloc: Global) -> Encoder
        ensures { encoding result ≡ [] }
    {
        Encoder {
            bytes: Vec::new(alloc),
        }
    }

    /// Returns an encoder that appends to these bytes. Allocates nothing.
    pub fn from_vec(bytes: Vec<u8>) -> Encoder
        ensures { encoding result ≡ bytes.items }
    {
        Encoder { bytes }
    }

    /// Returns the bytes that were appended.
    pub fn into_vec(self) -> Vec<u8>
        ensures { result.items ≡ encoding self }
    {
        self.bytes
    }

    /// Appends a data item. Floats keep their width, and the members of maps their order.
    pub fn item(&mut self, value: &Value) -> Result<(), OutOfMemory>
        ensures written { OnOk result (encoding self.new ≡ encoding self.old ++ written (item_of value.now)) }
        ensures writable { OnOk result (IsWritable (item_of value.now)) }
    {
        Ok(push_value(&mut self.bytes, value)?)
    }

    /// Appends an integer (major types 0 and 1).
    pub fn integer(&mut self, n: Integer) -> Result<(), OutOfMemory>
        ensures written { OnOk result (encoding self.new ≡ encoding self.old ++ written (number n)) }
        ensures writable { IsWritable (number n) }
    {
        Ok(push_integer(&mut self.bytes, n)?)
    }

    /// Appends a byte string (major type 2).
    pub fn byte_string(&mut self, bytes: &[u8]) -> Result<(), OutOfMemory>
        ensures written { OnOk result (encoding self.new ≡ encoding self.old ++ written (byte_string bytes.now)) }
        ensures writable { IsWritable (byte_string bytes.now) }
    {
        Ok(push_string(&mut self.bytes, 2, bytes)?)
    }

    /// Appends a text string (major type 3).
    pub fn text_string(&mut self, text: &str) -> Result<(), OutOfMemory>
        ensures written { OnOk result (encoding self.new ≡ encoding self.old ++ written (text_string text.now)) }
        ensures writable { IsWritable (text_string text.now) }
    {
        Ok(push_string(&mut self.bytes, 3, text.as_bytes())?)
    }

    /// Appends false or true (major type 7).
    pub fn boolean(&mut self, value: bool) -> Result<(), OutOfMemory>
        ensures { OnOk result (encoding self.new ≡ encoding self.old ++ written (boolean value)) }
    {
        Ok(push_byte(&mut self.bytes, if value { 245 } else { 244 })?)
    }

    /// Appends null (major type 7).
    pub fn null(&mut self) -> Result<(), OutOfMemory>
        ensures { OnOk result (encoding self.new ≡ encoding self.old ++ written null) }
    {
        Ok(push_byte(&mut self.bytes, 246)?)
    }

    /// Appends the head of an array of this many elements, which are to be appended next (major
    /// type 4).
    pub fn array_head(&mut self, len: usize) -> Result<(), OutOfMemory>
        ensures written { OnOk result (encoding self.new ≡ encoding self.old ++ shortest_head 4 len) }
        ensures writable { len < 2 ^ 64 }
    {
        Ok(push_head(&mut self.bytes, 4, len as u64)?)
    }

    /// Appends the head of a map of this many members, each of which is to be appended next, its
    /// key before its value (major type 5).
    pub fn map_head(&mut self, len: usize) -> Result<(), OutOfMemory>
        ensures written { OnOk result (encoding self.new ≡ encoding self.old ++ shortest_head 5 len) }
        ensures writable { len < 2 ^ 64 }
    {
        if self.bytes.capacity() == 0 && self.bytes.reserve(FIRST).is_err() {
            return Err(OutOfMemory);
        }
        Ok(push_head(&mut self.bytes, 5, len as u64)?)
    }
}
