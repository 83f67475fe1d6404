//! Encoding.
ghost use Rattle.std.specs.Prelude.{◌≡◌, ◌<◌, ◌≤◌, ◌^◌, [], ◌∷◌, ◌++◌, length, OnOk, IfOk};
ghost use Rattle.passkey_cbor.specs.FloatParts.{IsFloat};
ghost use Rattle.passkey_cbor.specs.Ranges.{IsSimple};
ghost use Rattle.passkey_cbor.specs.Item.{number, array, map, tagged};
ghost use Rattle.passkey_cbor.specs.View.{item_of, items_view, pairs_view};
ghost use Rattle.passkey_cbor.specs.Written.{shortest_head, float_head, simple_head, written};
ghost use Rattle.passkey_cbor.specs.Writable.{IsWritable};

use crate::encoder::Encoder;
use crate::float::Float;
use crate::integer::Integer;
use crate::simple::Simple;
use crate::value::Value;
use passkey_memory::OutOfMemory;
use std::alloc::{AllocError, Global};

/// Appends one byte.
pub(crate) fn push_byte(out: &mut Vec<u8>, byte: u8) -> Result<(), AllocError>
    ensures { OnOk result (out.new.items ≡ out.old.items ++ byte ∷ []) }
{
    out.push(byte)?;
    Ok(())
}

/// Appends an initial byte and the bytes after it.
fn push_bytes(out: &mut Vec<u8>, initial: u8, following: &[u8]) -> Result<(), AllocError>
    ensures { OnOk result (out.new.items ≡ out.old.items ++ initial ∷ following.now) }
{
    out.push(initial)?;
    out.extend_from_slice(following)
}

/// Appends the shortest encoding of a head.
#[tactic(auto, unfolding(crate::specs::Written::shortest_head))]
#[inline(always)]
pub(crate) fn push_head(out: &mut Vec<u8>, major: u8, argument: u64) -> Result<(), AllocError>
    requires { major < 8 }
    ensures { OnOk result (out.new.items ≡ out.old.items ++ shortest_head major argument) }
{
    if argument < 24 {
        push_byte(out, 32 * major + argument as u8)
    } else {
        push_long_head(out, major, argument)
    }
}

// The same for an argument after the initial byte. Not inlined, since most heads have one byte.
#[tactic(auto, unfolding(crate::specs::Written::shortest_head))]
#[inline(never)]
fn push_long_head(out: &mut Vec<u8>, major: u8, argument: u64) -> Result<(), AllocError>
    requires major { major < 8 }
    requires long { 24 ≤ argument }
    ensures { OnOk result (out.new.items ≡ out.old.items ++ shortest_head major argument) }
{
    let initial = 32 * major;
    if argument < 0x100 {
        push_bytes(out, initial + 24, &(argument as u8).to_be_bytes())
    } else if argument < 0x1_0000 {
        push_bytes(out, initial + 25, &(argument as u16).to_be_bytes())
    } else if argument < 0x1_0000_0000 {
        push_bytes(out, initial + 26, &(argument as u32).to_be_bytes())
    } else {
        push_bytes(out, initial + 27, &argument.to_be_bytes())
    }
}

pub(crate) fn push_integer(out: &mut Vec<u8>, n: Integer) -> Result<(), AllocError>
    ensures written { OnOk result (out.new.items ≡ out.old.items ++ written (number n)) }
    ensures writable { IsWritable (number n) }
{
    let n = n.get();
    if n >= 0 {
        push_head(out, 0, n as u64)
    } else {
        push_head(out, 1, (-1 - n) as u64)
    }
}

#[tactic(auto, unfolding(crate::specs::Written::float_head))]
fn push_float(out: &mut Vec<u8>, f: Float) -> Result<(), AllocError>
    ensures written { OnOk result (out.new.items ≡ out.old.items ++ float_head f) }
    ensures writable { IsFloat f.width f.bits }
{
    let bits = f.bits();
    match f.width() {
        2 => push_bytes(out, 249, &(bits as u16).to_be_bytes()),
        4 => push_bytes(out, 250, &(bits as u32).to_be_bytes()),
        _ => push_bytes(out, 251, &bits.to_be_bytes()),
    }
}

fn push_simple(out: &mut Vec<u8>, s: Simple) -> Result<(), AllocError>
    ensures written { OnOk result (out.new.items ≡ out.old.items ++ simple_head s) }
    ensures writable { IsSimple s }
{
    let n = s.get();
    if n < 20 {
        push_byte(out, 224 + n)
    } else {
        push_bytes(out, 248, &[n])
    }
}

pub(crate) fn push_string(out: &mut Vec<u8>, major: u8, bytes: &[u8]) -> Result<(), AllocError>
    requires { major < 8 }
    ensures written { OnOk result
        (out.new.items ≡ out.old.items ++ (shortest_head major (length bytes.now) ++ bytes.now)) }
    ensures writable { length bytes.now < 2 ^ 64 }
{
    push_head(out, major, bytes.len() as u64)?;
    out.extend_from_slice(bytes)
}

#[cycle(write)]
fn push_array(out: &mut Vec<u8>, items: &[Value]) -> Result<(), AllocError>
    ensures written { OnOk result (out.new.items ≡ out.old.items ++ written (array (items_view items.now))) }
    ensures writable { OnOk result (IsWritable (array (items_view items.now))) }
{
    push_head(out, 4, items.len() as u64)?;
    for item in items {
        push_value(out, item)?;
    }
    Ok(())
}

#[cycle(write)]
fn push_map(out: &mut Vec<u8>, pairs: &[(Value, Value)]) -> Result<(), AllocError>
    ensures written { OnOk result (out.new.items ≡ out.old.items ++ written (map (pairs_view pairs.now))) }
    ensures writable { OnOk result (IsWritable (map (pairs_view pairs.now))) }
{
    push_head(out, 5, pairs.len() as u64)?;
    for (key, value) in pairs {
        push_value(out, key)?;
        push_value(out, value)?;
    }
    Ok(())
}

#[cycle(write)]
fn push_tag(out: &mut Vec<u8>, tag: u64, value: &Value) -> Result<(), AllocError>
    ensures written { OnOk result (out.new.items ≡ out.old.items ++ written (tagged tag (item_of value.now))) }
    ensures writable { OnOk result (IsWritable (tagged tag (item_of value.now))) }
{
    push_head(out, 6, tag)?;
    push_value(out, value)
}

#[cycle(write)]
pub(crate) fn push_value(out: &mut Vec<u8>, value: &Value) -> Result<(), AllocError>
    ensures written { OnOk result (out.new.items ≡ out.old.items ++ written (item_of value.now)) }
    ensures writable { OnOk result (IsWritable (item_of value.now)) }
{
    match value {
        Value::Integer(n) => push_integer(out, *n),
        Value::Bytes(bytes) => push_string(out, 2, bytes),
        Value::Float(f) => push_float(out, *f),
        Value::Text(text) => push_string(out, 3, text.as_str().as_bytes()),
        Value::Bool(false) => push_byte(out, 244),
        Value::Bool(true) => push_byte(out, 245),
        Value::Null => push_byte(out, 246),
        Value::Simple(s) => push_simple(out, *s),
        Value::Tag(tag, inner) => push_tag(out, *tag, inner),
        Value::Array(items) => push_array(out, items),
        Value::Map(pairs) => push_map(out, pairs),
    }
}

impl Value {
    /// Encodes the data item with shortest heads and definite lengths (RFC 8949, section 4.1);
    /// floats keep their width, and the members of maps their order. `OutOfMemory` if an allocation
    /// fails.
    pub fn to_vec(&self, alloc: Global) -> Result<Vec<u8>, OutOfMemory>
        ensures written { IfOk result (λ bytes. bytes.items ≡ written (item_of self.now)) }
        ensures writable { OnOk result (IsWritable (item_of self.now)) }
    {
        let mut encoder = Encoder::new(alloc);
        encoder.item(self)?;
        Ok(encoder.into_vec())
    }
}
