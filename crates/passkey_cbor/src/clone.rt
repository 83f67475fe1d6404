//! Copies of values.
ghost use Rattle.std.specs.Prelude.{◌≡◌, map, IfOk, OnErr};
ghost use Rattle.passkey_cbor.specs.Item as item;
ghost use Rattle.passkey_cbor.specs.View.{item_of, pair_of, items_view, pairs_view};
ghost use Rattle.passkey_cbor.specs.Grows.{Grows};

use crate::value::Value;
use passkey_memory::OutOfMemory;
use std::alloc::Global;

fn copy_bytes(alloc: Global, bytes: &[u8]) -> Result<Vec<u8>, OutOfMemory>
    ensures same { IfOk result (λ v. v.items ≡ bytes.now) }
    ensures grows { OnErr result (Grows (item.byte_string bytes.now)) }
{
    let mut copy = Vec::with_capacity(alloc, bytes.len())?;
    copy.extend_from_slice(bytes)?;
    Ok(copy)
}

#[cycle(clone)]
fn copy_items(alloc: Global, items: &[Value]) -> Result<Vec<Value>, OutOfMemory>
    ensures same { IfOk result (λ v. map item_of v.items ≡ map item_of items.now) }
    ensures grows { OnErr result (Grows (item.array (items_view items.now))) }
{
    let mut copies = Vec::with_capacity(alloc, items.len())?;
    for item in items {
        copies.push(copy(alloc, item)?)?;
    }
    Ok(copies)
}

#[cycle(clone)]
fn copy_pairs(alloc: Global, pairs: &[(Value, Value)]) -> Result<Vec<(Value, Value)>, OutOfMemory>
    ensures same { IfOk result (λ v. map pair_of v.items ≡ map pair_of pairs.now) }
    ensures grows { OnErr result (Grows (item.map (pairs_view pairs.now))) }
{
    let mut copies = Vec::with_capacity(alloc, pairs.len())?;
    for (key, value) in pairs {
        let key = copy(alloc, key)?;
        let value = copy(alloc, value)?;
        copies.push((key, value))?;
    }
    Ok(copies)
}

#[cycle(clone)]
fn copy(alloc: Global, value: &Value) -> Result<Value, OutOfMemory>
    ensures same { IfOk result (λ v. item_of v ≡ item_of value.now) }
    ensures grows { OnErr result (Grows (item_of value.now)) }
{
    match value {
        Value::Integer(n) => Ok(Value::Integer(*n)),
        Value::Bytes(bytes) => Ok(Value::Bytes(copy_bytes(alloc, bytes)?)),
        Value::Float(f) => Ok(Value::Float(*f)),
        Value::Text(text) => Ok(Value::Text(String::from_str(alloc, text.as_str())?)),
        Value::Bool(b) => Ok(Value::Bool(*b)),
        Value::Null => Ok(Value::Null),
        Value::Simple(s) => Ok(Value::Simple(*s)),
        Value::Tag(tag, inner) => Ok(Value::Tag(*tag, Box::new(alloc, copy(alloc, inner)?)?)),
        Value::Array(items) => Ok(Value::Array(copy_items(alloc, items)?)),
        Value::Map(pairs) => Ok(Value::Map(copy_pairs(alloc, pairs)?)),
    }
}

impl Value {
    /// Returns an equal value. `OutOfMemory` if an allocation fails, which can't happen for
    /// integers, floats, booleans, null, other simple values, and empty byte strings, arrays and
    /// maps.
    pub fn try_clone(&self, alloc: Global) -> Result<Value, OutOfMemory>
        ensures same { IfOk result (λ v. item_of v ≡ item_of self.now) }
        ensures grows { OnErr result (Grows (item_of self.now)) }
    {
        copy(alloc, self)
    }
}
