//! The nesting depth of data items.
ghost use Rattle.std.specs.Prelude.{◌≡◌, min};
ghost use Rattle.passkey_cbor.specs.Depth.{depth, items_depth, pairs_depth};
ghost use Rattle.passkey_cbor.specs.View.{item_of, items_view, pairs_view};

use crate::value::Value;

/// The number of nesting levels of arrays, maps and tags that the decoders accept (RFC 8949,
/// section 10).
pub const MAX_DEPTH: usize = 256;

#[cycle(depth)]
fn depth_of(value: &Value) -> usize
    ensures { result ≡ min (depth (item_of value.now)) usize.MAX }
{
    match value {
        Value::Tag(_, inner) => depth_of(inner).saturating_add(1),
        Value::Array(items) => items_depth_of(items).saturating_add(1),
        Value::Map(pairs) => pairs_depth_of(pairs).saturating_add(1),
        Value::Integer(_)
        | Value::Bytes(_)
        | Value::Float(_)
        | Value::Text(_)
        | Value::Bool(_)
        | Value::Null
        | Value::Simple(_) => 0,
    }
}

#[cycle(depth)]
fn items_depth_of(items: &[Value]) -> usize
    ensures { result ≡ min (items_depth (items_view items.now)) usize.MAX }
{
    let mut deepest = 0;
    for item in items {
        deepest = depth_of(item).max(deepest);
    }
    deepest
}

#[cycle(depth)]
fn pairs_depth_of(pairs: &[(Value, Value)]) -> usize
    ensures { result ≡ min (pairs_depth (pairs_view pairs.now)) usize.MAX }
{
    let mut deepest = 0;
    for (key, value) in pairs {
        deepest = depth_of(key).max(depth_of(value)).max(deepest);
    }
    deepest
}

impl Value {
    /// Returns the number of nesting levels: each array, map and tag counts one, so a number or a
    /// string has 0, and an empty array 1. At most `usize::MAX`. Decoders limit nesting (RFC 8949,
    /// section 10); those of this crate accept `MAX_DEPTH` levels.
    pub fn depth(&self) -> usize
        ensures { result ≡ min (depth (item_of self.now)) usize.MAX }
    {
        depth_of(self)
    }
}
