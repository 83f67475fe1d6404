//! Equality of values.
ghost use Rattle.std.specs.Prelude.{◌≡◌, ◌↔◌, IsTrue};
ghost use Rattle.std.specs.Cmp.{on_equiv, on_per, partial_equiv_from_equiv};
ghost use Rattle.std.specs.Ordering.{on};
ghost use Rattle.passkey_cbor.specs.Same.{item_eq, items_eq, pairs_eq};
ghost use Rattle.passkey_cbor.specs.SameItems.{item_eq-equivalence};
ghost use Rattle.passkey_cbor.specs.View.{item_of, items_view, pairs_view};

use crate::value::Value;

#[cycle(equality)]
fn equal(a: &Value, b: &Value) -> bool
    ensures { result ≡ item_eq (item_of a.now) (item_of b.now) }
{
    match (a, b) {
        (Value::Integer(a), Value::Integer(b)) => a == b,
        (Value::Bytes(a), Value::Bytes(b)) => a.as_slice() == b.as_slice(),
        (Value::Float(a), Value::Float(b)) => a == b,
        (Value::Text(a), Value::Text(b)) => a.as_str() == b.as_str(),
        (Value::Bool(a), Value::Bool(b)) => a == b,
        (Value::Null, Value::Null) => true,
        (Value::Simple(a), Value::Simple(b)) => a == b,
        (Value::Tag(a, x), Value::Tag(b, y)) => a == b && equal(x, y),
        (Value::Array(a), Value::Array(b)) => items_equal(a, b),
        (Value::Map(a), Value::Map(b)) => pairs_equal(a, b),
        _ => false,
    }
}

#[cycle(equality)]
fn items_equal(a: &[Value], b: &[Value]) -> bool
    ensures { result ≡ items_eq (items_view a.now) (items_view b.now) }
{
    let mut rest = b;
    for x in a {
        let Some((y, following)) = rest.split_first() else {
            return false;
        };
        if !equal(x, y) {
            return false;
        }
        rest = following;
    }
    rest.is_empty()
}

#[cycle(equality)]
fn pairs_equal(a: &[(Value, Value)], b: &[(Value, Value)]) -> bool
    ensures { result ≡ pairs_eq (pairs_view a.now) (pairs_view b.now) }
{
    let mut rest = b;
    for (key, value) in a {
        let Some(((other_key, other_value), following)) = rest.split_first() else {
            return false;
        };
        if !equal(key, other_key) || !equal(value, other_value) {
            return false;
        }
        rest = following;
    }
    rest.is_empty()
}

impl PartialEq for Value {
    ghost eq = { on item_of item_eq };

    ghost laws = { on_per item_of (partial_equiv_from_equiv item_eq-equivalence) };

    /// Whether both are the same data item. Floats of different widths are different data items,
    /// and so are maps whose members are in different orders.
    #[tactic(auto, using(crate::specs::SameItems::item_Decides))]
    fn eq(&self, other: &Value) -> bool
        ensures value { result ≡ item_eq (item_of self.now) (item_of other.now) }
        ensures same { IsTrue result ↔ (item_of self.now ≡ item_of other.now) }
    {
        equal(self, other)
    }
}

impl Eq for Value {
    ghost laws = { on_equiv item_of item_eq-equivalence };
}
