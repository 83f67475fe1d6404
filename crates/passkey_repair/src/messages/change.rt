//! Changes of data items.
ghost use Rattle.std.specs.Prelude.{◌≡◌, ◌<◌, IfOk, IfSome, length, map, is_some};
ghost use Rattle.std.specs.List.{position};
ghost use Rattle.passkey_cbor.specs.Same.{item_eq};
ghost use Rattle.passkey_cbor.specs.View.{item_of, pair_of};
ghost use Rattle.passkey_repair.specs.messages.Edit.{Edits, EditsMembers, added, changed, has as has_member, left_out};
ghost use Rattle.passkey_repair.specs.messages.Edit.{place_of as index_of, replace as replacing, add as adding};
ghost use Rattle.passkey_repair.specs.messages.Edit.{leave_out as leaving_out};
ghost use Rattle.passkey_repair.specs.messages.Views.{change_of, key_item, literal_item};

use crate::messages::{Key, Literal};
use passkey_cbor::Value;
use passkey_memory::OutOfMemory;
use std::alloc::Global;

/// What a repair makes of a data item.
#[derive(Clone, Copy, Debug, PartialEq, Eq)]
pub enum Change {
    /// The first data item becomes the second.
    Replace(Literal, Literal),
    /// A map gets a member with the first name and this value, if it lacks it and has a member with
    /// the second name.
    Add(&'static str, &'static str, Literal),
    /// A map loses the member with this name, if it has this value.
    LeaveOut(&'static str, Literal),
}

// The same as `place_of`, but its contract speaks of values.
fn first_with(pairs: &[(Value, Value)], key: &Key) -> Option<usize>
    ensures place { result ≡ position (λ p. item_eq (item_of p.0) (key_item key.now)) pairs.now }
    ensures within { IfSome result (λ n. n < length pairs.now) }
{
    pairs.iter().position(|(label, _)| key.is(label))
}

/// Returns the index of the first member with this key.
#[tactic(auto, using(crate::proofs::Places::position_map))]
pub(crate) fn place_of(pairs: &[(Value, Value)], key: &Key) -> Option<usize>
    ensures place { result ≡ index_of (key_item key.now) (map pair_of pairs.now) }
    ensures within { IfSome result (λ n. n < length pairs.now) }
{
    first_with(pairs, key)
}

fn has(pairs: &[(Value, Value)], name: &'static str) -> bool
    ensures { result ≡ has_member name.now (map pair_of pairs.now) }
{
    place_of(pairs, &Key::Name(name)).is_some()
}

/// Replaces the data item, if it is the first of these, by the second.
fn replace(alloc: Global, from: Literal, to: Literal, value: Value) -> (Value, bool)
    ensures { Edits (changed (replacing (literal_item from) (literal_item to)) (item_of value)) (item_of value)
        (item_of result.0) result.1 }
{
    if value == from.to_value(alloc) {
        (to.to_value(alloc), true)
    } else {
        (value, false)
    }
}

/// Adds a member with this name and value, if there is none and there is one beside it.
fn add_member(
    alloc: Global,
    name: &'static str,
    beside: &'static str,
    literal: Literal,
    pairs: &mut Vec<(Value, Value)>,
) -> Result<bool, OutOfMemory>
    ensures { IfOk result (EditsMembers (added name.now beside.now (literal_item literal) (map pair_of pairs.old.items))
        (map pair_of pairs.old.items) (map pair_of pairs.new.items)) }
{
    if !has(pairs, beside) || has(pairs, name) {
        return Ok(false);
    }
    let name = Value::from_text(alloc, name)?;
    pairs.push((name, literal.to_value(alloc)))?;
    Ok(true)
}

/// Removes the first member with this name, if it has this value.
fn remove_member(
    alloc: Global,
    name: &'static str,
    literal: Literal,
    pairs: &mut Vec<(Value, Value)>,
) -> bool
    ensures { EditsMembers (left_out name.now (literal_item literal) (map pair_of pairs.old.items))
        (map pair_of pairs.old.items) (map pair_of pairs.new.items) result }
{
    let Some(index) = place_of(pairs, &Key::Name(name)) else {
        return false;
    };
    let (_, value) = &pairs[index];
    let is_this = *value == literal.to_value(alloc);
    if !is_this {
        return false;
    }
    pairs.remove(index);
    true
}

#[tactic(auto, using(crate::proofs::Places::adds))]
fn add(
    alloc: Global,
    name: &'static str,
    beside: &'static str,
    literal: Literal,
    value: Value,
) -> Result<(Value, bool), OutOfMemory>
    ensures { IfOk result (λ r. Edits (changed (adding name.now beside.now (literal_item literal)) (item_of value))
        (item_of value) (item_of r.0) r.1) }
{
    match value {
        Value::Map(mut pairs) => {
            let is_added = add_member(alloc, name, beside, literal, &mut pairs)?;
            Ok((Value::Map(pairs), is_added))
        }
        value => Ok((value, false)),
    }
}

#[tactic(auto, using(crate::proofs::Places::leaves_out))]
fn leave_out(alloc: Global, name: &'static str, literal: Literal, value: Value) -> (Value, bool)
    ensures { Edits (changed (leaving_out name.now (literal_item literal)) (item_of value)) (item_of value)
        (item_of result.0) result.1 }
{
    match value {
        Value::Map(mut pairs) => {
            let is_left_out = remove_member(alloc, name, literal, &mut pairs);
            (Value::Map(pairs), is_left_out)
        }
        value => (value, false),
    }
}

impl Change {
    /// Changes the data item, if the change fits, and returns it with whether it does. Returns
    /// `OutOfMemory` if an allocation fails.
    pub fn make(&self, alloc: Global, value: Value) -> Result<(Value, bool), OutOfMemory>
        ensures { IfOk result (λ r. Edits (changed (change_of self.now) (item_of value)) (item_of value)
            (item_of r.0) r.1) }
    {
        match self {
            Change::Replace(from, to) => Ok(replace(alloc, *from, *to, value)),
            Change::Add(name, beside, literal) => add(alloc, name, beside, *literal, value),
            Change::LeaveOut(name, literal) => Ok(leave_out(alloc, name, *literal, value)),
        }
    }
}
