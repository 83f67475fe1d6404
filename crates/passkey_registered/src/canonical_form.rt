//! The canonical form of data items.
ghost use Rattle.std.specs.Prelude.{◌≡◌, ◌<◌, IfErr, IfOk, OnOk, length, map};
ghost use Rattle.std.specs.List.{All};
ghost use Rattle.passkey_cbor.specs.Canonical.{IsCanonical, IsOrdered};
ghost use Rattle.passkey_cbor.specs.View.{item_of, pair_of};
ghost use Rattle.passkey_kinds.specs.Words.{written};
ghost use Rattle.passkey_registered.specs.CanonicalForm.{AreKeysOf, HasCanonicalForm, canonical_form, canonical_member, place_among, sorted};
ghost use Rattle.passkey_registered.specs.CanonicalForm.{IsFaultOf, IsMessageInForm};
ghost use Rattle.passkey_registered.specs.extensions.Others.{placed};

use passkey_cbor::{CborError, Value, ctap2_order};
use passkey_kinds::{Fault, Message, OutOfMemory};
use std::alloc::Global;
use std::cmp::Ordering;

/// Returns the index of the first of these encoded keys that comes after this one.
fn index_among(keys: &[Vec<u8>], encoded: &[u8]) -> usize
    requires keys { All (λ k. 0 < length k.items) keys.now }
    requires encoded { 0 < length encoded.now }
    ensures { result ≡ place_among encoded.now (map (λ k. k.items) keys.now) }
{
    for (index, key) in keys.iter().enumerate() {
        if ctap2_order(encoded, key) == Ordering::Less {
            return index;
        }
    }
    keys.len()
}

/// Puts a member in its place among these, whose keys are encoded beside them.
#[tactic(auto, using(crate::proofs::Places::written_long, crate::proofs::Sorting::keys_long, crate::proofs::Sorting::among_within, crate::proofs::Sorting::members_within, crate::proofs::Sorting::placed_by_keys, crate::proofs::Sorting::keyed_by_keys))]
fn place_member(
    alloc: Global,
    keys: &mut Vec<Vec<u8>>,
    members: &mut Vec<(Value, Value)>,
    member: (Value, Value),
) -> Result<(), OutOfMemory>
    requires { AreKeysOf (map pair_of members.old.items) (map (λ k. k.items) keys.old.items) }
    ensures placed { OnOk result
        (map pair_of members.new.items ≡ placed (pair_of member) (map pair_of members.old.items)) }
    ensures keyed { OnOk result (AreKeysOf (map pair_of members.new.items) (map (λ k. k.items) keys.new.items)) }
{
    let encoded = member.0.to_vec(alloc)?;
    let index = index_among(keys, &encoded);
    keys.insert(index, encoded)?;
    members.insert(index, member)?;
    Ok(())
}

#[cycle(canonical)]
fn in_order_elements(alloc: Global, elements: &[Value]) -> Result<Vec<Value>, OutOfMemory>
    ensures { IfOk result (λ v. map item_of v.items ≡ map canonical_form (map item_of elements.now)) }
{
    let mut all = Vec::new(alloc);
    for element in elements {
        all.push(in_order(alloc, element)?)?;
    }
    Ok(all)
}

#[cycle(canonical)]
fn in_order_members(
    alloc: Global,
    pairs: &[(Value, Value)],
) -> Result<Vec<(Value, Value)>, OutOfMemory>
    ensures { IfOk result (λ v. map pair_of v.items ≡ sorted (map canonical_member (map pair_of pairs.now))) }
{
    let mut keys = Vec::new(alloc);
    let mut members = Vec::new(alloc);
    for (key, value) in pairs {
        let member = (in_order(alloc, key)?, in_order(alloc, value)?);
        place_member(alloc, &mut keys, &mut members, member)?;
    }
    Ok(members)
}

#[cycle(canonical)]
fn in_order(alloc: Global, value: &Value) -> Result<Value, OutOfMemory>
    ensures { IfOk result (λ v. item_of v ≡ canonical_form (item_of value.now)) }
{
    match value {
        Value::Array(elements) => Ok(Value::Array(in_order_elements(alloc, elements)?)),
        Value::Map(pairs) => Ok(Value::Map(in_order_members(alloc, pairs)?)),
        Value::Tag(tag, inner) => Ok(Value::Tag(*tag, Box::new(alloc, in_order(alloc, inner)?)?)),
        value => value.try_clone(alloc),
    }
}

/// Returns the item with the members of each map in CTAP2's order: nothing is added and nothing left
/// out, and members with equal keys stay in their order. Its encoding is canonical, unless it has a tag
/// or a map with a key twice, which have no canonical form (CTAP 2.2, section 8). Takes quadratic time
/// in the members of a map that is out of order. Returns `OutOfMemory` if an allocation fails.
#[tactic(auto, using(crate::proofs::CanonicalOrder::is_ordered))]
pub fn in_canonical_form(alloc: Global, item: &Value) -> Result<Value, OutOfMemory>
    ensures form { IfOk result (λ v. item_of v ≡ canonical_form (item_of item.now)) }
    ensures ordered { IfOk result (λ v. HasCanonicalForm (item_of item.now) → IsOrdered (item_of v)) }
{
    in_order(alloc, item)
}

/// Encodes the item in canonical form, as `in_canonical_form` returns it. Returns `OutOfMemory` if an
/// allocation fails.
pub fn canonical_vec(alloc: Global, item: &Value) -> Result<Vec<u8>, OutOfMemory>
    ensures { IfOk result (λ bytes. bytes.items ≡ written (canonical_form (item_of item.now))) }
{
    let ordered = in_canonical_form(alloc, item)?;
    ordered.to_vec(alloc)
}

/// Decodes the message at the beginning of the bytes, and encodes its item in canonical form: nothing is
/// added and nothing left out, at any level, also what the message's table doesn't know. Returns the
/// encoding and how many bytes the message has. What is canonical comes back as it is. Ignores bytes
/// after the message. The errors are those of `Message::from_slice`, but that `OutOfMemory` may also come
/// in place of another one.
#[tactic(auto, using(crate::proofs::SameForm::canonical_again))]
pub fn canonical_message<M: Message>(alloc: Global, bytes: &[u8]) -> Result<(Vec<u8>, usize), Fault>
    ensures encoded { IfOk result (λ r. IsMessageInForm M.fields bytes.now r.0.items r.1) }
    ensures refused { IfErr result (λ e. IsFaultOf M.fields bytes.now e) }
    ensures same { IsCanonical bytes.now → IfOk result (λ r. r.0.items ≡ bytes.now) }
{
    passkey_cbor::laws::at_most_one_leading_item();
    passkey_cbor::laws::written_is_leading_item();
    let (item, len) = match Value::from_slice(alloc, bytes) {
        Ok(front) => front,
        Err(CborError::OutOfMemory) => return Err(Fault::OutOfMemory),
        Err(_) => return Err(Fault::DecodeFailed),
    };
    drop(M::from_value(alloc, &item)?);
    Ok((canonical_vec(alloc, &item)?, len))
}
