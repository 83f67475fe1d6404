//! Members of a map, in CTAP2's order of keys.
ghost use Rattle.std.specs.Prelude.{◌≡◌, ◌<◌, ◌≤◌, IfOk, IfSome, length, map};
ghost use Rattle.passkey_cbor.specs.Order.{ctap2_order};
ghost use Rattle.passkey_cbor.specs.View.{item_of, pair_of};
ghost use Rattle.passkey_cbor.specs.Written.{written};
ghost use Rattle.passkey_cbor_text.specs.values.Ordered.{Adds, place_below};

use passkey_cbor::{Value, ctap2_order};
use passkey_memory::OutOfMemory;
use std::alloc::Global;
use std::cmp::Ordering;

/// Compares a key with another one, whose encoding this is.
fn key_order(alloc: Global, key: &Value, encoding: &[u8]) -> Result<Ordering, OutOfMemory>
    requires { 0 < length encoding.now }
    ensures { IfOk result (λ o. o ≡ ctap2_order (written (item_of key.now)) encoding.now) }
{
    let own = key.to_vec(alloc)?;
    Ok(ctap2_order(own.as_slice(), encoding))
}

/// Returns where a key with this encoding belongs among the members; `None` if one of them has it.
fn place(
    alloc: Global,
    members: &[(Value, Value)],
    encoding: &[u8],
) -> Result<Option<usize>, OutOfMemory>
    requires { 0 < length encoding.now }
    ensures is { IfOk result
        (λ o. o ≡ place_below (map pair_of members.now) encoding.now (length members.now)) }
    ensures within { IfOk result (λ o. IfSome o (λ n. n ≤ length members.now)) }
{
    let mut left = members.len();
    while left > 0 {
        match key_order(alloc, &members[left - 1].0, encoding)? {
            Ordering::Less => return Ok(Some(left)),
            Ordering::Equal => return Ok(None),
            Ordering::Greater => left -= 1,
        }
    }
    Ok(Some(0))
}

/// Puts a member among the others, which are in order. Returns false, and leaves them, if one of them
/// has its key.
pub(crate) fn put_in_order(
    alloc: Global,
    members: &mut Vec<(Value, Value)>,
    member: (Value, Value),
) -> Result<bool, OutOfMemory>
    ensures { IfOk result
        (Adds (map pair_of members.old.items) (pair_of member) (map pair_of members.new.items)) }
{
    let encoding = member.0.to_vec(alloc)?;
    match place(alloc, members, encoding.as_slice())? {
        Some(place) => {
            members.insert(place, member)?;
            Ok(true)
        }
        None => Ok(false),
    }
}

/// Whether the keys are in order, so that none is there twice.
pub(crate) fn are_in_order(alloc: Global, members: &[(Value, Value)]) -> Result<bool, OutOfMemory> {
    for index in 1..members.len() {
        let encoding = members[index].0.to_vec(alloc)?;
        let before = key_order(alloc, &members[index - 1].0, encoding.as_slice())?;
        if before != Ordering::Less {
            return Ok(false);
        }
    }
    Ok(true)
}
