//! Changes at a place in a data item.
ghost use Rattle.std.specs.Prelude.{◌≡◌, IfOk, map};
ghost use Rattle.passkey_cbor.specs.View.{item_of, pair_of};
ghost use Rattle.passkey_repair.specs.messages.Edit.{Edits, EditsMembers, edited_at, with_edited};
ghost use Rattle.passkey_repair.specs.messages.Views.{change_of, key_item};

use crate::messages::change::place_of;
use crate::messages::{Change, Key};
use passkey_cbor::Value;
use passkey_memory::OutOfMemory;
use std::alloc::Global;
use std::mem::replace;

/// Changes what is at the path in the data item, if it is there and the change fits, and returns the
/// data item with whether it does.
#[cycle(change)]
pub(crate) fn change_at(
    alloc: Global,
    path: &[Key],
    change: &Change,
    value: Value,
) -> Result<(Value, bool), OutOfMemory>
    ensures { IfOk result (λ r. Edits (edited_at (map key_item path.now) (change_of change.now) (item_of value))
        (item_of value) (item_of r.0) r.1) }
{
    let Some((key, rest)) = path.split_first() else {
        return change.make(alloc, value);
    };
    match value {
        Value::Map(mut pairs) => {
            let is_made = change_member(alloc, key, rest, change, &mut pairs)?;
            Ok((Value::Map(pairs), is_made))
        }
        value => Ok((value, false)),
    }
}

/// Changes what is at the path in the value of the first member with this key.
#[cycle(change)]
fn change_member(
    alloc: Global,
    key: &Key,
    path: &[Key],
    change: &Change,
    pairs: &mut Vec<(Value, Value)>,
) -> Result<bool, OutOfMemory>
    ensures { IfOk result (EditsMembers (with_edited (edited_at (map key_item path.now) (change_of change.now))
        (key_item key.now) (map pair_of pairs.old.items)) (map pair_of pairs.old.items) (map pair_of pairs.new.items)) }
{
    let Some(index) = place_of(pairs, key) else {
        return Ok(false);
    };
    let (label, value) = replace(&mut pairs[index], (Value::Null, Value::Null));
    let (value, is_made) = change_at(alloc, path, change, value)?;
    pairs[index] = (label, value);
    Ok(is_made)
}
