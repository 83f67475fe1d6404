//! Repairing data items.
ghost use Rattle.std.specs.Prelude.{◌≡◌, IfOk, map};
ghost use Rattle.passkey_cbor.specs.View.{item_of};
ghost use Rattle.passkey_repair.specs.messages.Repaired.{Repaired, repaired, repaired_for};
ghost use Rattle.passkey_repair.specs.messages.Views.{edit_of};

use crate::messages::{Repair, Repairable};
use passkey_cbor::Value;
use passkey_kinds::{Fault, Message};
use passkey_memory::OutOfMemory;
use std::alloc::Global;

/// Makes each of these repairs in turn that fits what those before it made of the data item, and
/// returns the data item with the list of the repairs that did. Returns `OutOfMemory` if an
/// allocation fails.
pub fn repair_item(
    alloc: Global,
    repairs: &[Repair],
    mut value: Value,
) -> Result<(Value, Vec<Repair>), OutOfMemory>
    ensures item { IfOk result (λ r. item_of r.0 ≡ (repaired (map edit_of repairs.now) (item_of value)).item) }
    ensures edits { IfOk result (λ r. map edit_of r.1.items
        ≡ (repaired (map edit_of repairs.now) (item_of value)).edits) }
{
    let mut made = Vec::new(alloc);
    for repair in repairs {
        let (repaired, is_made) = repair.make(alloc, value)?;
        value = repaired;
        if is_made {
            made.push(*repair)?;
        }
    }
    Ok((value, made))
}

/// Repairs the data item of a message, and returns it with the list of the repairs that were made,
/// in their order. A data item that `Message::from_value` accepts is returned as it is, with an
/// empty list. Otherwise the known deviations of this message are repaired; the repaired data item
/// may still be refused, for another reason. Returns `OutOfMemory` if an allocation fails.
///
/// It decodes the message once, and takes some passes over the maps on the way to each repair.
pub fn repair<M: Message + Repairable>(
    alloc: Global,
    value: Value,
) -> Result<(Value, Vec<Repair>), OutOfMemory>
    ensures item { IfOk result (λ r. item_of r.0 ≡ (repaired_for M.fields M.edits (item_of value)).item) }
    ensures edits { IfOk result (λ r. map edit_of r.1.items ≡ (repaired_for M.fields M.edits (item_of value)).edits) }
{
    match M::from_value(alloc, &value) {
        Ok(_) => Ok((value, Vec::new(alloc))),
        Err(Fault::OutOfMemory) => Err(OutOfMemory),
        Err(_) => repair_item(alloc, M::repairs(), value),
    }
}
