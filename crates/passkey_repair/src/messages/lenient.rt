//! Decoding messages leniently.
ghost use Rattle.std.specs.Prelude.{Ok as Accepted};
ghost use Rattle.passkey_kinds.specs.Words.{item_of, ReadsMessage};
ghost use Rattle.passkey_repair.specs.messages.Repaired.{ReadsLeniently, read_lenient, read_repaired, repaired};
ghost use Rattle.passkey_repair.specs.messages.Views.{lenient_view};

use crate::messages::{Repair, Repairable, repair_item};
use passkey_cbor::{CborError, Value};
use passkey_kinds::{Fault, Message};
use std::alloc::Global;

/// A message that was decoded leniently.
#[derive(Debug, Drop)]
pub struct Lenient<M> {
    /// The message.
    pub message: M,
    /// The repairs that were made to the data item that it was decoded from, in their order; none,
    /// if `Message::from_slice` decodes the message.
    pub repairs: Vec<Repair>,
}

/// Decodes the leading data item, and returns it with its length.
fn leading_item(alloc: Global, bytes: &[u8]) -> Result<(Value, usize), Fault>
    ensures { ReadsMessage item_of (λ i. Accepted i) bytes.now result }
{
    match Value::from_slice(alloc, bytes) {
        Ok(read) => Ok(read),
        Err(CborError::OutOfMemory) => Err(Fault::OutOfMemory),
        Err(_) => Err(Fault::DecodeFailed),
    }
}

/// Decodes the message from what its repairs make of the leading data item.
fn from_repaired<M: Message + Repairable>(
    alloc: Global,
    bytes: &[u8],
) -> Result<(Lenient<M>, usize), Fault>
    ensures { ReadsLeniently (lenient_view M.parts)
        (λ i. read_repaired M.fields (repaired M.edits i)) bytes.now result }
{
    let (value, len) = leading_item(alloc, bytes)?;
    let (value, repairs) = repair_item(alloc, M::repairs(), value)?;
    let message = M::from_value(alloc, &value)?;
    Ok((Lenient { message, repairs }, len))
}

/// Decodes the message at the beginning of the bytes as `Message::from_slice` does; if that refuses
/// it, decodes it again from the data item that `repair_item` makes of it by the message's repairs.
/// Returns the message, the repairs that were made, and the length of the data item in bytes.
/// Ignores the bytes after it.
///
/// Returns `DecodeFailed` exactly if the bytes don't begin with a well-formed data item of at most
/// 256 nesting levels; otherwise the fault with which `Message::from_value` refuses the repaired data
/// item; and `OutOfMemory` if an allocation fails.
///
/// A message that isn't accepted as it is takes memory for all of its data item, and is decoded up
/// to three times. What that costs isn't bounded by a contract, unlike `Message::read`.
pub fn from_slice_lenient<M: Message + Repairable>(
    alloc: Global,
    bytes: &[u8],
) -> Result<(Lenient<M>, usize), Fault>
    ensures { ReadsLeniently (lenient_view M.parts) (read_lenient M.fields M.edits)
        bytes.now result }
{
    passkey_cbor::laws::at_most_one_leading_item();
    match M::from_slice(alloc, bytes) {
        Ok((message, len)) => Ok((
            Lenient {
                message,
                repairs: Vec::new(alloc),
            },
            len,
        )),
        Err(Fault::DecodeFailed) => Err(Fault::DecodeFailed),
        Err(Fault::OutOfMemory) => Err(Fault::OutOfMemory),
        Err(_) => from_repaired(alloc, bytes),
    }
}
