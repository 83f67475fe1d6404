//! Messages that are decoded from a data item in memory, and encoded by way of one.
use crate::again_bytes::{encoded, encoded_item};
use crate::decoding::from_item;
use crate::tries::Tries;
use passkey_rewrite::RunFault;
use passkey_types::OutOfMemory;
use passkey_types::cbor::Value;
use passkey_types::ctap2::{FromCbor, Message, Refusal, ToCbor, get_info};
use std::alloc::Global;

/// Returns the value's data item, and tries again if memory ran out.
fn item_of<T: ToCbor>(alloc: Global, tries: &mut Tries, value: &T) -> Result<Value, OutOfMemory> {
    match value.to_value(alloc) {
        Ok(item) => Ok(item),
        Err(OutOfMemory) => {
            tries.refuse();
            value.to_value(alloc)
        }
    }
}

/// Replaces the part by the one that its data item decodes to.
fn replace_by_item<T: FromCbor + ToCbor>(
    alloc: Global,
    tries: &mut Tries,
    part: &mut T,
) -> Result<(), OutOfMemory> {
    let item = item_of(alloc, tries, part)?;
    let other = T::from_value(alloc, &item);
    drop(item);
    match other {
        Ok(other) => *part = other,
        Err(Refusal::OutOfMemory) => return Err(OutOfMemory),
        Err(Refusal::Refused) => tries.compare(false),
    }
    Ok(())
}

/// Encodes the value's data item.
fn encoded_by_item<T: ToCbor>(
    alloc: Global,
    tries: &mut Tries,
    value: &T,
) -> Result<Vec<u8>, OutOfMemory> {
    let item = item_of(alloc, tries, value)?;
    let encoding = encoded_item(alloc, tries, &item);
    drop(item);
    encoding
}

/// Decodes a message from its data item, and encodes the message's data item.
pub fn by_item<M: Message + ToCbor>(
    alloc: Global,
    tries: &mut Tries,
    bytes: &[u8],
) -> Result<Vec<u8>, RunFault> {
    let (message, _len) = from_item::<M>(alloc, tries, bytes)?;
    Ok(encoded_by_item(alloc, tries, &message)?)
}

/// Replaces parts of the response by way of their data items, and encodes the result.
fn encoded_by_parts(
    alloc: Global,
    tries: &mut Tries,
    info: &mut get_info::Response,
) -> Result<Vec<u8>, OutOfMemory> {
    replace_by_item(alloc, tries, &mut info.versions)?;
    replace_by_item(alloc, tries, &mut info.extensions)?;
    replace_by_item(alloc, tries, &mut info.aaguid)?;
    replace_by_item(alloc, tries, &mut info.options)?;
    replace_by_item(alloc, tries, &mut info.pin_protocols)?;
    replace_by_item(alloc, tries, &mut info.algorithms)?;
    encoded(alloc, tries, info)
}

/// The response has no data item of its own, but its parts have.
pub fn info_by_items(alloc: Global, tries: &mut Tries, bytes: &[u8]) -> Result<Vec<u8>, RunFault> {
    let (mut info, _len) = from_item::<get_info::Response>(alloc, tries, bytes)?;
    let encoding = encoded_by_parts(alloc, tries, &mut info);
    drop(info);
    Ok(encoding?)
}
