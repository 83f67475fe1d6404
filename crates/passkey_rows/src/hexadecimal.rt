//! Bytes in hexadecimal.
use hex::FromHexError;
use passkey_rewrite::RunFault;
use passkey_types::cbor::Value;
use std::alloc::Global;

pub fn decode(alloc: Global, text: &str) -> Result<Vec<u8>, RunFault> {
    match hex::decode(alloc, text.trim().as_bytes()) {
        Ok(bytes) => Ok(bytes),
        Err(FromHexError::OutOfMemory) => Err(RunFault::OutOfMemory),
        Err(_) => Err(RunFault::BadHex),
    }
}

pub fn encode(alloc: Global, bytes: &[u8]) -> Result<String, RunFault> {
    Ok(hex::encode(alloc, bytes)?)
}

/// Returns the leading data item of bytes in hexadecimal.
pub fn item_of(alloc: Global, text: &str) -> Result<Value, RunFault> {
    let bytes = decode(alloc, text)?;
    let (item, _len) = Value::from_slice(alloc, &bytes)?;
    Ok(item)
}

/// Returns the data item's encoding, in hexadecimal.
pub fn item_text(alloc: Global, item: Value) -> Result<String, RunFault> {
    let bytes = item.to_vec(alloc);
    drop(item);
    encode(alloc, &bytes?)
}
