//! The names of members in a JSON object, for the keys of a map that no table divides.

use passkey_cbor::Value;
use passkey_memory::OutOfMemory;
use std::alloc::Global;

/// Whether a text isn't read as a text where it is a name.
fn is_marked(text: &str) -> bool {
    match text.as_bytes().first() {
        Some(first) => *first == b'#' || *first == b'$',
        None => false,
    }
}

/// Returns `$` and the key's encoding in hexadecimal.
fn encoded_name(alloc: Global, key: &Value) -> Result<String, OutOfMemory> {
    let encoding = key.to_vec(alloc)?;
    let mut name = String::from_str(alloc, "$")?;
    name.push_str(hex::encode(alloc, encoding.as_slice())?.as_str())?;
    Ok(name)
}

/// Returns the name of a member that is this key in a map that no table divides: a text, `#` and an integer,
/// or `$` and the key's encoding in hexadecimal. Returns `OutOfMemory` if an allocation fails.
pub fn key_name(alloc: Global, key: &Value) -> Result<String, OutOfMemory> {
    match key {
        Value::Text(text) if !is_marked(text.as_str()) => {
            Ok(String::from_str(alloc, text.as_str())?)
        }
        Value::Integer(number) => {
            let number = number.get();
            Ok(format!(in alloc; "#{number}")?)
        }
        _ => encoded_name(alloc, key),
    }
}
