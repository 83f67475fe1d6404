//! Keys, maps, passkeys, texts in base64 and documents, made with calls that are made again if
//! memory runs out.
use crate::hexadecimal::{decode, encode, item_of};
use crate::setting::first_word;
use crate::tries::Tries;
use passkey_rewrite::RunFault;
use passkey_types::cbor::Value;
use passkey_types::cose::{CoseError, CoseKey, Label, RefusedKey};
use passkey_types::encoding::{base64, base64url};
use passkey_types::{Bytes, BytesFault, Map, OutOfMemory, Text};
use std::alloc::Global;

/// Returns the key of this data item in hexadecimal.
pub fn key_of(alloc: Global, text: &str) -> Result<CoseKey, RunFault> {
    let item = item_of(alloc, text)?;
    let key = CoseKey::from_value(alloc, &item);
    drop(item);
    Ok(key?)
}

/// Returns a parameter's label, which is a text, and its value, a data item.
fn parameter(alloc: Global, label: &str, value: &[u8]) -> Result<(Label, Value), CoseError> {
    let label = Label::Text(String::from_str(alloc, label)?);
    let (value, _len) = Value::from_slice(alloc, value)?;
    Ok((label, value))
}

/// Adds the parameter. The error gives the key back.
fn with_param(
    alloc: Global,
    key: CoseKey,
    label: &str,
    value: &[u8],
) -> Result<CoseKey, RefusedKey> {
    match parameter(alloc, label, value) {
        Ok((label, value)) => key.with_param(alloc, label, value),
        Err(error) => Err(RefusedKey { key, error }),
    }
}

/// Does the same, and tries again with the key that came back if memory ran out.
fn with_param_again(
    alloc: Global,
    tries: &mut Tries,
    key: CoseKey,
    label: &str,
    value: &[u8],
) -> Result<CoseKey, RefusedKey> {
    match with_param(alloc, key, label, value) {
        Ok(key) => Ok(key),
        Err(refused) if refused.error == CoseError::OutOfMemory => {
            tries.refuse();
            with_param(alloc, refused.key, label, value)
        }
        Err(refused) => Err(refused),
    }
}

fn encoded_key(alloc: Global, tries: &mut Tries, key: &CoseKey) -> Result<Vec<u8>, OutOfMemory> {
    match key.to_vec(alloc) {
        Ok(bytes) => Ok(bytes),
        Err(OutOfMemory) => {
            tries.refuse();
            key.to_vec(alloc)
        }
    }
}

/// Returns the encoding of a key, and tries again if memory ran out.
fn encoded(alloc: Global, tries: &mut Tries, key: CoseKey) -> Result<String, RunFault> {
    let bytes = encoded_key(alloc, tries, &key);
    drop(key);
    encode(alloc, &bytes?)
}

/// `KEY LABEL VALUE`: the key with a parameter under a text label.
pub fn add_parameter(alloc: Global, tries: &mut Tries, input: &str) -> Result<String, RunFault> {
    let (key, words) = first_word(input);
    let (label, value) = first_word(words);
    let value = decode(alloc, value)?;
    let key = key_of(alloc, key)?;
    match with_param_again(alloc, tries, key, label, &value) {
        Ok(key) => encoded(alloc, tries, key),
        Err(refused) => Err(RunFault::from(CoseError::from(refused))),
    }
}

fn point_of(alloc: Global, input: &str) -> Result<CoseKey, RunFault> {
    let (x, y) = first_word(input);
    let x = decode(alloc, x)?;
    let y = decode(alloc, y)?;
    Ok(CoseKey::new_ec2_pub_key(alloc, 1, x, y)?)
}

/// `X Y`: the key with this point on the curve P-256.
pub fn point(alloc: Global, tries: &mut Tries, input: &str) -> Result<String, RunFault> {
    let key = point_of(alloc, input)?;
    encoded(alloc, tries, key)
}

/// Inserts the entry; an error gives the key and the value back.
fn insert_entry(
    tries: &mut Tries,
    map: &mut Map<Bytes, Text>,
    key: Bytes,
    value: Text,
) -> Result<(), OutOfMemory> {
    match map.insert(key, value) {
        Ok(_) => Ok(()),
        Err(failed) => {
            tries.refuse();
            let (key, value) = failed.value;
            match map.insert(key, value) {
                Ok(_) => Ok(()),
                Err(_) => Err(OutOfMemory),
            }
        }
    }
}

fn insert_word(
    alloc: Global,
    tries: &mut Tries,
    map: &mut Map<Bytes, Text>,
    word: &str,
) -> Result<(), RunFault> {
    let (key, value) = word.split_once('=').unwrap_or((word, ""));
    let key = Bytes::from(decode(alloc, key)?);
    let value = Text::from_str(alloc, value)?;
    Ok(insert_entry(tries, map, key, value)?)
}

fn map_of(alloc: Global, tries: &mut Tries, input: &str) -> Result<Map<Bytes, Text>, RunFault> {
    let mut map = Map::empty(alloc);
    for word in input.split(' ') {
        insert_word(alloc, tries, &mut map, word)?;
    }
    Ok(map)
}

/// Returns an entry after a space, but for the first one.
fn entry_text(
    alloc: Global,
    is_first: bool,
    key: &Bytes,
    value: &Text,
) -> Result<String, RunFault> {
    let key = encode(alloc, key.as_slice())?;
    let space = if is_first { "" } else { " " };
    Ok(format!(in alloc; "{space}{key}={value}")?)
}

fn printed(alloc: Global, map: &Map<Bytes, Text>) -> Result<String, RunFault> {
    let mut text = String::new(alloc);
    for (key, value) in map {
        let entry = entry_text(alloc, text.is_empty(), key, value)?;
        text.push_str(entry.as_str())?;
    }
    Ok(text)
}

/// `KEY=VALUE ..`: the entries of a copy of the map with these entries.
pub fn insert(alloc: Global, tries: &mut Tries, input: &str) -> Result<String, RunFault> {
    let mut map = map_of(alloc, tries, input)?;
    tries.replace_equal(alloc, &mut map)?;
    printed(alloc, &map)
}

fn decoded(alloc: Global, text: &str) -> Result<Bytes, OutOfMemory> {
    match Bytes::try_from(alloc, text) {
        Ok(bytes) => Ok(bytes),
        Err(BytesFault::OutOfMemory) => Err(OutOfMemory),
        Err(_) => Ok(Bytes::empty(alloc)),
    }
}

/// Compares the bytes with those that the text decodes to.
fn compare_decoded(
    alloc: Global,
    tries: &mut Tries,
    bytes: &[u8],
    text: &str,
) -> Result<(), OutOfMemory> {
    let again = decoded(alloc, text)?;
    tries.compare(again.eq_slice(bytes));
    Ok(())
}

/// `BYTES`: the bytes in base64url and in base64; both texts are decoded again.
pub fn in_base64(alloc: Global, tries: &mut Tries, input: &str) -> Result<String, RunFault> {
    let bytes = decode(alloc, input)?;
    let text = base64url(alloc, &bytes)?;
    compare_decoded(alloc, tries, &bytes, text.as_str())?;
    let other = base64(alloc, &bytes)?;
    compare_decoded(alloc, tries, &bytes, other.as_str())?;
    Ok(format!(in alloc; "{text} {other}")?)
}
