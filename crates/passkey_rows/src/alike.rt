//! Messages decoded from bytes, and from the leading data item of the same bytes.
use crate::decoding::{Source, decode_as};
use crate::tries::Tries;
use passkey_catalogue::Kind;
use passkey_rewrite::RunFault;
use passkey_types::OutOfMemory;
use passkey_types::cbor::item_len;
use passkey_types::ctap2::Fault;
use std::alloc::Global;

// Initial bytes that change much: an unsigned integer, one that isn't well-formed, those of a text
// string, an array and a map of indefinite length, and the break.
const HEADS: [u8; 6] = [0x00, 0x1c, 0x7f, 0x9f, 0xbf, 0xff];

type Outcome = Option<Result<(Vec<u8>, usize), RunFault>>;

fn outcome(alloc: Global, kind: Kind, source: Source, bytes: &[u8]) -> Outcome {
    let mut tries = Tries::new();
    decode_as(alloc, &mut tries, kind, source, bytes).map(|it| it.outcome)
}

fn are_alike(alloc: Global, kind: Kind, bytes: &[u8]) -> bool {
    outcome(alloc, kind, Source::Bytes, bytes) == outcome(alloc, kind, Source::Item, bytes)
}

fn are_cut_off(alloc: Global, kind: Kind, item: &[u8]) -> bool {
    for len in 0..item.len() {
        let refused = RunFault::MessageRefused(Fault::DecodeFailed);
        if outcome(alloc, kind, Source::Bytes, &item[..len]) != Some(Err(refused)) {
            return false;
        }
    }
    true
}

fn are_changed_alike(
    alloc: Global,
    kind: Kind,
    item: &[u8],
    at: usize,
) -> Result<bool, OutOfMemory> {
    for head in HEADS {
        let mut changed = Vec::from_slice(alloc, item)?;
        if let Some(byte) = changed.get_mut(at) {
            *byte = head;
        }
        if !are_alike(alloc, kind, &changed) {
            return Ok(false);
        }
    }
    Ok(true)
}

fn is_decoded_alike(alloc: Global, kind: Kind, bytes: &[u8]) -> Result<bool, OutOfMemory> {
    if !are_alike(alloc, kind, bytes) {
        return Ok(false);
    }
    let Some(item) = item_len(bytes).and_then(|len| bytes.get(..len)) else {
        return Ok(true);
    };
    if !are_cut_off(alloc, kind, item) {
        return Ok(false);
    }
    for at in 0..item.len() {
        if !are_changed_alike(alloc, kind, item, at)? {
            return Ok(false);
        }
    }
    Ok(true)
}

/// Returns whether a message's bytes decode to the same message of the same length, or with the
/// same fault, over a cursor and from a data item in memory. The item is also cut off at each byte,
/// which must be `DecodeFailed`, and each of its bytes is replaced by some others. Returns true if
/// the kind is none of a message.
pub fn are_decoded_alike(alloc: Global, kind: Kind, input: &str) -> Result<bool, OutOfMemory> {
    let Ok(bytes) = hex::decode(alloc, input.trim().as_bytes()) else {
        return Ok(true);
    };
    if outcome(alloc, kind, Source::Cursor, &bytes).is_none() {
        return Ok(true);
    }
    is_decoded_alike(alloc, kind, &bytes)
}
