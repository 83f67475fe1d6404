//! CTAP2's canonical form.
ghost use Rattle.std.specs.Prelude.{◌<◌, ◌↔◌, None, length, option_map, IfSome, IsTrue};
ghost use Rattle.passkey_cbor.specs.Canonical.{IsCanonical, ComesAfter};
ghost use Rattle.passkey_cbor.specs.CanonicalReading.{Leaves, BeginsItem, BeginsContent, BeginsItems, BeginsPairs, BeginsString};

use crate::cursor::piece_of;
use crate::depth::MAX_DEPTH;
use crate::head::Head;
use crate::order::ctap2_order;
use std::cmp::Ordering;

/// Returns whether the bytes are exactly one data item of at most 256 levels in CTAP2's canonical
/// form: shortest heads, definite lengths, floats of any width, neither undefined nor tags, and the
/// keys of each map in ascending order (`ctap2_order`), so without duplicates. Decodes the bytes
/// once, and allocates nothing. (CTAP 2.1, section 8.)
pub fn is_canonical(bytes: &[u8]) -> bool
    ensures { IsTrue result ↔ IsCanonical bytes.now }
{
    match after_item(bytes, MAX_DEPTH) {
        None => false,
        Some(rest) => rest.is_empty(),
    }
}

/// The bytes after the canonical data item of at most `levels` levels at the beginning of these;
/// `None` if there is none.
#[cycle(canonical)]
fn after_item(bytes: &[u8], levels: usize) -> Option<&[u8]>
    ensures { Leaves (BeginsItem levels bytes.now) (option_map (λ r. r.now) result) }
{
    match Head::decode_shortest(bytes) {
        None => None,
        Some((head, rest)) => after_content(head, rest, levels),
    }
}

// The bytes after the content of a canonical data item whose head is decoded already.
#[cycle(canonical)]
fn after_content(head: Head, bytes: &[u8], levels: usize) -> Option<&[u8]>
    ensures { Leaves (BeginsContent levels head bytes.now) (option_map (λ r. r.now) result) }
{
    match head {
        Head::Unsigned(_) => Some(bytes),
        Head::Negative(_) => Some(bytes),
        Head::Float(_) => Some(bytes),
        Head::Simple(n) => {
            // Undefined isn't canonical, since it is encoded as null.
            if n == 23 { None } else { Some(bytes) }
        }
        Head::Bytes(len) => after_string(false, len?, bytes),
        Head::Text(len) => after_string(true, len?, bytes),
        Head::Array(len) => after_items(bytes, len?, levels.checked_sub(1)?),
        Head::Map(len) => after_pairs(bytes, len?, levels.checked_sub(1)?),
        Head::Tag(_) => None,
        Head::Break => None,
    }
}

// The bytes after `count` canonical data items.
#[cycle(canonical)]
fn after_items(bytes: &[u8], count: u64, levels: usize) -> Option<&[u8]>
    ensures { Leaves (BeginsItems levels count bytes.now) (option_map (λ r. r.now) result) }
{
    let mut rest = bytes;
    let mut left = count;
    while left > 0 {
        rest = after_item(rest, levels)?;
        left -= 1;
    }
    Some(rest)
}

// The bytes after `count` pairs of canonical data items with ascending keys.
#[cycle(canonical)]
fn after_pairs(bytes: &[u8], count: u64, levels: usize) -> Option<&[u8]>
    ensures { Leaves (BeginsPairs levels count None bytes.now) (option_map (λ r. r.now) result) }
{
    let mut rest = bytes;
    let mut before = None;
    let mut left = count;
    while left > 0 {
        let after_key = after_item(rest, levels)?;
        let key = &rest[..rest.len() - after_key.len()];
        if !comes_after(before, key) {
            return None;
        }
        rest = after_item(after_key, levels)?;
        before = Some(key);
        left -= 1;
    }
    Some(rest)
}

// Whether the key may follow the previous one, if there is one.
fn comes_after(before: Option<&[u8]>, key: &[u8]) -> bool
    requires before { IfSome before (λ k. 0 < length k.now) }
    requires key { 0 < length key.now }
    ensures { IsTrue result ↔ ComesAfter (option_map (λ k. k.now) before.entry) key.now }
{
    match before {
        None => true,
        Some(before) => ctap2_order(before, key) == Ordering::Less,
    }
}

// The bytes after the content of a string of this length.
fn after_string(is_text: bool, len: u64, bytes: &[u8]) -> Option<&[u8]>
    ensures { Leaves (BeginsString is_text len bytes.now) (option_map (λ r. r.now) result) }
{
    match piece_of(is_text, len, bytes) {
        None => None,
        Some((_, rest)) => Some(rest),
    }
}
