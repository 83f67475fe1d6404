//! Data items without others in them, whose head has at most two bytes.
ghost use Rattle.std.specs.Prelude.{◌≡◌, ◌<◌, ◌≤◌, List, ℕ, ◌∷◌, drop, length, true, IfSome, Some as There};
ghost use Rattle.passkey_cbor.specs.HeadReading.{head_at};
ghost use Rattle.passkey_cbor.specs.Lent.{string_head};
ghost use Rattle.passkey_cbor.specs.Leaf.{Headed, IsLeafLen};

use crate::cursor::is_allowed;
use crate::head::Head;

/// Returns the length of the head of a string of this kind at the beginning of the bytes, and the
/// length that it names, if the head has one byte, or two with the argument in the second.
#[inline(always)]
pub(crate) fn short_string_head(is_text: bool, bytes: &[u8]) -> Option<(usize, usize)>
    ensures headed { IfSome result (λ r. Headed bytes.now r.0 (string_head is_text (There r.1)) (drop r.0 bytes.now)) }
    ensures len { IfSome result (λ r. (0 < r.0) × (r.0 ≤ length bytes.now)) }
{
    if bytes.is_empty() {
        return None;
    }
    if let Some(len) = len_in_initial(is_text, bytes[0]) {
        return Some((1, usize::from(len)));
    }
    if bytes.len() < 2 || !has_len_in_byte(is_text, bytes[0]) {
        return None;
    }
    Some((2, usize::from(bytes[1])))
}

// The string's length in this initial byte, if it is that of a string of this kind shorter than 24
// bytes (RFC 8949, section 3).
#[inline(always)]
fn len_in_initial(is_text: bool, initial: u8) -> Option<u8>
    ensures { IfSome result (λ n. (rest : List ℕ)
        → head_at (initial ∷ rest) ≡ There (string_head is_text (There n), rest)) }
{
    let first: u8 = if is_text { 0x60 } else { 0x40 };
    if initial < first || initial - first >= 24 {
        return None;
    }
    Some(initial - first)
}

// Whether this initial byte is that of a string of this kind whose length is in the next byte.
#[inline(always)]
fn has_len_in_byte(is_text: bool, initial: u8) -> bool
    ensures { result ≡ true → (n : ℕ) (rest : List ℕ) → n < 256
        → head_at (initial ∷ (n ∷ rest)) ≡ There (string_head is_text (There n), rest) }
{
    initial == if is_text { 0x78 } else { 0x58 }
}

/// Returns the length of the number, the simple value or the string at the beginning of the bytes,
/// if its head has one byte, or two with the argument in the second, and nothing is wrong with it;
/// else 0.
pub(crate) fn leaf_len(bytes: &[u8]) -> usize
    ensures leaf { 0 < result → IsLeafLen bytes.now result }
{
    let (initial, rest) = match bytes.split_first() {
        None => return 0,
        Some(parts) => parts,
    };
    match Head::short(*initial) {
        Some(head) => len_with(1, head, rest),
        None => two_byte_len(*initial, rest),
    }
}

// The same for a head of two bytes, whose initial byte comes before these.
#[inline(always)]
fn two_byte_len(initial: u8, bytes: &[u8]) -> usize
    ensures leaf { 0 < result → IsLeafLen (initial ∷ bytes.now) result }
{
    let (argument, rest) = match bytes.split_first() {
        None => return 0,
        Some(parts) => parts,
    };
    match Head::with_byte(initial, *argument) {
        Some(head) => len_with(2, head, rest),
        None => 0,
    }
}

// The length of such an item, whose head has this many bytes and is followed by these; else 0.
#[inline(always)]
fn len_with(head_len: usize, head: Head, rest: &[u8]) -> usize
    requires { head_len ≤ 2 }
    ensures leaf { 0 < result → (bytes : List ℕ) → Headed bytes head_len head rest.now → IsLeafLen bytes result }
{
    match head {
        Head::Unsigned(_) => head_len,
        Head::Negative(_) => head_len,
        Head::Simple(_) => head_len,
        Head::Bytes(len) => string_len(head_len, false, len, rest),
        Head::Text(len) => string_len(head_len, true, len, rest),
        _ => 0,
    }
}

// The same for a string of this kind, and the length in its head.
#[inline(always)]
fn string_len(head_len: usize, is_text: bool, len: Option<u64>, rest: &[u8]) -> usize
    requires { head_len ≤ 2 }
    ensures leaf { 0 < result → (bytes : List ℕ) → Headed bytes head_len (string_head is_text len) rest.now
        → IsLeafLen bytes result }
{
    let size = match len {
        None => return 0,
        Some(len) => len as usize,
    };
    if rest.len() < size || !is_allowed(is_text, &rest[..size]) {
        return 0;
    }
    head_len + size
}
