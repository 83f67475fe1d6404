//! Bytes of data items in diagnostic notation, with encoding indicators.
ghost use Rattle.std.specs.Prelude.{◌≡◌, ◌++◌, ◌∷◌, [], ℕ, OnOk, IfOk, length, codes, decimal, not, string_bytes, option_map};
ghost use Rattle.std.specs.Prelude.{negsuc, true, false, None as Unknown};
ghost use Rattle.std.specs.Fmt.{signed_decimal};
ghost use Rattle.passkey_cbor.specs.EncodedAt.{goes_on};
ghost use Rattle.passkey_cbor.specs.HeadReading.{head_at};
ghost use Rattle.passkey_cbor.specs.Reading.{chunk_len};
ghost use Rattle.passkey_cbor_text.specs.diagnose.Diagnosis.{closing, deeper};
ghost use Rattle.passkey_cbor_text.specs.diagnose.BytesText.{Tells, all_parts, after_last, bytes_diagnosis, chunk_text, chunks_text};
ghost use Rattle.passkey_cbor_text.specs.diagnose.BytesText.{closing_of, empty_text, fewer, gap, info_of, inner_of, item_text};
ghost use Rattle.passkey_cbor_text.specs.diagnose.BytesText.{length_mark, list_after, mark, member_text, opening_of, parts_text};
ghost use Rattle.passkey_cbor_text.specs.diagnose.BytesText.{piece_text, simple_text, string_after, tag_after, item_after};

use crate::diagnose::diagnosis::{close, deeper, push_number, push_separator, push_simple};
use crate::diagnose::float::push_float;
use crate::diagnose::text::{push_bytes, push_text};
use passkey_cbor::{Cursor, Head, MAX_DEPTH};
use passkey_memory::OutOfMemory;
use std::alloc::{AllocError, Global};
use std::str;

/// The initial byte of a break (RFC 8949, section 3.2.1).
const BREAK: u8 = 0xff;

/// Returns the head that begins the bytes, and the bytes after it.
fn front(bytes: &[u8]) -> Option<(Head, &[u8])>
    ensures { option_map (λ f. (f.0, f.1.now)) result ≡ head_at bytes.now }
{
    let mut cursor = Cursor::new(bytes);
    match cursor.head() {
        Some(head) => Some((head, &bytes[cursor.place()..])),
        None => None,
    }
}

/// Returns the additional information of the head that begins the bytes.
fn info_of(bytes: &[u8]) -> u8
    ensures { result ≡ info_of bytes.now }
{
    match bytes.split_first() {
        None => 0,
        Some((initial, _)) => *initial % 32,
    }
}

/// Returns the encoding indicator of an argument: none if it is in the fewest bytes.
fn mark(info: u8, n: u64) -> &'static str
    ensures { result.now ≡ mark info n }
{
    if info == 24 && n < 24 {
        "_0"
    } else if info == 25 && n < 0x100 {
        "_1"
    } else if info == 26 && n < 0x1_0000 {
        "_2"
    } else if info == 27 && n < 0x1_0000_0000 {
        "_3"
    } else {
        ""
    }
}

/// Returns the encoding indicator of a length.
fn length_mark(info: u8, len: Option<u64>) -> &'static str
    ensures { result.now ≡ length_mark info len }
{
    match len {
        Some(n) => mark(info, n),
        None => "_",
    }
}

/// Returns whether another part follows, if so many are left, or those up to a break.
fn goes_on(left: Option<u64>, bytes: &[u8]) -> bool
    ensures { result ≡ goes_on left bytes.now }
{
    match left {
        Some(n) => n > 0,
        None => bytes.is_empty() || bytes[0] != BREAK,
    }
}

/// Returns how many parts are left after one of them.
fn fewer(left: Option<u64>) -> Option<u64>
    ensures { result ≡ fewer left }
{
    match left {
        Some(n) => Some(n.saturating_sub(1)),
        None => None,
    }
}

/// Returns the bytes after the last part, and after the break if there is one.
#[tactic(auto, using(crate::proofs::BytesTexts::all_after))]
fn after_last(left: Option<u64>, bytes: &[u8]) -> &[u8]
    requires { goes_on left bytes.now ≡ false }
    ensures { result.now ≡ after_last left bytes.now }
{
    match left {
        Some(_) => bytes,
        None => &bytes[1..],
    }
}

/// Returns the length of a chunk with this head, or `None` if it is no chunk's head in this kind of
/// string.
fn chunk_len(is_text: bool, head: Head) -> Option<u64>
    ensures { result ≡ chunk_len is_text head }
{
    match head {
        Head::Bytes(len) => { if is_text { None } else { len } }
        Head::Text(len) => { if is_text { len } else { None } }
        _ => None,
    }
}

fn push_unsigned(out: &mut String, n: u64, indicator: &str) -> Result<(), AllocError>
    ensures { OnOk result (string_bytes out.new ≡ string_bytes out.old ++ (decimal n ++ indicator.now)) }
{
    push_number(out, i128::from(n))?;
    out.push_str(indicator)
}

/// Appends the negative integer with this argument.
fn push_negative(out: &mut String, n: u64, indicator: &str) -> Result<(), AllocError>
    ensures { OnOk result (string_bytes out.new
        ≡ string_bytes out.old ++ (signed_decimal (negsuc n) ++ indicator.now)) }
{
    push_number(out, -1 - i128::from(n))?;
    out.push_str(indicator)
}

fn push_byte_piece<'a>(
    out: &mut String,
    alloc: Global,
    indicator: &str,
    len: u64,
    bytes: &'a [u8],
) -> Result<Option<&'a [u8]>, AllocError>
    ensures { Tells (piece_text false indicator.now len bytes.now (string_bytes out.old)) (string_bytes out.new) result }
{
    if (bytes.len() as u64) < len {
        return Ok(None);
    }
    let (piece, rest) = bytes.split_at(len as usize);
    push_bytes(out, alloc, piece)?;
    out.push_str(indicator)?;
    Ok(Some(rest))
}

fn push_text_piece<'a>(
    out: &mut String,
    alloc: Global,
    indicator: &str,
    len: u64,
    bytes: &'a [u8],
) -> Result<Option<&'a [u8]>, AllocError>
    ensures { Tells (piece_text true indicator.now len bytes.now (string_bytes out.old)) (string_bytes out.new) result }
{
    if (bytes.len() as u64) < len {
        return Ok(None);
    }
    let (piece, rest) = bytes.split_at(len as usize);
    match str::from_utf8(piece) {
        Err(_) => Ok(None),
        Ok(text) => {
            push_text(out, alloc, text)?;
            out.push_str(indicator)?;
            Ok(Some(rest))
        }
    }
}

/// Appends a string, or a chunk, of this length.
fn push_piece<'a>(
    out: &mut String,
    alloc: Global,
    is_text: bool,
    indicator: &str,
    len: u64,
    bytes: &'a [u8],
) -> Result<Option<&'a [u8]>, AllocError>
    ensures { Tells (piece_text is_text indicator.now len bytes.now (string_bytes out.old)) (string_bytes out.new) result }
{
    if is_text {
        push_text_piece(out, alloc, indicator, len, bytes)
    } else {
        push_byte_piece(out, alloc, indicator, len, bytes)
    }
}

#[tactic(auto, unfolding(crate::specs::diagnose::BytesText::chunk_text))]
fn push_chunk<'a>(
    out: &mut String,
    alloc: Global,
    is_text: bool,
    bytes: &'a [u8],
) -> Result<Option<&'a [u8]>, AllocError>
    ensures { Tells (chunk_text is_text bytes.now (string_bytes out.old)) (string_bytes out.new) result }
{
    match front(bytes) {
        None => Ok(None),
        Some((head, rest)) => match chunk_len(is_text, head) {
            None => Ok(None),
            Some(len) => push_piece(out, alloc, is_text, mark(info_of(bytes), len), len, rest),
        },
    }
}

/// Appends the chunks up to the break, with commas between them.
fn push_all_chunks<'a>(
    out: &mut String,
    alloc: Global,
    is_text: bool,
    bytes: &'a [u8],
) -> Result<Option<&'a [u8]>, AllocError>
    ensures { Tells (all_parts (chunk_text is_text) [] Unknown bytes.now (string_bytes out.old)) (string_bytes out.new)
        result }
{
    let mut here = bytes;
    let mut others = bytes.len();
    let mut is_first = true;
    while goes_on(None, here) {
        if others == 0 {
            return Ok(None);
        }
        others -= 1;
        push_separator(out, is_first, "")?;
        match push_chunk(out, alloc, is_text, here)? {
            None => return Ok(None),
            Some(next) => here = next,
        }
        is_first = false;
    }
    Ok(Some(after_last(None, here)))
}

/// Appends a string of indefinite length, whose head is in front of the bytes.
fn push_chunks<'a>(
    out: &mut String,
    alloc: Global,
    is_text: bool,
    bytes: &'a [u8],
) -> Result<Option<&'a [u8]>, AllocError>
    ensures { Tells (chunks_text is_text bytes.now (string_bytes out.old)) (string_bytes out.new) result }
{
    if !goes_on(None, bytes) {
        out.push_str(if is_text { "\"\"_" } else { "''_" })?;
        return Ok(Some(&bytes[1..]));
    }
    out.push_str("(_ ")?;
    match push_all_chunks(out, alloc, is_text, bytes)? {
        None => Ok(None),
        Some(rest) => {
            out.push(')')?;
            Ok(Some(rest))
        }
    }
}

#[tactic(auto, unfolding(crate::specs::diagnose::BytesText::string_after))]
fn push_string<'a>(
    out: &mut String,
    alloc: Global,
    is_text: bool,
    info: u8,
    len: Option<u64>,
    bytes: &'a [u8],
) -> Result<Option<&'a [u8]>, AllocError>
    ensures { Tells (string_after is_text info len bytes.now (string_bytes out.old)) (string_bytes out.new) result }
{
    match len {
        Some(n) => push_piece(out, alloc, is_text, mark(info, n), n, bytes),
        None => push_chunks(out, alloc, is_text, bytes),
    }
}

/// Appends a simple value (RFC 8949, section 3.3).
fn push_simple_value(out: &mut String, n: u8) -> Result<(), AllocError>
    ensures { OnOk result (string_bytes out.new ≡ string_bytes out.old ++ simple_text n) }
{
    match n {
        20 => out.push_str("false"),
        21 => out.push_str("true"),
        22 => out.push_str("null"),
        23 => out.push_str("undefined"),
        _ => push_simple(out, n),
    }
}

/// Appends an opening bracket and the encoding indicator.
fn open(out: &mut String, is_map: bool, indicator: &str, margin: &str) -> Result<(), AllocError>
    ensures { OnOk result (string_bytes out.new
        ≡ string_bytes out.old ++ opening_of is_map ∷ (indicator.now ++ gap indicator.now margin.now)) }
{
    out.push(if is_map { '{' } else { '[' })?;
    out.push_str(indicator)?;
    if !indicator.is_empty() && margin.is_empty() {
        out.push(' ')?;
    }
    Ok(())
}

/// Appends a closing bracket, which is a line of its own after elements or members.
fn end(out: &mut String, is_map: bool, is_empty: bool, margin: &str) -> Result<(), AllocError>
    ensures { OnOk result (string_bytes out.new
        ≡ string_bytes out.old ++ (closing is_empty margin.now ++ closing_of is_map ∷ [])) }
{
    if is_map {
        close(out, is_empty, margin, '}')
    } else {
        close(out, is_empty, margin, ']')
    }
}

/// Appends an element, or a key and a value.
#[cycle(bytes)]
fn push_member<'a>(
    out: &mut String,
    alloc: Global,
    is_map: bool,
    bytes: &'a [u8],
    levels: usize,
    margin: &str,
) -> Result<Option<&'a [u8]>, AllocError>
    ensures { Tells (member_text (item_text levels margin.now) is_map bytes.now (string_bytes out.old))
        (string_bytes out.new) result }
{
    if !is_map {
        return push_item(out, alloc, bytes, levels, margin);
    }
    match push_item(out, alloc, bytes, levels, margin)? {
        None => Ok(None),
        Some(rest) => {
            out.push_str(": ")?;
            push_item(out, alloc, rest, levels, margin)
        }
    }
}

/// Appends the elements of an array, or the members of a map, of this length.
#[cycle(bytes)]
fn push_members<'a>(
    out: &mut String,
    alloc: Global,
    is_map: bool,
    len: Option<u64>,
    bytes: &'a [u8],
    levels: usize,
    margin: &str,
) -> Result<Option<&'a [u8]>, AllocError>
    ensures { Tells (all_parts (member_text (item_text levels margin.now) is_map) margin.now len bytes.now
        (string_bytes out.old)) (string_bytes out.new) result }
{
    let mut here = bytes;
    let mut left = len;
    let mut others = bytes.len();
    let mut is_first = true;
    while goes_on(left, here) {
        if others == 0 {
            return Ok(None);
        }
        others -= 1;
        push_separator(out, is_first, margin)?;
        match push_member(out, alloc, is_map, here, levels, margin)? {
            None => return Ok(None),
            Some(next) => here = next,
        }
        left = fewer(left);
        is_first = false;
    }
    Ok(Some(after_last(left, here)))
}

/// Appends an array or a map whose head, with this encoding indicator, is in front of the bytes.
#[cycle(bytes)]
fn push_list<'a>(
    out: &mut String,
    alloc: Global,
    is_map: bool,
    indicator: &str,
    len: Option<u64>,
    bytes: &'a [u8],
    levels: usize,
    margin: &str,
) -> Result<Option<&'a [u8]>, AllocError>
    ensures { Tells (list_after (item_text levels) is_map margin.now indicator.now len bytes.now (string_bytes out.old))
        (string_bytes out.new) result }
{
    let inner = deeper(alloc, margin)?;
    open(out, is_map, indicator, margin)?;
    match push_members(out, alloc, is_map, len, bytes, levels, inner.as_str())? {
        None => Ok(None),
        Some(rest) => {
            end(out, is_map, !goes_on(len, bytes), margin)?;
            Ok(Some(rest))
        }
    }
}

#[cycle(bytes)]
fn push_tagged<'a>(
    out: &mut String,
    alloc: Global,
    tag: u64,
    indicator: &str,
    bytes: &'a [u8],
    levels: usize,
    margin: &str,
) -> Result<Option<&'a [u8]>, AllocError>
    ensures { Tells (tag_after (item_text levels) margin.now indicator.now tag bytes.now (string_bytes out.old))
        (string_bytes out.new) result }
{
    push_unsigned(out, tag, indicator)?;
    out.push('(')?;
    match push_item(out, alloc, bytes, levels, margin)? {
        None => Ok(None),
        Some(rest) => {
            out.push(')')?;
            Ok(Some(rest))
        }
    }
}

/// Appends a data item whose head, with this additional information, is in front of the bytes.
#[cycle(bytes)]
fn push_after<'a>(
    out: &mut String,
    alloc: Global,
    head: Head,
    info: u8,
    bytes: &'a [u8],
    levels: usize,
    margin: &str,
) -> Result<Option<&'a [u8]>, AllocError>
    ensures { Tells (item_after (inner_of levels) margin.now info head bytes.now (string_bytes out.old)) (string_bytes out.new)
        result }
{
    match head {
        Head::Unsigned(n) => {
            push_unsigned(out, n, mark(info, n))?;
            Ok(Some(bytes))
        }
        Head::Negative(n) => {
            push_negative(out, n, mark(info, n))?;
            Ok(Some(bytes))
        }
        Head::Bytes(len) => push_string(out, alloc, false, info, len, bytes),
        Head::Text(len) => push_string(out, alloc, true, info, len, bytes),
        Head::Simple(n) => {
            push_simple_value(out, n)?;
            Ok(Some(bytes))
        }
        Head::Float(f) => {
            push_float(out, f)?;
            Ok(Some(bytes))
        }
        Head::Break => Ok(None),
        Head::Array(len) => match levels.checked_sub(1) {
            None => Ok(None),
            Some(inner) => {
                let indicator = length_mark(info, len);
                push_list(out, alloc, false, indicator, len, bytes, inner, margin)
            }
        },
        Head::Map(len) => match levels.checked_sub(1) {
            None => Ok(None),
            Some(inner) => {
                let indicator = length_mark(info, len);
                push_list(out, alloc, true, indicator, len, bytes, inner, margin)
            }
        },
        Head::Tag(tag) => match levels.checked_sub(1) {
            None => Ok(None),
            Some(inner) => push_tagged(out, alloc, tag, mark(info, tag), bytes, inner, margin),
        },
    }
}

#[cycle(bytes)]
fn push_item<'a>(
    out: &mut String,
    alloc: Global,
    bytes: &'a [u8],
    levels: usize,
    margin: &str,
) -> Result<Option<&'a [u8]>, AllocError>
    ensures { Tells (item_text levels margin.now bytes.now (string_bytes out.old)) (string_bytes out.new) result }
{
    match front(bytes) {
        None => Ok(None),
        Some((head, rest)) => push_after(out, alloc, head, info_of(bytes), rest, levels, margin),
    }
}

fn bytes_with_margin(
    alloc: Global,
    bytes: &[u8],
    margin: &str,
) -> Result<Option<String>, OutOfMemory>
    ensures { IfOk result (λ text. option_map string_bytes text ≡ bytes_diagnosis margin.now bytes.now) }
{
    let mut text = String::new(alloc);
    match push_item(&mut text, alloc, bytes, MAX_DEPTH, margin)? {
        None => Ok(None),
        Some(_) => Ok(Some(text)),
    }
}

/// Returns the data item at the beginning of the bytes in diagnostic notation, in one line, as
/// `diagnose` does, and how it is encoded where that isn't the shortest form (RFC 8949, section 8.1):
/// `_` in brackets for an indefinite length, a string of indefinite length as its chunks in
/// parentheses, and `_0`, `_1`, `_2` or `_3` after an argument or a bracket for 1, 2, 4 or 8 bytes
/// where fewer would do. `undefined` is told from `null`. Bytes after the item are ignored. Returns
/// `None` if no well-formed item of at most 256 levels begins the bytes, and `OutOfMemory` if an
/// allocation fails.
pub fn diagnose_bytes(alloc: Global, bytes: &[u8]) -> Result<Option<String>, OutOfMemory>
    ensures { IfOk result (λ text. option_map string_bytes text ≡ bytes_diagnosis [] bytes.now) }
{
    bytes_with_margin(alloc, bytes, "")
}

/// The same with each element of an array and each member of a map on a line of its own, indented
/// by two spaces for each level.
pub fn diagnose_bytes_indented(alloc: Global, bytes: &[u8]) -> Result<Option<String>, OutOfMemory>
    ensures { IfOk result (λ text. option_map string_bytes text ≡ bytes_diagnosis (10 ∷ []) bytes.now) }
{
    bytes_with_margin(alloc, bytes, "\n")
}
