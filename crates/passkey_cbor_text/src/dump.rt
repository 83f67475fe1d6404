//! A data item's bytes, head by head, with what each means (RFC 8949, section 3).
use crate::diagnose::{diagnose, quote};
use passkey_cbor::{CborError, Cursor, Head, Value};
use passkey_memory::OutOfMemory;
use std::alloc::Global;

/// An item whose parts follow: how many are left, or `None` for those up to a break.
#[derive(Clone, Copy)]
struct Open(Option<u64>);

fn length_text(
    alloc: Global,
    what: &str,
    len: Option<u64>,
    of: &str,
) -> Result<String, OutOfMemory> {
    match len {
        Some(len) => Ok(format!(in alloc; "{what} of {len} {of}")?),
        None => Ok(format!(in alloc; "{what}, to a break")?),
    }
}

/// Returns a number, or another item that is its head alone, in diagnostic notation.
fn scalar_text(alloc: Global, bytes: &[u8]) -> Result<String, OutOfMemory> {
    match Value::from_slice(alloc, bytes) {
        Ok((value, _)) => diagnose(alloc, &value),
        Err(CborError::OutOfMemory) => Err(OutOfMemory),
        Err(_) => Ok(String::new(alloc)),
    }
}

/// Returns the meaning of a head, which is these bytes.
fn head_text(alloc: Global, head: &Head, bytes: &[u8]) -> Result<String, OutOfMemory> {
    match head {
        Head::Bytes(len) => length_text(alloc, "byte string", *len, "bytes"),
        Head::Text(len) => length_text(alloc, "text string", *len, "bytes"),
        Head::Array(len) => length_text(alloc, "array", *len, "elements"),
        Head::Map(len) => length_text(alloc, "map", *len, "members"),
        Head::Tag(tag) => Ok(format!(in alloc; "tag {tag}")?),
        Head::Simple(23) => Ok(String::from_str(alloc, "undefined")?),
        Head::Break => Ok(String::from_str(alloc, "break")?),
        _ => scalar_text(alloc, bytes),
    }
}

/// Returns the bytes from one offset to another.
fn part(bytes: &[u8], from: usize, to: usize) -> &[u8] {
    bytes.get(from..to).unwrap_or(&[])
}

fn push_line(
    out: &mut String,
    alloc: Global,
    offset: usize,
    depth: usize,
    bytes: &[u8],
    meaning: &str,
) -> Result<(), OutOfMemory> {
    write!(out, "{offset:04x}  ")?;
    for _level in 0..depth {
        out.push_str("  ")?;
    }
    out.push_str(hex::encode(alloc, bytes)?.as_str())?;
    if !meaning.is_empty() {
        out.push_str("  ")?;
        out.push_str(meaning)?;
    }
    Ok(out.push('\n')?)
}

/// Returns the meaning of a string's content.
fn content_text(alloc: Global, head: Head, content: &[u8]) -> Result<String, OutOfMemory> {
    if let Head::Text(_) = head {
        if let Ok(text) = str::from_utf8(content) {
            return quote(alloc, text);
        }
    }
    Ok(String::new(alloc))
}

/// Returns the parts that follow a head, if any may.
fn parts_of(head: Head) -> Option<Open> {
    match head {
        Head::Bytes(None) | Head::Text(None) => Some(Open(None)),
        Head::Array(len) => Some(Open(len)),
        Head::Map(len) => Some(Open(len.map(|pairs| pairs.saturating_mul(2)))),
        Head::Tag(_) => Some(Open(Some(1))),
        _ => None,
    }
}

/// Notes that a part is complete, and so each item of which it is the last one.
fn complete(open: &mut Vec<Open>) {
    for _level in 0..open.len() {
        let Some(Open(Some(left))) = open.last().copied() else {
            return;
        };
        if left > 1 {
            if let Some(last) = open.last_mut() {
                *last = Open(Some(left - 1));
            }
            return;
        }
        open.pop();
    }
}

/// Appends the content of a string whose head is at the cursor, and moves past it.
fn push_content(
    out: &mut String,
    alloc: Global,
    bytes: &[u8],
    cursor: &mut Cursor<'_>,
    head: Head,
    after: usize,
    depth: usize,
) -> Result<bool, OutOfMemory> {
    if !cursor.skip() {
        return Ok(false);
    }
    let content = part(bytes, after, cursor.place());
    if !content.is_empty() {
        let meaning = content_text(alloc, head, content)?;
        push_line(out, alloc, after, depth, content, meaning.as_str())?;
    }
    Ok(true)
}

/// Appends the head at the cursor, and the content of a string, and moves past them. Returns whether
/// more of the data item follows.
fn push_item(
    out: &mut String,
    alloc: Global,
    bytes: &[u8],
    cursor: &mut Cursor<'_>,
    open: &mut Vec<Open>,
) -> Result<bool, OutOfMemory> {
    let start = cursor.place();
    let Some(head) = cursor.head() else {
        return Ok(false);
    };
    let after = cursor.place();
    if head == Head::Break {
        open.pop();
    }
    let depth = open.len();
    let meaning = head_text(alloc, &head, part(bytes, start, after))?;
    push_line(
        out,
        alloc,
        start,
        depth,
        part(bytes, start, after),
        meaning.as_str(),
    )?;
    if let Head::Bytes(Some(_)) | Head::Text(Some(_)) = head {
        cursor.go_back(start);
        if !push_content(
            out,
            alloc,
            bytes,
            cursor,
            head,
            after,
            depth.saturating_add(1),
        )? {
            return Ok(false);
        }
    }
    match parts_of(head) {
        Some(Open(Some(0))) | None => complete(open),
        Some(parts) => open.push(parts)?,
    }
    Ok(!open.is_empty())
}

/// Returns a dump of the leading data item of the bytes: a line for each head, and one for the
/// content of a string, with the offset in hexadecimal, the bytes, indented by the levels around
/// them, and their meaning. It ends where the bytes are no longer well-formed. Texts are in quotes,
/// with the characters escaped that a terminal could take as a command. Returns `OutOfMemory` if an
/// allocation fails.
pub fn dump(alloc: Global, bytes: &[u8]) -> Result<String, OutOfMemory> {
    let mut out = String::new(alloc);
    let mut open = Vec::new(alloc);
    let mut cursor = Cursor::new(bytes);
    for _head in 0..bytes.len() {
        if !push_item(&mut out, alloc, bytes, &mut cursor, &mut open)? {
            break;
        }
    }
    Ok(out)
}
