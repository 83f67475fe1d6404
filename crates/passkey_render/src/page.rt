//! A page of HTML: what is in a message, beside its bytes.

use crate::leaf::leaf_text;
use passkey_cbor::{Cursor, Head};
use passkey_cbor_text::diagnose::diagnose;
use passkey_explain::{Description, FieldName};
use passkey_memory::OutOfMemory;
use std::alloc::Global;

/// How many colours there are; the members of the outermost item have them in turn.
const COLOURS: usize = 6;

/// What stands before the tree. The colours are told by class. The innermost item under the pointer is
/// lit, with all that is in it.
const STYLE: &str = "<style>
body { font: 14px/1.5 sans-serif; margin: 1em; color: #222; background: #fff; }
ul { list-style: none; margin: 0; padding: 0 0 0 1.5em; border-left: 1px solid #ddd; }
li:hover:not(:has(li:hover)) { background: #fff3c4; }
code { font-size: 12px; color: #555; overflow-wrap: anywhere; }
b { margin-right: .5em; }
.c0 b { color: #b00020; } .c1 b { color: #1b5e20; } .c2 b { color: #0d47a1; }
.c3 b { color: #6a1b9a; } .c4 b { color: #8d4b00; } .c5 b { color: #00606b; }
</style>
";

/// Appends text with the characters escaped that HTML gives a meaning (HTML Standard, section 13.1).
fn push_escaped(out: &mut String, text: &str) -> Result<(), OutOfMemory> {
    for c in text.chars() {
        match c {
            '&' => out.push_str("&amp;")?,
            '<' => out.push_str("&lt;")?,
            '>' => out.push_str("&gt;")?,
            '"' => out.push_str("&quot;")?,
            '\'' => out.push_str("&#39;")?,
            _ => out.push(c)?,
        }
    }
    Ok(())
}

/// An item that is shown: its name, and the class of its colour, if it has one of its own.
#[derive(Clone, Copy)]
struct Shown<'a> {
    name: &'a str,
    colour: Option<usize>,
}

/// Opens an item of the tree: its name, its value and its bytes.
fn open_item(
    out: &mut String,
    alloc: Global,
    shown: Shown<'_>,
    value: &str,
    bytes: &[u8],
) -> Result<(), OutOfMemory> {
    match shown.colour {
        Some(index) => write!(out, "<li class=\"c{}\">", index % COLOURS)?,
        None => out.push_str("<li>")?,
    }
    out.push_str("<b>")?;
    push_escaped(out, shown.name)?;
    out.push_str("</b>")?;
    push_escaped(out, value)?;
    if !bytes.is_empty() {
        out.push_str(" <code>")?;
        out.push_str(hex::encode(alloc, bytes)?.as_str())?;
        out.push_str("</code>")?;
    }
    Ok(())
}

/// Returns the bytes from one offset to another.
fn part(bytes: &[u8], from: usize, to: usize) -> &[u8] {
    bytes.get(from..to).unwrap_or(&[])
}

/// Passes the item at the cursor, and returns its bytes.
fn pass<'a>(bytes: &'a [u8], cursor: &mut Cursor<'_>) -> &'a [u8] {
    let start = cursor.place();
    cursor.skip();
    part(bytes, start, cursor.place())
}

/// Passes the head of an array or a map, and returns its bytes and whether a break ends it. Passes
/// another item as a whole: what is in it isn't in these bytes as it is.
fn enter<'a>(bytes: &'a [u8], cursor: &mut Cursor<'_>) -> (&'a [u8], bool, bool) {
    let start = cursor.place();
    match cursor.head() {
        Some(Head::Array(len) | Head::Map(len)) => {
            (part(bytes, start, cursor.place()), true, len.is_none())
        }
        _ => {
            cursor.go_back(start);
            (pass(bytes, cursor), false, false)
        }
    }
}

fn name_text(alloc: Global, name: &FieldName) -> Result<String, OutOfMemory> {
    match name {
        FieldName::Member(_, name) => Ok(String::from_str(alloc, name)?),
        FieldName::Unknown(key) => diagnose(alloc, key),
    }
}

/// Appends what is in a description: its elements, or its members, whose keys are in the bytes too.
#[cycle(page)]
fn push_parts(
    out: &mut String,
    alloc: Global,
    description: &Description,
    bytes: &[u8],
    cursor: &mut Cursor<'_>,
    is_outermost: bool,
) -> Result<(), OutOfMemory> {
    match description {
        Description::Leaf(_, _) => Ok(()),
        Description::List(items) => {
            for (index, item) in items.iter().enumerate() {
                let name = format!(in alloc; "[{index}]")?;
                let shown = Shown {
                    name: name.as_str(),
                    colour: if is_outermost { Some(index) } else { None },
                };
                push_item(out, alloc, shown, item, bytes, cursor)?;
            }
            Ok(())
        }
        Description::Map(pairs) => {
            for (index, (key, value)) in pairs.iter().enumerate() {
                let name = diagnose(alloc, key)?;
                let shown = Shown {
                    name: name.as_str(),
                    colour: if is_outermost { Some(index) } else { None },
                };
                cursor.skip();
                push_item(out, alloc, shown, value, bytes, cursor)?;
            }
            Ok(())
        }
        Description::Record(fields) => {
            for (index, (name, value)) in fields.iter().enumerate() {
                let name = name_text(alloc, name)?;
                let shown = Shown {
                    name: name.as_str(),
                    colour: if is_outermost { Some(index) } else { None },
                };
                cursor.skip();
                push_item(out, alloc, shown, value, bytes, cursor)?;
            }
            Ok(())
        }
    }
}

/// Appends an item of the tree, and passes its bytes.
#[cycle(page)]
fn push_item(
    out: &mut String,
    alloc: Global,
    shown: Shown<'_>,
    description: &Description,
    bytes: &[u8],
    cursor: &mut Cursor<'_>,
) -> Result<(), OutOfMemory> {
    if let Description::Leaf(wanted, value) = description {
        let text = leaf_text(alloc, *wanted, value)?;
        let own = pass(bytes, cursor);
        open_item(out, alloc, shown, text.as_str(), own)?;
        return Ok(out.push_str("</li>\n")?);
    }
    let (own, is_entered, has_break) = enter(bytes, cursor);
    open_item(out, alloc, shown, "", own)?;
    out.push_str("<ul>\n")?;
    if is_entered {
        push_parts(out, alloc, description, bytes, cursor, false)?;
    } else {
        push_parts(out, alloc, description, &[], &mut Cursor::new(&[]), false)?;
    }
    if has_break {
        cursor.head();
    }
    Ok(out.push_str("</ul></li>\n")?)
}

fn push_head(out: &mut String, title: &str) -> Result<(), OutOfMemory> {
    out.push_str("<!DOCTYPE html>\n<html lang=\"en\">\n<meta charset=\"utf-8\">\n<title>")?;
    push_escaped(out, title)?;
    out.push_str("</title>\n")?;
    out.push_str(STYLE)?;
    out.push_str("<h1>")?;
    push_escaped(out, title)?;
    Ok(out.push_str("</h1>\n")?)
}

/// Returns a page of HTML with what is in a description, as a tree: names and values, beside each
/// item the bytes that encode it, in a colour for each member of the outermost item. All text is
/// escaped, and the page takes nothing from elsewhere. Authenticator data, which aren't a data item,
/// and what is inside byte strings, stand without bytes of their own. Returns `OutOfMemory` if an
/// allocation fails.
pub fn page_of(
    alloc: Global,
    title: &str,
    description: &Description,
    bytes: &[u8],
) -> Result<String, OutOfMemory> {
    let mut out = String::new(alloc);
    push_head(&mut out, title)?;
    out.push_str("<ul>\n")?;
    let mut cursor = Cursor::new(bytes);
    let shown = Shown {
        name: title,
        colour: None,
    };
    if let Description::Leaf(_, _) = description {
        push_item(&mut out, alloc, shown, description, bytes, &mut cursor)?;
        out.push_str("</ul>\n")?;
        return Ok(out);
    }
    let (own, is_entered, _) = enter(bytes, &mut cursor);
    open_item(&mut out, alloc, shown, "", own)?;
    out.push_str("<ul>\n")?;
    if is_entered {
        push_parts(&mut out, alloc, description, bytes, &mut cursor, true)?;
    } else {
        push_parts(
            &mut out,
            alloc,
            description,
            &[],
            &mut Cursor::new(&[]),
            true,
        )?;
    }
    out.push_str("</ul></li>\n</ul>\n")?;
    Ok(out)
}

/// Returns a page of HTML with the reason for a refusal, and the bytes, of which those from one
/// offset to another are marked, or the place between two if there are none. Returns `OutOfMemory` if
/// an allocation fails.
pub fn refusal_page(
    alloc: Global,
    title: &str,
    reason: &str,
    bytes: &[u8],
    from: usize,
    to: usize,
) -> Result<String, OutOfMemory> {
    let mut out = String::new(alloc);
    push_head(&mut out, title)?;
    out.push_str("<pre>")?;
    push_escaped(&mut out, reason)?;
    out.push_str("</pre>\n<p><code>")?;
    out.push_str(hex::encode(alloc, part(bytes, 0, from))?.as_str())?;
    out.push_str("<mark>")?;
    let marked = part(bytes, from, to);
    if marked.is_empty() {
        out.push_str("&nbsp;")?;
    } else {
        out.push_str(hex::encode(alloc, marked)?.as_str())?;
    }
    out.push_str("</mark>")?;
    out.push_str(hex::encode(alloc, part(bytes, to, bytes.len()))?.as_str())?;
    out.push_str("</code></p>\n")?;
    Ok(out)
}
