//! Text and bytes in quotes.
ghost use Rattle.std.specs.Prelude.{◌≡◌, ◌++◌, ◌∷◌, [], OnOk, IfOk, flat_map, codes, string_bytes};
ghost use Rattle.std.specs.Int.{w16, to_be_bytes};
ghost use Rattle.std.specs.Str.{chars};
ghost use Rattle.hex.specs.Hex.{encode_lower};
ghost use Rattle.passkey_cbor_text.specs.diagnose.Quoted.{is_escaped, char_text, quoted, visible_text};

use passkey_memory::OutOfMemory;
use std::alloc::{AllocError, Global};

/// Returns whether a character is escaped by its code: the control characters of C0 and C1, DEL,
/// the separators of lines and paragraphs, and what changes the direction of text.
fn is_escaped(c: char) -> bool
    ensures { result ≡ is_escaped c }
{
    matches!(
        c as u32,
        0..0x20 | 0x7f..0xa0 | 0x061c | 0x200e..0x2010 | 0x2028..0x202f | 0x2066..0x206a
    )
}

fn push_code(out: &mut String, alloc: Global, code: u16) -> Result<(), AllocError>
    ensures { OnOk result (string_bytes out.new
        ≡ string_bytes out.old ++ 92 ∷ 117 ∷ encode_lower (to_be_bytes w16 code)) }
{
    let digits = hex::encode(alloc, &code.to_be_bytes())?;
    out.push_str("\\u")?;
    out.push_str(digits.as_str())
}

/// Appends the character as it stands in a JSON string (RFC 8259, section 7). Those that a terminal
/// could take as a command are escaped: control characters, the separators of lines and paragraphs,
/// and what changes the direction of text.
pub(crate) fn push_char(out: &mut String, alloc: Global, c: char) -> Result<(), AllocError>
    ensures { OnOk result (string_bytes out.new ≡ string_bytes out.old ++ char_text c) }
{
    if c == '"' {
        out.push_str("\\\"")
    } else if c == '\\' {
        out.push_str("\\\\")
    } else if c == '\n' {
        out.push_str("\\n")
    } else if is_escaped(c) {
        push_code(out, alloc, c as u16)
    } else {
        out.push(c)
    }
}

fn push_chars(out: &mut String, alloc: Global, text: &str) -> Result<(), AllocError>
    ensures { OnOk result (string_bytes out.new ≡ string_bytes out.old ++ flat_map char_text (chars text.now)) }
{
    for c in text.chars() {
        push_char(out, alloc, c)?;
    }
    Ok(())
}

/// Appends the text in double quotes.
pub(crate) fn push_text(out: &mut String, alloc: Global, text: &str) -> Result<(), AllocError>
    ensures { OnOk result (string_bytes out.new ≡ string_bytes out.old ++ quoted text.now) }
{
    out.push('"')?;
    push_chars(out, alloc, text)?;
    out.push('"')
}

/// Appends the bytes in hexadecimal.
pub(crate) fn push_bytes(out: &mut String, alloc: Global, bytes: &[u8]) -> Result<(), AllocError>
    ensures { OnOk result (string_bytes out.new
        ≡ string_bytes out.old ++ (codes "h'" ++ encode_lower bytes.now ++ 39 ∷ [])) }
{
    let digits = hex::encode(alloc, bytes)?;
    out.push_str("h'")?;
    out.push_str(digits.as_str())?;
    out.push('\'')
}

/// Returns the text as a JSON string (RFC 8259, section 7), in which each character is escaped that
/// a terminal could take as a command. Returns `OutOfMemory` if an allocation fails.
pub fn quote(alloc: Global, text: &str) -> Result<String, OutOfMemory>
    ensures { IfOk result (λ s. string_bytes s ≡ quoted text.now) }
{
    let mut out = String::new(alloc);
    push_text(&mut out, alloc, text)?;
    Ok(out)
}

fn push_visible(out: &mut String, alloc: Global, c: char) -> Result<(), AllocError>
    ensures { OnOk result (string_bytes out.new ≡ string_bytes out.old ++ visible_text c) }
{
    if c != '\n' && is_escaped(c) {
        push_code(out, alloc, c as u16)
    } else {
        out.push(c)
    }
}

/// Returns the text with each character escaped by its code that a terminal could take as a
/// command, as in a JSON string, but for line feeds. A JSON text keeps its value. Returns
/// `OutOfMemory` if an allocation fails.
pub fn escape_controls(alloc: Global, text: &str) -> Result<String, OutOfMemory>
    ensures { IfOk result (λ s. string_bytes s ≡ flat_map visible_text (chars text.now)) }
{
    let mut out = String::new(alloc);
    for c in text.chars() {
        push_visible(&mut out, alloc, c)?;
    }
    Ok(out)
}
