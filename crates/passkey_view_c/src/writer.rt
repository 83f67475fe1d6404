//! CBOR in CTAP2's canonical form, written into the caller's memory, for C.
ghost use Rattle.std.specs.Prelude.{◌≡◌, ◌<◌, ◌≤◌, ◌^◌, ◌-◌, ◌+◌, ◌++◌, ◌∷◌, ◌↔◌, [], IsTrue, false, length};
ghost use Rattle.std.specs.Str.{IsUtf8};
ghost use Rattle.passkey_cbor.specs.Canonical.{IsCanonical};
ghost use Rattle.passkey_cbor.specs.Item.{boolean, byte_string, null, number, text_string};
ghost use Rattle.passkey_cbor.specs.Written.{shortest_head, written};
ghost use Rattle.passkey_view_c.specs.Writer.{Appended, IsBroken, IsWritten, Puts};

use std::str;

/// Says that a call failed by a length that no buffer has, so that each later call fails, too.
fn broken(len: &mut usize) -> bool
    ensures length { len.new ≡ 2 ^ 64 - 1 }
    ensures failed { result ≡ false }
{
    *len = usize::MAX;
    false
}

/// Appends the bytes to those that are written.
fn append(out: &mut [u8], len: &mut usize, bytes: &[u8])
    requires { len.old + length bytes.now ≤ length out.old }
    ensures { Appended bytes.now out.old len.old out.new len.new }
{
    let end = *len + bytes.len();
    out[*len..end].copy_from_slice(bytes);
    *len = end;
}

/// Appends the bytes, if there is room for them.
fn put(out: &mut [u8], len: &mut usize, bytes: &[u8]) -> bool
    ensures { Puts bytes.now out.old len.old out.new len.new result }
{
    if *len > out.len() {
        return broken(len);
    }
    if out.len() - *len < bytes.len() {
        return broken(len);
    }
    append(out, len, bytes);
    true
}

/// Appends a head, by its initial byte and the bytes of its argument, and the content after it, if there is
/// room for all of them.
fn put_item(out: &mut [u8], len: &mut usize, initial: u8, argument: &[u8], content: &[u8]) -> bool
    ensures { Puts (initial ∷ (argument.now ++ content.now)) out.old len.old out.new len.new result }
{
    if *len >= out.len() {
        return broken(len);
    }
    let room = out.len() - *len - 1;
    if room < argument.len() {
        return broken(len);
    }
    if room - argument.len() < content.len() {
        return broken(len);
    }
    append(out, len, &[initial]);
    append(out, len, argument);
    append(out, len, content);
    true
}

/// Appends the shortest head with this argument, and the content after it, if there is room for both.
#[tactic(auto, unfolding(passkey_cbor::specs::Written::shortest_head))]
fn put_head(out: &mut [u8], len: &mut usize, major: u8, argument: u64, content: &[u8]) -> bool
    requires { major < 8 }
    ensures { Puts (shortest_head major argument ++ content.now) out.old len.old out.new len.new result }
{
    let initial = 32 * major;
    if argument < 24 {
        put_item(out, len, initial + argument as u8, &[], content)
    } else if argument < 0x100 {
        put_item(
            out,
            len,
            initial + 24,
            &(argument as u8).to_be_bytes(),
            content,
        )
    } else if argument < 0x1_0000 {
        put_item(
            out,
            len,
            initial + 25,
            &(argument as u16).to_be_bytes(),
            content,
        )
    } else if argument < 0x1_0000_0000 {
        put_item(
            out,
            len,
            initial + 26,
            &(argument as u32).to_be_bytes(),
            content,
        )
    } else {
        put_item(out, len, initial + 27, &argument.to_be_bytes(), content)
    }
}

/// Appends the head of a map of so many members, each of which is to be appended next, its key before its
/// value, in CTAP2's order (major type 5). `len` is the length of what stands in `out` so far, 0 at first,
/// and grows by what is appended. Returns true then. If there is no room for all of it, returns false, leaves
/// `out` as it was, and sets `len` to SIZE_MAX, with which each later call returns false, too: so it is
/// enough to look at what `puffgrit_write_end` returns. Never writes beyond `out`, nor over what stands in
/// it. (RFC 8949, section 3.1; CTAP 2.1, section 8.)
#[unsafe(no_mangle)]
pub extern "C" fn puffgrit_write_map(out: &mut [u8], len: &mut usize, members: u64) -> bool
    ensures { Puts (shortest_head 5 members) out.old len.old out.new len.new result }
{
    put_head(out, len, 5, members, &[])
}

/// Appends the head of an array of so many elements, which are to be appended next (major type 4), as
/// `puffgrit_write_map` does.
#[unsafe(no_mangle)]
pub extern "C" fn puffgrit_write_array(out: &mut [u8], len: &mut usize, elements: u64) -> bool
    ensures { Puts (shortest_head 4 elements) out.old len.old out.new len.new result }
{
    put_head(out, len, 4, elements, &[])
}

/// Appends an integer (major types 0 and 1), as `puffgrit_write_map` does.
#[unsafe(no_mangle)]
pub extern "C" fn puffgrit_write_int(out: &mut [u8], len: &mut usize, value: i64) -> bool
    ensures { Puts (written (number value)) out.old len.old out.new len.new result }
{
    if value >= 0 {
        put_head(out, len, 0, value as u64, &[])
    } else {
        put_head(out, len, 1, (-1 - value) as u64, &[])
    }
}

/// Appends a byte string (major type 2), as `puffgrit_write_map` does.
#[unsafe(no_mangle)]
pub extern "C" fn puffgrit_write_bytes(out: &mut [u8], len: &mut usize, bytes: &[u8]) -> bool
    ensures { Puts (written (byte_string bytes.now)) out.old len.old out.new len.new result }
{
    put_head(out, len, 2, bytes.len() as u64, bytes)
}

/// Appends a text string (major type 3), as `puffgrit_write_map` does. Fails, too, if the bytes aren't UTF-8.
#[unsafe(no_mangle)]
pub extern "C" fn puffgrit_write_text(out: &mut [u8], len: &mut usize, text: &[u8]) -> bool
    ensures text { IsUtf8 text.now → Puts (written (text_string text.now)) out.old len.old out.new len.new result }
    ensures other { (IsUtf8 text.now → ⊥) → IsBroken out.old out.new len.new result }
{
    match str::from_utf8(text) {
        Ok(text) => put_head(out, len, 3, text.len() as u64, text.as_bytes()),
        Err(_) => broken(len),
    }
}

/// Appends false or true (major type 7), as `puffgrit_write_map` does.
#[unsafe(no_mangle)]
pub extern "C" fn puffgrit_write_bool(out: &mut [u8], len: &mut usize, value: bool) -> bool
    ensures { Puts (written (boolean value)) out.old len.old out.new len.new result }
{
    put(out, len, if value { b"\xf5" } else { b"\xf4" })
}

/// Appends null (major type 7), as `puffgrit_write_map` does.
#[unsafe(no_mangle)]
pub extern "C" fn puffgrit_write_null(out: &mut [u8], len: &mut usize) -> bool
    ensures { Puts (written null) out.old len.old out.new len.new result }
{
    put(out, len, b"\xf6")
}

/// Appends a data item that is encoded, such as a COSE key, as `puffgrit_write_map` does. Fails, too, if the
/// bytes aren't exactly one data item of at most 256 levels in CTAP2's canonical form.
#[unsafe(no_mangle)]
pub extern "C" fn puffgrit_write_item(out: &mut [u8], len: &mut usize, item: &[u8]) -> bool
    ensures item { IsCanonical item.now → Puts item.now out.old len.old out.new len.new result }
    ensures other { (IsCanonical item.now → ⊥) → IsBroken out.old out.new len.new result }
{
    if !passkey_cbor::is_canonical(item) {
        return broken(len);
    }
    put(out, len, item)
}

/// Returns whether the calls before have all returned true, and what stands in `out` is exactly one data
/// item of at most 256 levels in CTAP2's canonical form: each array and map has its elements and members,
/// and the keys of each map ascend. (CTAP 2.1, section 8.)
#[unsafe(no_mangle)]
pub extern "C" fn puffgrit_write_end(out: &[u8], len: usize) -> bool
    ensures { IsTrue result ↔ IsWritten out.now len }
{
    if len > out.len() {
        return false;
    }
    passkey_cbor::is_canonical(&out[..len])
}
