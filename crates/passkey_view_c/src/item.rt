//! Data items, for C.
ghost use Rattle.std.specs.Prelude.{◌≡◌, ◌↔◌, IsTrue, false};
ghost use Rattle.std.specs.Str.{IsUtf8};
ghost use Rattle.passkey_cbor.specs.Canonical.{IsCanonical};
ghost use Rattle.passkey_cbor.specs.Item.{number, text_string};
ghost use Rattle.passkey_view.specs.ItemView.{HasItemAt, HasNoItemAt};
ghost use Rattle.passkey_view.specs.Member.{HasMember, HasNoMember};
ghost use Rattle.passkey_view_c.specs.Items.{Fills, Writes, IsItemLength, number_of, type_of, item_of};

use passkey_cbor::Head;
use passkey_view::{ItemView, item_at, member_at};
use std::str;

/// A data item in bytes (RFC 8949, section 3).
#[repr(C)]
#[derive(Clone, Copy, Debug, PartialEq, Eq)]
pub struct Item {
    /// The number in the item's head: the integer n, or n of the integer -1 - n; the bytes of a
    /// string, the elements of an array, or the pairs of a map, and 2^64 - 1 if the length is
    /// indefinite; a tag's number; a simple value; or a float's bits.
    pub number: u64,
    /// The offset of the item's first byte.
    pub from: usize,
    /// The offset after its head: of a string's first byte or chunk, of an array's first element, of
    /// a map's first key, or of a tag's content.
    pub content: usize,
    /// The offset after its last byte.
    pub end: usize,
    /// Its major type, 0 to 7; 8 for a float.
    pub kind: u32,
}

/// The number of an indefinite length.
const INDEFINITE: u64 = u64::MAX;

/// Returns the item's type in C.
fn type_of(head: Head) -> u32
    ensures { result ≡ type_of head }
{
    match head {
        Head::Unsigned(_) => 0,
        Head::Negative(_) => 1,
        Head::Bytes(_) => 2,
        Head::Text(_) => 3,
        Head::Array(_) => 4,
        Head::Map(_) => 5,
        Head::Tag(_) => 6,
        Head::Simple(_) | Head::Break => 7,
        Head::Float(_) => 8,
    }
}

/// Returns the number in the head, as C sees it.
fn number_of(head: Head) -> u64
    ensures { result ≡ number_of head }
{
    match head {
        Head::Unsigned(n) | Head::Negative(n) | Head::Tag(n) => n,
        Head::Bytes(len) | Head::Text(len) | Head::Array(len) | Head::Map(len) => {
            len.unwrap_or(INDEFINITE)
        }
        Head::Simple(n) => u64::from(n),
        Head::Float(float) => float.bits(),
        Head::Break => 31,
    }
}

/// Returns the item as C sees it.
pub(crate) fn item_of(view: ItemView) -> Item
    ensures { result ≡ item_of view }
{
    Item {
        number: number_of(view.head),
        from: view.from,
        content: view.content,
        end: view.end,
        kind: type_of(view.head),
    }
}

/// Writes what was found, and returns true; leaves `item` as it was, and returns false, if nothing
/// was.
fn fill(item: &mut Item, found: Option<ItemView>) -> bool
    ensures { Fills item_of found item.old item.new result }
{
    match found {
        Some(view) => {
            *item = item_of(view);
            true
        }
        None => false,
    }
}

/// Returns the length in bytes of the data item at the beginning of the bytes, or 0 if they don't
/// begin with a well-formed item of at most 256 levels. An item has at least one byte. (RFC 8949,
/// section 3.)
#[unsafe(no_mangle)]
pub extern "C" fn puffgrit_item_len(bytes: &[u8]) -> usize
    ensures { IsItemLength bytes.now result }
{
    match passkey_cbor::item_len(bytes) {
        Some(len) => len,
        None => 0,
    }
}

/// Returns whether the bytes are exactly one data item of at most 256 levels in CTAP2's canonical
/// form. (CTAP 2.1, section 8.)
#[unsafe(no_mangle)]
pub extern "C" fn puffgrit_is_canonical(bytes: &[u8]) -> bool
    ensures { IsTrue result ↔ IsCanonical bytes.now }
{
    passkey_cbor::is_canonical(bytes)
}

/// Writes the data item at the offset into `item` and returns true. Returns false, and leaves `item`
/// as it was, if no well-formed item of at most 256 levels is there. Bytes after the item are
/// ignored. (RFC 8949, section 3.)
#[unsafe(no_mangle)]
pub extern "C" fn puffgrit_item_at(bytes: &[u8], offset: usize, item: &mut Item) -> bool
    ensures { Writes (HasNoItemAt bytes.now offset) (HasItemAt bytes.now offset) item.old item.new result }
{
    fill(item, item_at(bytes, offset))
}

/// Writes the value of the first member with this integer as its key, in the map at the offset, into
/// `value` and returns true. Returns false, and leaves `value` as it was, if no well-formed map of at
/// most 256 levels is there, or it has no such member. The key may be encoded in any way.
#[unsafe(no_mangle)]
pub extern "C" fn puffgrit_member(bytes: &[u8], map: usize, key: i64, value: &mut Item) -> bool
    ensures { Writes (HasNoMember (number key) bytes.now map) (HasMember (number key) bytes.now map)
        value.old value.new result }
{
    fill(value, member_at(bytes, map, key))
}

/// Writes the value of the first member with this text as its key, in the map at the offset, into
/// `value` and returns true. Returns false, and leaves `value` as it was, if no well-formed map of at
/// most 256 levels is there, it has no such member, or the name isn't UTF-8. The key may be encoded
/// in any way.
#[unsafe(no_mangle)]
pub extern "C" fn puffgrit_named(bytes: &[u8], map: usize, name: &[u8], value: &mut Item) -> bool
    ensures found { IsUtf8 name.now → Writes (HasNoMember (text_string name.now) bytes.now map)
        (HasMember (text_string name.now) bytes.now map) value.old value.new result }
    ensures other { (IsUtf8 name.now → ⊥) → (result ≡ false) × (value.new ≡ value.old) }
{
    match str::from_utf8(name) {
        Ok(name) => fill(value, member_at(bytes, map, name)),
        Err(_) => false,
    }
}
