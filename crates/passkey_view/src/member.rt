//! The value under a key of a map.
ghost use Rattle.std.specs.Prelude.{◌↔◌, ℕ, IsTrue, MatchOption};
ghost use Rattle.passkey_cbor.specs.Item.{Item, number, text_string};
ghost use Rattle.passkey_cbor.specs.EncodedAt.{IsEncodedAt, PairsAreEncodedAt};
ghost use Rattle.passkey_cbor.specs.CursorState.{MovesForward};
ghost use Rattle.passkey_view.specs.Member.{Members, IsHeadOfNumber, PassesKey, FindsAmong, HasMember, HasNoMember};

use crate::item_view::{ItemView, moved, view_ahead};
use passkey_cbor::{Cursor, Head};

/// A key of a map: an integer or a text string, in any encoding (RFC 8949, section 3.1).
pub trait Key: Copy {
    /// The data item that the key is.
    ghost item: { Self → Item };

    /// Moves past the data item at the cursor, and returns whether it is the key. If no well-formed
    /// item is there, the result may be `None`.
    fn pass(&self, cursor: &mut Cursor<'_>) -> Option<bool>
        ensures passes { (x : Item) (to : ℕ) → IsEncodedAt x cursor.old.bytes cursor.old.place to
            → PassesKey (item self.now) x to cursor.old cursor.new result }
        ensures moves { MovesForward cursor.old cursor.new };
}

impl Key for i64 {
    ghost item = { number };

    fn pass(&self, cursor: &mut Cursor<'_>) -> Option<bool> {
        let start = cursor.place();
        let found = is_number(cursor.head(), self);
        cursor.go_back(start);
        if cursor.skip() { Some(found) } else { None }
    }
}

impl<'a> Key for &'a str {
    ghost item = { λ name. text_string name.now };

    fn pass(&self, cursor: &mut Cursor<'_>) -> Option<bool> {
        match cursor.text() {
            Some(text) => Some(text.eq_name(self, cursor)),
            None => if cursor.skip() { Some(false) } else { None },
        }
    }
}

/// Returns whether it is the head of the integer.
fn is_number(head: Option<Head>, n: &i64) -> bool
    ensures { IsTrue result ↔ IsHeadOfNumber n.now head }
{
    match head {
        Some(Head::Unsigned(m)) => i128::from(m) == i128::from(*n),
        Some(Head::Negative(m)) => -1 - i128::from(m) == i128::from(*n),
        _ => false,
    }
}

/// Returns the value of the first member with this key of the map at the offset, or `None` if no
/// well-formed map of at most 256 levels is there, or none of its members has the key. A member may
/// have the key in any encoding. (RFC 8949, section 3.1, major type 5.)
pub fn member_at<K: Key>(bytes: &[u8], offset: usize, key: K) -> Option<ItemView>
    ensures { MatchOption result (HasNoMember (K.item key) bytes.now offset)
        (HasMember (K.item key) bytes.now offset) }
{
    if offset > bytes.len() {
        return None;
    }
    match member_ahead(&key, &mut Cursor::new(&bytes[offset..])) {
        None => None,
        Some(view) => Some(moved(view, offset)),
    }
}

/// Returns the value of the first member with this key of the map at the cursor, or `None` if there
/// is no such map or member.
fn member_ahead<K: Key>(key: &K, cursor: &mut Cursor<'_>) -> Option<ItemView>
    ensures { MatchOption result (HasNoMember (K.item key.now) cursor.old.bytes cursor.old.place)
        (HasMember (K.item key.now) cursor.old.bytes cursor.old.place) }
{
    match view_ahead(cursor) {
        None => None,
        Some(map) => match map.head {
            Head::Map(left) => value_ahead(key, left, cursor),
            _ => None,
        },
    }
}

/// Returns the value of the first member with this key, among those that are left.
fn value_ahead<K: Key>(key: &K, mut left: Option<u64>, cursor: &mut Cursor<'_>) -> Option<ItemView>
    ensures { (ms : Members) (to : ℕ) → PairsAreEncodedAt left ms cursor.old.bytes cursor.old.place to
        → FindsAmong (K.item key.now) ms cursor.old.bytes cursor.old.place result }
{
    while cursor.more(&mut left) {
        match key.pass(cursor) {
            None => return None,
            Some(found) => {
                if found {
                    return view_ahead(cursor);
                }
            }
        }
        if !cursor.skip() {
            return None;
        }
    }
    None
}
