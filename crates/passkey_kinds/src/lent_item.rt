//! Lending a member's value out of a message's bytes, as it is encoded there.
ghost use Rattle.std.specs.Prelude.{ℕ, IfOk, option_map};
ghost use Rattle.passkey_kinds.specs.Words.{Item, IsEncodedAt, Onward, table_of};
ghost use Rattle.passkey_kinds.specs.LentItem.{EntersValue, LendsMember, IsFollowed};

use crate::head::map_len;
use crate::lending::find_value;
use crate::{OutOfMemory, Record};
use passkey_cbor::Cursor;
use std::alloc::Global;

/// Moves the cursor to the value of the row with this number in the map at the cursor, and returns
/// true; returns false if there is no such value.
fn enter_value<R: Record>(number: u8, cursor: &mut Cursor<'_>) -> bool
    ensures enters { (i : Item) (to : ℕ) → IsEncodedAt i cursor.old.bytes cursor.old.place to
        → EntersValue (table_of R.fields) number i cursor.old cursor.new result }
    ensures onward { Onward cursor.old cursor.new }
{
    match map_len(cursor.head()) {
        Some(left) => find_value::<R>(number, left, cursor),
        None => false,
    }
}

/// Lends the encoding of the value of the row with this number in the message at the beginning of
/// the bytes, as it came. The first member that names the row counts. Ignores the bytes after the
/// message. Allocates nothing.
///
/// Returns `None` if the bytes don't begin with a well-formed map of at most 256 levels, no member
/// names the row, or a key before it is one that no record can have. What else the message holds
/// isn't checked.
pub fn lend_item<R: Record>(bytes: &[u8], number: u8) -> Option<&[u8]>
    ensures { LendsMember (table_of R.fields) number bytes.now (option_map (λ s. s.now) result) }
{
    let mut cursor = Cursor::new(bytes);
    if !cursor.skip() {
        return None;
    }
    cursor.go_back(0);
    if !enter_value::<R>(number, &mut cursor) {
        return None;
    }
    let from = cursor.place();
    if !cursor.skip() {
        return None;
    }
    Some(&bytes[from..cursor.place()])
}

/// Returns these bytes, followed by what `lend_item` lends, if anything: many signatures are over a
/// part of a message after other bytes. Returns `OutOfMemory` if an allocation fails.
pub fn followed_by_item<R: Record>(
    alloc: Global,
    front: &[u8],
    message: &[u8],
    number: u8,
) -> Result<Vec<u8>, OutOfMemory>
    ensures { IfOk result (λ bytes. IsFollowed (table_of R.fields) number message.now front.now bytes.items) }
{
    let item = lend_item::<R>(message, number).unwrap_or(&[]);
    let mut bytes = Vec::from_slice(alloc, front)?;
    bytes.extend_from_slice(item)?;
    Ok(bytes)
}
