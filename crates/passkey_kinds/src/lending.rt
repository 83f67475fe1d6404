//! Lending a member's byte string out of a message's bytes, as it came.
ghost use Rattle.std.specs.Prelude.{◌≡◌, ℕ, true};
ghost use Rattle.std.specs.Option.{option_and_then};
ghost use Rattle.passkey_kinds.specs.Words.{Item, IsEncodedAt, PairsAreEncodedAt, Onward, Members, named_as, table_of};
ghost use Rattle.passkey_kinds.specs.LentItem.{ValueEnds};
ghost use Rattle.passkey_kinds.specs.Lending.{is_row, value_among, string_in, string_of_row, FindsValue, LendsWanted, LendsRow};

use crate::Record;
use crate::head::read_map;
use crate::key::read_key;
use crate::rows::Named;
use passkey_cbor::{BytesToken, Cursor};

/// Returns whether a map key that names this names the row with this number.
fn is_row(key: Named, number: u8) -> bool
    ensures { result ≡ is_row number (named_as key) }
{
    match key {
        Named::Row(found) => found == number,
        Named::Unknown => false,
    }
}

/// Moves the cursor to the value of the first member that names the row, and returns true; returns
/// false if none does, or a wrong key comes before it.
pub(crate) fn find_value<R: Record>(
    number: u8,
    mut left: Option<u64>,
    cursor: &mut Cursor<'_>,
) -> bool
    ensures finds { (ms : Members) (to : ℕ) → PairsAreEncodedAt left ms cursor.old.bytes cursor.old.place to
        → FindsValue (value_among (table_of R.fields) number ms) cursor.new result }
    ensures lies { (ms : Members) (to : ℕ) → PairsAreEncodedAt left ms cursor.old.bytes cursor.old.place to
        → result ≡ true → ValueEnds (table_of R.fields) number ms cursor.old cursor.new }
    ensures onward { Onward cursor.old cursor.new }
{
    while cursor.more(&mut left) {
        let Some(key) = read_key(R::is_numbered(), R::rows(), cursor) else {
            return false;
        };
        if is_row(key, number) {
            return true;
        }
        if !cursor.skip() {
            return false;
        }
    }
    false
}

/// Lends the byte string that is the row's value in the map at the cursor.
fn bytes_ahead<'a, R: Record>(number: u8, cursor: &mut Cursor<'a>) -> Option<BytesToken<'a>>
    ensures { (i : Item) (to : ℕ) → IsEncodedAt i cursor.old.bytes cursor.old.place to
        → LendsWanted (string_of_row (table_of R.fields) number i) result }
{
    match read_map(cursor) {
        Some(left) => {
            if !find_value::<R>(number, left, cursor) {
                return None;
            }
            cursor.bytes()
        }
        None => None,
    }
}

/// Lends the byte string that is the value of the row with this number in the message at the
/// beginning of the bytes, as it came: in one piece or in chunks. The first member that names the
/// row counts. Ignores the bytes after the message.
///
/// Returns `None` if the bytes don't begin with a well-formed map of at most 256 levels, no member
/// names the row, its value is no byte string, or a key before it is one that no record can have.
/// What else the message holds isn't checked.
pub fn lend_bytes<R: Record>(bytes: &[u8], number: u8) -> Option<BytesToken<'_>>
    ensures { LendsRow (table_of R.fields) number bytes.now result }
{
    let mut cursor = Cursor::new(bytes);
    if !cursor.skip() {
        return None;
    }
    cursor.go_back(0);
    bytes_ahead::<R>(number, &mut cursor)
}
