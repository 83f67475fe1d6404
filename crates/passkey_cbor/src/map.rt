//! The members of a map.
ghost use Rattle.std.specs.Prelude.{MatchOption};
ghost use Rattle.passkey_cbor.specs.Members.{AllLeft, HasNoMap};

use crate::cursor::Cursor;
use crate::head::Head;
use crate::member::Members;

/// Returns the members of the map at the beginning of the bytes, or `None` if the bytes don't begin
/// with a well-formed map of at most 256 levels. Bytes after the map are ignored. Allocates
/// nothing. (RFC 8949, section 3.1, major type 5.)
pub fn members(bytes: &[u8]) -> Option<Members<'_>>
    ensures { MatchOption result (HasNoMap bytes.now) (AllLeft bytes.now) }
{
    let mut cursor = Cursor::new(bytes);
    if !cursor.skip() {
        return None;
    }
    cursor.go_back(0);
    match cursor.head() {
        None => None,
        Some(head) => match head {
            Head::Map(left) => Some(Members {
                bytes,
                cursor,
                left,
            }),
            _ => None,
        },
    }
}
