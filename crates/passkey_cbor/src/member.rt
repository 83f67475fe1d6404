//! The members of a map, as slices of its bytes.
ghost use Rattle.std.specs.Prelude.{◌≡◌, ℕ, ◌-◌, length};
ghost use Rattle.passkey_cbor.specs.Item.{Item};
ghost use Rattle.passkey_cbor.specs.EncodedAt.{IsEncodedAt};
ghost use Rattle.passkey_cbor.specs.Members.{LendsSlice};

use crate::cursor::Cursor;
use std::iter::FusedIterator;
use std::marker::Model;

/// The remaining members of a map in their order, each as the encodings of its key and of its
/// value (RFC 8949, section 3.1, major type 5).
#[derive(Drop)]
pub struct Members<'a> {
    pub(crate) bytes: &'a [u8],
    pub(crate) cursor: Cursor<'a>,

    /// How many members are left, as `Cursor::more` counts them.
    pub(crate) left: Option<u64>,
}

impl<'a> Model for Members<'a> {
    ghost use Rattle.std.specs.Prelude.{◌≡◌};
    ghost use Rattle.passkey_cbor.specs.Members.{MembersLeft, SomeLeft};

    ghost Value = { MembersLeft };

    ghost view = { λ m. record { bytes = m.bytes.now; place = m.cursor.place; left = m.left } };

    ghost invariant = { λ m. (m.cursor.bytes ≡ m.bytes.now)
        × SomeLeft (record { bytes = m.bytes.now; place = m.cursor.place; left = m.left }) };
}

impl<'a> Iterator for Members<'a> {
    ghost use Rattle.std.specs.Prelude.{◌-◌, length};
    ghost use Rattle.std.specs.Iterator.{at_most};
    ghost use Rattle.passkey_cbor.specs.Members.{GivesNext};

    type Item = (&'a [u8], &'a [u8]);

    ghost next_gives = { GivesNext };

    ghost remaining = { λ m. at_most (length m.bytes - m.place) };

    /// Returns the encodings of the next member's key and value, each a complete data item; `None`
    /// after the last member, and on every later call.
    fn next(&mut self) -> Option<(&'a [u8], &'a [u8])> {
        if !self.cursor.more(&mut self.left) {
            // Otherwise a call after the break would take the bytes after the map for a member.
            self.left = Some(0);
            return None;
        }
        let key = pass_item(self.bytes, &mut self.cursor)?;
        let value = pass_item(self.bytes, &mut self.cursor)?;
        Some((key, value))
    }
}

impl<'a> FusedIterator for Members<'a> {}

// The bytes of the data item at the cursor, which moves past it; `None` if none follows.
fn pass_item<'a>(bytes: &'a [u8], cursor: &mut Cursor<'a>) -> Option<&'a [u8]>
    requires { cursor.old.bytes ≡ bytes.now }
    ensures same { cursor.new.bytes ≡ cursor.old.bytes }
    ensures lends { (x : Item) (to : ℕ) → IsEncodedAt x cursor.old.bytes cursor.old.place to
        → LendsSlice x to cursor.old cursor.new result }
{
    let from = cursor.place();
    if !cursor.skip() {
        return None;
    }
    Some(&bytes[from..cursor.place()])
}
