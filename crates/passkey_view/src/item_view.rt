//! The data item at an offset.
ghost use Rattle.std.specs.Prelude.{◌≡◌, ◌+◌, ◌≤◌, IfSome, MatchOption};
ghost use Rattle.passkey_view.specs.ItemView.{HasNoItemAt, HasItemAt, IsOpened, moved};

use passkey_cbor::{Cursor, Head};

/// A data item in bytes: its head, and where it, its content and the bytes after it begin.
#[derive(Clone, Copy, Debug, PartialEq, Eq)]
pub struct ItemView {
    /// Its head: the major type and the argument.
    pub head: Head,
    /// The offset of its first byte.
    pub from: usize,
    /// The offset after its head: that of a string's bytes or first chunk, of an array's first
    /// element, of a map's first key, or of a tag's content.
    pub content: usize,
    /// The offset after its last byte, which is the break for an item of indefinite length.
    pub end: usize,
}

/// Returns the data item at the offset, or `None` if no well-formed item of at most 256 levels is
/// there. Bytes after it are ignored. (RFC 8949, section 3.)
pub fn item_at(bytes: &[u8], offset: usize) -> Option<ItemView>
    ensures { MatchOption result (HasNoItemAt bytes.now offset) (HasItemAt bytes.now offset) }
{
    if offset > bytes.len() {
        return None;
    }
    match view_ahead(&mut Cursor::new(&bytes[offset..])) {
        None => None,
        Some(view) => Some(moved(view, offset)),
    }
}

/// Returns the data item at the cursor, which moves past the item's head, or `None` if none is
/// there.
pub(crate) fn view_ahead(cursor: &mut Cursor<'_>) -> Option<ItemView>
    ensures opened { IfSome result (IsOpened cursor.old cursor.new) }
    ensures view { MatchOption result (HasNoItemAt cursor.old.bytes cursor.old.place)
        (HasItemAt cursor.old.bytes cursor.old.place) }
{
    let from = cursor.place();
    if !cursor.skip() {
        return None;
    }
    let end = cursor.place();
    cursor.go_back(from);
    match cursor.head() {
        None => None,
        Some(head) => Some(ItemView {
            head,
            from,
            content: cursor.place(),
            end,
        }),
    }
}

/// Returns the view of the same item in bytes that have this many more in front.
pub(crate) fn moved(view: ItemView, by: usize) -> ItemView
    requires fits { view.end + by ≤ usize.MAX }
    requires begins { view.from ≤ view.end }
    requires opens { view.content ≤ view.end }
    ensures { result ≡ moved by view }
{
    ItemView {
        head: view.head,
        from: view.from + by,
        content: view.content + by,
        end: view.end + by,
    }
}
