//! Where in the bytes the steps into a data item lead.
ghost use Rattle.std.specs.Prelude.{◌≡◌, ℕ, ◌≤◌, ◌+◌, List, Some, length, map};
ghost use Rattle.passkey_cbor.specs.EncodedAt.{IsEncodedAt};
ghost use Rattle.passkey_cbor.specs.Item.{Item};
ghost use Rattle.passkey_cbor.specs.LeadingItem.{IsLeadingItem};
ghost use Rattle.passkey_explain.specs.Blame.{step_of, part_at, item_along};
ghost use Rattle.passkey_explain.specs.Along.{part_index, ItemsLie, PassesItems, Enters, IsLocated};

use crate::Step;
use passkey_cbor::Cursor;

/// Where a data item, or a map key, is encoded.
#[derive(Clone, Copy, Debug, PartialEq, Eq)]
pub struct Extent {
    /// The offset of its first byte.
    pub offset: usize,
    /// Its length in bytes.
    pub len: usize,
}

/// Returns which part of an array or a map the step leads to, where a map's keys and values count
/// in turn.
fn part_of(step: &Step) -> u128
    ensures { result ≡ part_index (step_of step.now) }
{
    match step {
        Step::Element(n) => *n as u128,
        Step::Member(n, _, _) | Step::Value(n) => *n as u128 + *n as u128 + 1,
        Step::Key(n) => *n as u128 + *n as u128,
    }
}

/// Skips this many data items.
fn pass_items(count: u128, cursor: &mut Cursor<'_>) -> bool
    ensures { (xs : List Item) (to : ℕ) → ItemsLie xs cursor.old.bytes cursor.old.place to → count ≤ length xs
        → PassesItems xs count to cursor.old cursor.new result }
{
    for i in 0..count {
        if !cursor.skip() {
            return false;
        }
    }
    true
}

/// Moves the cursor from an array or a map to the part that the step leads to.
fn enter(step: &Step, cursor: &mut Cursor<'_>) -> bool
    ensures { (i part : Item) (to : ℕ) → IsEncodedAt i cursor.old.bytes cursor.old.place to
        → part_at (step_of step.now) i ≡ Some part → Enters (step_of step.now) i part cursor.old cursor.new result }
{
    match cursor.head() {
        Some(_) => pass_items(part_of(step), cursor),
        None => false,
    }
}

/// Returns where the data item, or the map key, is encoded that the steps lead to from the data
/// item at the beginning of the bytes. Bytes after that item are ignored. Returns `None` only if
/// the bytes don't begin with a well-formed data item of at most 256 levels, or the steps lead to
/// nothing in it. Allocates nothing. (RFC 8949, section 3.)
pub fn locate(bytes: &[u8], path: &[Step]) -> Option<Extent>
    ensures { (i part : Item) (len : ℕ) → IsLeadingItem bytes.now i len
        → item_along (map step_of path.now) i ≡ Some part → IsLocated (map step_of path.now) i bytes.now result }
{
    let mut cursor = Cursor::new(bytes);
    for step in path {
        if !enter(step, &mut cursor) {
            return None;
        }
    }
    let offset = cursor.place();
    if !cursor.skip() {
        return None;
    }
    Some(Extent {
        offset,
        len: cursor.place() - offset,
    })
}
