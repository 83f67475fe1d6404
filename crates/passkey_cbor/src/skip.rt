//! Skipping data items.
ghost use Rattle.std.specs.Prelude.{◌≡◌, ◌<◌, ◌^◌, ◌-◌, ℕ, List, length, Some as There, None, is_some, unwrap_or, IfSome, MatchOption};
ghost use Rattle.passkey_cbor.specs.CursorState.{ahead, raised, IsInside, IsPlaced, MovesForward};
ghost use Rattle.passkey_cbor.specs.LeadingItem.{max_depth};
ghost use Rattle.passkey_cbor.specs.Reading.{string_at};
ghost use Rattle.passkey_cbor.specs.HeadsDecoded.{string_heads};
ghost use Rattle.passkey_cbor.specs.Steps.{Skips, IsLengthOf};
ghost use Rattle.passkey_cbor.specs.Courses.{items_course, pairs_course, item_course, open_course, Advances, Takes, IsPart, IsInnerPart, IsPartOf};
ghost use Rattle.passkey_cbor.specs.Skipped.{SkipsLeadingItem};
ghost use Rattle.passkey_cbor.specs.Null.{BeginsNull, PassesNull, PassesNullAt};
ghost use Rattle.passkey_cbor.specs.EncodedAt.{IsEncodedAt, Passes};
ghost use Rattle.passkey_cbor.specs.Item.{Item};
ghost use Rattle.passkey_cbor.specs.LeadingItem.{IsLeadingItem, HasNoLeadingItem};

use crate::cursor::{Cursor, Next};
use crate::depth::MAX_DEPTH;
use crate::head::Head;
use crate::leaf::leaf_len;

/// What is left of an array, a map or a tag whose head is decoded already.
#[derive(Clone, Copy)]
pub(crate) enum Open {
    /// This many data items: a pair of a map is two, and the content of a tag is one.
    Items(u64),
    /// Data items up to a break.
    ItemsToBreak,
    /// Pairs up to a break.
    PairsToBreak,
    /// The value of a pair, and then pairs up to a break.
    ValueToBreak,
}

/// What was skipped.
#[derive(Clone, Copy)]
pub(crate) enum Part {
    /// Nothing: no well-formed data item follows, nor an end.
    Malformed,
    /// The end of a list, or a break.
    End,
    /// A data item without others in it.
    Item,
    /// The head of a data item with others in it, which are left.
    Head(Open),
}

// How many lists around one another a call keeps open. Those in them are another call's: so few lists need little room,
// and at most 256 levels need 16 calls.
const ROOM: usize = 16;

impl Open {
    // The data items of an array of this length, or up to a break.
    #[inline(always)]
    fn array(len: Option<u64>) -> Open
        ensures { (levels : ℕ) (bytes : List ℕ) → open_course levels result bytes ≡ items_course levels len bytes }
    {
        match len {
            Some(len) => Open::Items(len),
            None => Open::ItemsToBreak,
        }
    }

    // The pairs of a map of this length, or up to a break. No bytes hold more data items than there are bytes.
    #[inline(always)]
    fn map(len: Option<u64>) -> Open
        ensures { (levels : ℕ) (bytes : List ℕ) → length bytes < 2 ^ 64 - 1
            → open_course levels result bytes ≡ pairs_course levels len bytes }
    {
        match len {
            Some(len) => Open::Items(len.saturating_mul(2)),
            None => Open::PairsToBreak,
        }
    }
}

impl<'a> Cursor<'a> {
    /// Skips the data item at the cursor and returns true. Returns false, and the cursor doesn't
    /// move, if no well-formed data item of at most 256 levels follows. Allocates nothing. (RFC
    /// 8949, section 3.)
    pub fn skip(&mut self) -> bool
        ensures front { SkipsLeadingItem self.old self.new result }

        // If a data item is encoded at the cursor, `skip` passes it.
        ensures passes { (x : Item) (to : ℕ) → IsEncodedAt x self.old.bytes self.old.place to
            → Passes to self.old self.new result }

        // The counts never decrease.
        ensures moves { MovesForward self.old self.new }
    {
        let place = self.place;
        let found = self.skip_item();
        if !found {
            self.go_back(place);
        }
        found
    }

    /// Passes null, or undefined, which is decoded as null, and returns true. Returns false, and the
    /// cursor doesn't move, if anything else follows. Counts one head in both cases. (RFC 8949,
    /// section 3.3.)
    pub fn null(&mut self) -> bool
        ensures passes { PassesNull self.old self.new result }

        // If a data item is encoded at the cursor, the result says whether it is null.
        ensures at { (x : Item) (to : ℕ) → IsEncodedAt x self.old.bytes self.old.place to
            → PassesNullAt x to self.old self.new result }

        // The counts never decrease.
        ensures moves { MovesForward self.old self.new }
    {
        if self.begins_null() {
            return self.skip();
        }
        self.add_heads(1);
        false
    }

    // Whether the next byte is that of null or of undefined.
    #[inline(always)]
    fn begins_null(&self) -> bool
        ensures is { BeginsNull (ahead self.now) result }
        ensures placed { IsPlaced self.now.bytes self.now.place }
    {
        let bytes = self.bytes;
        let place = self.place;
        place < bytes.len() && (bytes[place] == 0xf6 || bytes[place] == 0xf7)
    }

    /// Skips one data item of at most 256 levels. Returns false, and stops somewhere, if none
    /// follows.
    #[inline(always)]
    fn skip_item(&mut self) -> bool
        requires { IsInside self.old }
        ensures { Takes (item_course max_depth (ahead self.old)) self.old self.new result }
    {
        let len = leaf_len(&self.bytes[self.place..]);
        if len > 0 {
            self.pass_leaf(len);
            return true;
        }
        self.skip_other()
    }

    // Skips one data item. Not inlined, so that what is passed at once needs no room for parts.
    #[inline(never)]
    fn skip_other(&mut self) -> bool
        requires { IsInside self.old }
        ensures { Takes (item_course max_depth (ahead self.old)) self.old self.new result }
    {
        match self.skip_part() {
            Part::Malformed => false,
            Part::End => false,
            Part::Item => true,
            Part::Head(inner) => self.skip_list(inner, MAX_DEPTH - 1),
        }
    }

    // Skips the next data item, if it has no others in it, and else its head; or a break.
    #[inline(always)]
    fn skip_part(&mut self) -> Part
        requires { IsInside self.old }
        ensures { IsPart self.old self.new result }
    {
        // There are fewer than 2^64 bytes.
        let _ = &self.bytes;
        match self.short_head() {
            Some(Head::Array(len)) => {
                self.pass_leaf(1);
                Part::Head(Open::array(len))
            }
            Some(Head::Map(len)) => {
                self.pass_leaf(1);
                Part::Head(Open::map(len))
            }
            Some(Head::Tag(_)) => {
                self.pass_leaf(1);
                Part::Head(Open::Items(1))
            }
            _ => self.skip_long_part(),
        }
    }

    // The same, whatever the head.
    #[inline(never)]
    fn skip_long_part(&mut self) -> Part
        requires { IsInside self.old }
        ensures { IsPart self.old self.new result }
    {
        // There are fewer than 2^64 bytes.
        let _ = &self.bytes;
        match self.decode_long() {
            None => Part::Malformed,
            Some(Head::Bytes(len)) => {
                if self.pass_string(false, len).is_some() {
                    Part::Item
                } else {
                    Part::Malformed
                }
            }
            Some(Head::Text(len)) => {
                if self.pass_string(true, len).is_some() {
                    Part::Item
                } else {
                    Part::Malformed
                }
            }
            Some(Head::Array(len)) => Part::Head(Open::array(len)),
            Some(Head::Map(len)) => Part::Head(Open::map(len)),
            Some(Head::Tag(_)) => Part::Head(Open::Items(1)),
            Some(Head::Break) => Part::End,
            Some(Head::Unsigned(_)) => Part::Item,
            Some(Head::Negative(_)) => Part::Item,
            Some(Head::Simple(_)) => Part::Item,
            Some(Head::Float(_)) => Part::Item,
        }
    }

    // Skips items of the list up to its end, or to a data item with others in it, whose head it
    // skips too.
    #[inline(always)]
    fn skip_more(&mut self, list: &mut Open) -> Part
        requires { IsInside self.old }
        ensures { IsPartOf list.old list.new self.old self.new result }
    {
        match *list {
            Open::Items(left) => {
                let left = self.skip_leaves(left);
                if left == 0 {
                    return Part::End;
                }
                *list = Open::Items(left - 1);
                self.skip_inner_part()
            }
            Open::ItemsToBreak => self.skip_part(),
            Open::PairsToBreak => {
                *list = Open::ValueToBreak;
                self.skip_part()
            }
            Open::ValueToBreak => {
                *list = Open::PairsToBreak;
                self.skip_inner_part()
            }
        }
    }

    // The same as `skip_part` where a break isn't allowed.
    #[inline(always)]
    fn skip_inner_part(&mut self) -> Part
        requires { IsInside self.old }
        ensures { IsInnerPart self.old self.new result }
    {
        match self.skip_part() {
            Part::End => Part::Malformed,
            other => other,
        }
    }

    // Skips data items of one head each, at most this many; returns how many are left.
    #[inline(always)]
    fn skip_leaves(&mut self, most: u64) -> u64
        requires { IsInside self.old }
        ensures { (levels : ℕ) → Advances (items_course levels (There most) (ahead self.old))
            (items_course levels (There result)) self.old self.new }
    {
        let bytes = self.bytes;
        let mut place = self.place;
        let mut left = most;
        while left > 0 {
            let len = leaf_len(&bytes[place..]);
            if len == 0 {
                break;
            }
            place += len;
            left -= 1;
        }
        if left == most {
            return left;
        }
        self.pass_leaves(place, most - left);
        left
    }

    // Skips what is left of an array, a map or a tag, in which data items have at most `levels` levels.
    #[inline(never)]
    fn skip_list(&mut self, first: Open, levels: usize) -> bool
        requires { IsInside self.old }
        ensures { Takes (open_course levels first (ahead self.old)) self.old self.new result }
    {
        let mut opened = [Open::Items(0); ROOM];
        opened[0] = first;
        let mut depth = 1;
        while depth > 0 {
            match self.skip_more(&mut opened[depth - 1]) {
                Part::Malformed => return false,
                Part::End => depth -= 1,
                Part::Item => {}
                Part::Head(inner) => {
                    if levels < depth {
                        return false;
                    }
                    if depth < ROOM {
                        opened[depth] = inner;
                        depth += 1;
                    } else if !self.skip_list(inner, levels - ROOM) {
                        return false;
                    }
                }
            }
        }
        true
    }

    /// Skips the rest of a string whose head is decoded already; returns the string's length in
    /// bytes.
    #[inline(always)]
    pub(crate) fn pass_string(&mut self, is_text: bool, len: Option<u64>) -> Option<usize>
        requires { IsInside self.old }
        ensures skips { Skips (unwrap_or len 0) (string_at is_text len (ahead self.old)) self.old self.new (is_some result) }
        ensures decoded { self.new.heads ≡ raised self.old.heads (string_heads is_text len (ahead self.old)) }
        ensures size { IfSome result (IsLengthOf (string_at is_text len (ahead self.old))) }
    {
        match len {
            Some(len) => match self.piece(is_text, len) {
                None => None,
                Some(piece) => Some(piece.len()),
            },
            None => self.pass_chunks(is_text),
        }
    }

    // Skips the chunks of a string and the break; returns the total length of the chunks in bytes.
    #[inline(never)]
    fn pass_chunks(&mut self, is_text: bool) -> Option<usize>
        requires { IsInside self.old }
        ensures skips { Skips 0 (string_at is_text None (ahead self.old)) self.old self.new (is_some result) }
        ensures decoded { self.new.heads ≡ raised self.old.heads (string_heads is_text None (ahead self.old)) }
        ensures size { IfSome result (IsLengthOf (string_at is_text None (ahead self.old))) }
    {
        let mut left = None;
        let mut size = 0;
        loop {
            match self.step(&mut left) {
                Next::Malformed => return None,
                Next::End => return Some(size),
                Next::Element(head) => match self.chunk(is_text, head) {
                    None => return None,
                    Some(piece) => size += piece.len(),
                },
            }
        }
    }
}

/// Returns the length in bytes of the leading data item, or `None` if the bytes don't begin with a
/// well-formed data item of at most 256 levels. Allocates nothing. (RFC 8949, section 3.)
pub fn item_len(bytes: &[u8]) -> Option<usize>
    ensures { MatchOption result (HasNoLeadingItem bytes.now) (λ len. (x : Item) × IsLeadingItem bytes.now x len) }
{
    let mut cursor = Cursor::new(bytes);
    if cursor.skip() {
        Some(cursor.place())
    } else {
        None
    }
}
