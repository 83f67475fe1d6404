//! A cursor that decodes borrowed bytes head by head.
ghost use Rattle.std.specs.Prelude.{◌≡◌, ℕ, ◌+◌, ◌<◌, ◌≤◌, drop, length, min, Some as There, None, option_map, true, false, IfNone, IfSome, MatchOption};
ghost use Rattle.std.specs.Str.{IsAscii};
ghost use Rattle.passkey_cbor.specs.CursorState.{ahead, raised, IsInside, IsPlaced, MovesForward};
ghost use Rattle.passkey_cbor.specs.Found.{FindsHead, small_number};
ghost use Rattle.passkey_cbor.specs.declared.head.Head.TheVariants.{Unsigned};
ghost use Rattle.passkey_cbor.specs.Item.{Item};
ghost use Rattle.passkey_cbor.specs.EncodedAt.{IsEncodedAt, Opens, WalksOn};
ghost use Rattle.passkey_cbor.specs.HeadReading.{head_at};
ghost use Rattle.passkey_cbor.specs.Steps.{ReadsHead, ReadsStep, ReadsPiece};
ghost use Rattle.passkey_cbor.specs.Reading.{is_allowed, piece_at, chunk};

use crate::count::Count;
use crate::head::Head;
use std::marker::Model;
use std::str;

/// An offset in borrowed bytes, at which heads are decoded one by one. Each attempt to decode a
/// head is counted, even if it fails.
#[derive(Drop)]
pub struct Cursor<'a> {
    pub(crate) bytes: &'a [u8],
    pub(crate) place: usize,
    count: Count,
}

impl<'a> Model for Cursor<'a> {
    ghost use Rattle.passkey_cbor.specs.CursorState.{CursorState, IsPlaced};

    ghost Value = { CursorState };

    ghost view = { λ c. record { bytes = c.bytes.now; place = c.place; heads = c.count.heads; nodes = c.count.nodes } };

    ghost invariant = { λ c. IsPlaced c.bytes.now c.place };
}

/// What comes next in a list: an element with this head, the list's end, or no well-formed head.
#[derive(Clone, Copy)]
pub(crate) enum Next {
    Element(Head),
    End,
    Malformed,
}

impl<'a> Cursor<'a> {
    /// Returns a cursor at the start of the bytes, with both counts at 0.
    pub fn new(bytes: &'a [u8]) -> Cursor<'a>
        ensures { result ≡ record { bytes = bytes.entry.now; place = 0; heads = 0; nodes = 0 } }
    {
        Cursor {
            bytes,
            place: 0,
            count: Count { heads: 0, nodes: 0 },
        }
    }

    /// Returns the offset: the number of bytes before the cursor.
    pub fn place(&self) -> usize
        ensures { result ≡ self.now.place }
    {
        self.place
    }

    /// Moves back to an earlier offset. The counts don't change.
    pub fn go_back(&mut self, to: usize)
        requires { to ≤ self.old.place }
        ensures { self.new ≡ record self.old { place = to } }
    {
        self.place = to;
    }

    /// Returns the numbers of heads decoded and of data items built so far.
    pub fn count(&self) -> Count
        ensures heads { result.heads ≡ self.now.heads }
        ensures nodes { result.nodes ≡ self.now.nodes }
    {
        self.count
    }

    /// Adds to the counts, each of which saturates at `u128::MAX`.
    pub fn add(&mut self, count: Count)
        ensures raised { self.new ≡ record self.old {
          heads = min (self.old.heads + count.heads) u128.MAX;
          nodes = min (self.old.nodes + count.nodes) u128.MAX;
        } }
        ensures heads { self.old.heads ≤ self.new.heads }
        ensures nodes { self.old.nodes ≤ self.new.nodes }
    {
        self.count.heads = self.count.heads.saturating_add(count.heads);
        self.count.nodes = self.count.nodes.saturating_add(count.nodes);
    }

    /// Adds to the count of heads only.
    pub(crate) fn add_heads(&mut self, heads: u128)
        ensures raised { self.new ≡ record self.old { heads = min (self.old.heads + heads) u128.MAX } }
        ensures rises { self.old.heads ≤ self.new.heads }
    {
        self.count.heads = self.count.heads.saturating_add(heads);
    }

    /// Passes this many bytes, and counts one head.
    pub(crate) fn pass_leaf(&mut self, len: usize)
        requires { self.old.place + len ≤ length self.old.bytes }
        ensures passed { self.new ≡ record self.old {
          place = self.old.place + len;
          heads = min (self.old.heads + 1) u128.MAX;
        } }
        ensures rises { self.old.heads ≤ self.new.heads }
    {
        self.add_heads(1);
        self.place += len;
    }

    /// Moves to this offset, and counts so many heads.
    pub(crate) fn pass_leaves(&mut self, place: usize, heads: u64)
        requires { place ≤ length self.old.bytes }
        ensures passed { self.new ≡ record self.old {
          place = place;
          heads = min (self.old.heads + heads) u128.MAX;
        } }
        ensures rises { self.old.heads ≤ self.new.heads }
    {
        self.add_heads(u128::from(heads));
        self.place = place;
    }

    /// Decodes the head at the cursor and moves past it. Returns `None`, and the cursor doesn't
    /// move, if no complete, well-formed head follows. Counts one head in both cases. (RFC 8949,
    /// section 3.)
    pub fn head(&mut self) -> Option<Head>
        ensures found { FindsHead self.old self.new result }

        // If a data item is encoded at the cursor, this is its head, and the rest of the item
        // follows.
        ensures opens { (x : Item) (to : ℕ) → IsEncodedAt x self.old.bytes self.old.place to
            → Opens x to self.new result }

        // The counts never decrease.
        ensures moves { MovesForward self.old self.new }
    {
        self.decode()
    }

    /// Moves past the unsigned integer at the cursor and returns it, if it is below 24 with a head of
    /// one byte. Otherwise the cursor doesn't move, and counts nothing. (RFC 8949, section 3.1, major
    /// type 0.)
    #[inline(always)]
    pub fn small_number(&mut self) -> Option<u8>
        ensures is { result ≡ small_number (ahead self.old) }
        ensures passes { MatchOption result (self.new ≡ self.old)
            (λ n. FindsHead self.old self.new (There (Unsigned n))) }

        // If a data item is encoded at the cursor, this is its head, and the rest of the item
        // follows.
        ensures opens { (x : Item) (to : ℕ) → IsEncodedAt x self.old.bytes self.old.place to
            → IfSome result (λ n. Opens x to self.new (There (Unsigned n))) }

        // The counts never decrease.
        ensures moves { MovesForward self.old self.new }
    {
        match small_number(&self.bytes[self.place..]) {
            None => None,
            Some(number) => {
                self.pass_leaf(1);
                Some(number)
            }
        }
    }

    /// Returns whether an array or a map has more elements, where `left` is the length in its head.
    /// A definite length is counted down, and the cursor doesn't move. For an indefinite length,
    /// the next head is decoded and counted: at the break, the cursor moves past it and the result
    /// is false; otherwise the cursor doesn't move and the result is true, even if no well-formed
    /// head follows. (RFC 8949, section 3.2.2.)
    pub fn more(&mut self, left: &mut Option<u64>) -> bool
        ensures walks { WalksOn left.old left.new self.old self.new result }

        // The counts never decrease.
        ensures moves { MovesForward self.old self.new }
    {
        let place = self.place;
        let known = *left;
        match known {
            Some(n) => {
                if n == 0 {
                    return false;
                }
                *left = Some(n - 1);
                true
            }
            None => match self.decode() {
                None => true,
                Some(head) => {
                    if head.is_break() {
                        return false;
                    }
                    self.go_back(place);
                    true
                }
            },
        }
    }

    // Decodes the head at the cursor, as `head` does.
    #[inline(always)]
    pub(crate) fn decode(&mut self) -> Option<Head>
        ensures reads { ReadsHead self.old self.new result }
        ensures counted { self.new.heads ≡ raised self.old.heads 1 }
        ensures rises { self.old.heads ≤ self.new.heads }
        ensures stays { IfNone result (self.new.place ≡ self.old.place) }
        ensures placed { IsPlaced self.old.bytes self.old.place }
    {
        match self.short_head() {
            Some(head) => {
                self.pass_leaf(1);
                Some(head)
            }
            None => self.decode_long(),
        }
    }

    /// The next head, if it has one byte, of major type 0 to 6 or a simple value.
    #[inline(always)]
    pub(crate) fn short_head(&self) -> Option<Head>
        ensures reads { IfSome result (λ h. head_at (ahead self.now)
            ≡ There (h, drop (self.now.place + 1) self.now.bytes)) }
        ensures within { IfSome result (λ h. self.now.place < length self.now.bytes) }
        ensures placed { IsPlaced self.now.bytes self.now.place }
    {
        let bytes = self.bytes;
        let place = self.place;
        if place < bytes.len() {
            Head::short(bytes[place])
        } else {
            None
        }
    }

    /// Decodes the head at the cursor, as `head` does, whatever its length.
    pub(crate) fn decode_long(&mut self) -> Option<Head>
        ensures reads { ReadsHead self.old self.new result }
        ensures counted { self.new.heads ≡ raised self.old.heads 1 }
        ensures rises { self.old.heads ≤ self.new.heads }
        ensures stays { IfNone result (self.new.place ≡ self.old.place) }
        ensures placed { IsPlaced self.old.bytes self.old.place }
    {
        self.count.heads = self.count.heads.saturating_add(1);
        let bytes = self.bytes;
        match Head::decode(&bytes[self.place..]) {
            None => None,
            Some((head, rest)) => {
                self.place = bytes.len() - rest.len();
                Some(head)
            }
        }
    }

    /// One step in a list with `left` elements left, or, with indefinite length, elements up to a
    /// break.
    #[inline(always)]
    pub(crate) fn step(&mut self, left: &mut Option<u64>) -> Next
        requires { IsInside self.old }
        ensures reads { ReadsStep left.old left.new self.old self.new result }

        // With indefinite length, one head is counted.
        ensures counted { left.old ≡ None → (left.new ≡ None) × (self.new.heads ≡ raised self.old.heads 1) }
    {
        let known = *left;
        match known {
            Some(n) => {
                if n == 0 {
                    return Next::End;
                }
                *left = Some(n - 1);
                match self.decode() {
                    None => Next::Malformed,
                    Some(head) => Next::Element(head),
                }
            }
            None => match self.decode() {
                None => Next::Malformed,
                Some(head) => {
                    if head.is_break() {
                        Next::End
                    } else {
                        Next::Element(head)
                    }
                }
            },
        }
    }

    /// Passes and returns the next `len` bytes: a string of definite length, or a chunk's content.
    /// `None` if there are fewer bytes, or if a text's aren't UTF-8.
    #[inline(always)]
    pub(crate) fn piece(&mut self, is_text: bool, len: u64) -> Option<&'a [u8]>
        ensures reads { ReadsPiece is_text (piece_at is_text len (ahead self.old)) self.old self.new
            (option_map (λ s. s.now) result) }
        ensures uncounted { self.new.heads ≡ self.old.heads }
        ensures fits { IfSome result (λ _. self.new.place ≤ usize.MAX) }
    {
        let bytes = self.bytes;
        match piece_of(is_text, len, &bytes[self.place..]) {
            None => None,
            Some((piece, rest)) => {
                self.place = bytes.len() - rest.len();
                Some(piece)
            }
        }
    }

    /// Passes and returns the content of a chunk of this kind of string, whose head is decoded
    /// already.
    pub(crate) fn chunk(&mut self, is_text: bool, head: Head) -> Option<&'a [u8]>
        requires { IsInside self.old }
        ensures reads { ReadsPiece is_text (chunk is_text head (ahead self.old)) self.old self.new
            (option_map (λ s. s.now) result) }
        ensures uncounted { self.new.heads ≡ self.old.heads }
        ensures fits { IfSome result (λ _. self.new.place ≤ usize.MAX) }
    {
        match head.chunk_len(is_text) {
            None => None,
            Some(len) => self.piece(is_text, len),
        }
    }
}

// The unsigned integer at the beginning of the bytes, if it is below 24 with a head of one byte.
#[inline(always)]
fn small_number(bytes: &[u8]) -> Option<u8>
    ensures is { result ≡ small_number bytes.now }
    ensures within { IfSome result (λ n. 1 ≤ length bytes.now) }
{
    match bytes.first() {
        Some(first) if *first < 24 => Some(*first),
        _ => None,
    }
}

// The first `len` bytes, if they are allowed in a string of this kind, and the rest.
#[tactic(auto, unfolding(crate::specs::Reading::piece_at))]
#[inline(always)]
pub(crate) fn piece_of(is_text: bool, len: u64, bytes: &[u8]) -> Option<(&[u8], &[u8])>
    ensures { option_map (λ r. (r.0.now, r.1.now)) result ≡ piece_at is_text len bytes.now }
{
    let len = len as usize;
    if bytes.len() < len {
        return None;
    }
    let (front, rest) = bytes.split_at(len);
    if !is_allowed(is_text, front) {
        return None;
    }
    Some((front, rest))
}

// Whether a string of this kind may contain these bytes: a text must be UTF-8.
#[inline(always)]
pub(crate) fn is_allowed(is_text: bool, bytes: &[u8]) -> bool
    ensures { result ≡ is_allowed is_text bytes.now }
{
    is_plain(is_text, bytes) || is_utf8(bytes)
}

// Whether a string of this kind may contain these bytes, as far as that is seen at once: a text if
// it is short ASCII.
#[inline(always)]
pub(crate) fn is_plain(is_text: bool, bytes: &[u8]) -> bool
    ensures allowed { result ≡ true → is_allowed is_text bytes.now ≡ true }
    ensures text { result ≡ false → is_text ≡ true }
{
    !is_text || is_short_ascii(bytes)
}

// Not inlined, so that a short text needs no room for what `from_utf8` returns.
#[inline(never)]
fn is_utf8(bytes: &[u8]) -> bool
    ensures { result ≡ is_allowed true bytes.now }
{
    str::from_utf8(bytes).is_ok()
}

// Whether these are at most 64 bytes, and all ASCII: for so few this takes less time than
// `from_utf8`.
#[inline(always)]
fn is_short_ascii(bytes: &[u8]) -> bool
    ensures { result ≡ true → IsAscii bytes.now }
{
    if bytes.len() < 8 {
        bytes.iter().all(|b| *b < 0x80)
    } else {
        bytes.len() <= 64 && bytes.is_ascii()
    }
}
