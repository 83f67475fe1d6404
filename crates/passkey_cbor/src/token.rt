//! Strings that are borrowed without a copy, in one piece or in chunks.
ghost use Rattle.std.specs.Prelude.{◌≡◌, ◌+◌, ◌≤◌, true, false, [], ◌∷◌, ◌++◌, take, drop, length, map, option_map, IfOk, IfSome};
ghost use Rattle.std.specs.Prelude.{MatchOption, None, Some as There};
ghost use Rattle.std.specs.String.{string_bytes};
ghost use Rattle.passkey_cbor.specs.Lent.{LendsString, PassesString, LendsEncoded, LentWhole, LooksToCopy, LooksAtAll};
ghost use Rattle.passkey_cbor.specs.Lent.{begins_text, PassesText, LooksToFill, IsNamed, Copies, Fills, IsRegion, IsSized, HoldsString};
ghost use Rattle.passkey_cbor.specs.Names.{IsNameOf, LooksFor};
ghost use Rattle.passkey_cbor.specs.Steps.{ReadsRegion, ReadsString, CountsAll};
ghost use Rattle.passkey_cbor.specs.Reading.{is_allowed};
ghost use Rattle.passkey_cbor.specs.HeadsDecoded.{string_heads};
ghost use Rattle.passkey_cbor.specs.CursorState.{ahead, raised, IsInside, MovesForward};

use crate::cursor::{Cursor, Next, is_plain};
use crate::leaf::short_string_head;
use crate::names::name_of;
use crate::read::copied;
use crate::text_chunks::TextChunks;
use passkey_memory::OutOfMemory;
use std::alloc::Global;
use std::marker::Model;
use std::str;

/// A text string that a cursor passed. It borrows the string's bytes, or its chunks with their
/// break (RFC 8949, section 3.2.3).
#[derive(Drop)]
pub struct TextToken<'a> {
    len: Option<u64>,
    region: &'a [u8],
}

impl<'a> Model for TextToken<'a> {
    ghost use Rattle.passkey_cbor.specs.Lent.{Region, IsRegion};
    ghost use Rattle.std.specs.Prelude.{true};

    ghost Value = { Region };

    ghost view = { λ t. record { len = t.len; bytes = t.region.now } };

    ghost invariant = { λ t. IsRegion true (record { len = t.len; bytes = t.region.now }) };
}

/// A byte string that a cursor passed. It borrows the string's bytes, or its chunks with their
/// break (RFC 8949, section 3.2.3).
#[derive(Drop)]
pub struct BytesToken<'a> {
    len: Option<u64>,
    region: &'a [u8],

    /// The string's length in bytes.
    size: usize,
}

impl<'a> Model for BytesToken<'a> {
    ghost use Rattle.passkey_cbor.specs.Lent.{Region, IsRegion, IsSized};
    ghost use Rattle.std.specs.Prelude.{false};

    ghost Value = { Region };

    ghost view = { λ t. record { len = t.len; bytes = t.region.now } };

    ghost invariant = { λ t. IsRegion false (record { len = t.len; bytes = t.region.now })
        × IsSized false (record { len = t.len; bytes = t.region.now }) t.size };
}

impl<'a> Cursor<'a> {
    /// Moves past the text string at the cursor and returns it, borrowed. Returns `None`, and the
    /// cursor doesn't move, if no well-formed text string follows. (RFC 8949, section 3.1, major
    /// type 3.)
    pub fn text(&mut self) -> Option<TextToken<'a>>
        ensures front { LendsString true self.old self.new result }

        // If a data item is encoded at the cursor, it is returned exactly if it is a text string.
        ensures lends { LendsEncoded true self.old self.new result }

        // The counts never decrease.
        ensures moves { MovesForward self.old self.new }
    {
        match self.short_string(true) {
            Some(region) => Some(TextToken {
                len: Some(region.len() as u64),
                region,
            }),
            None => self.other_text(),
        }
    }

    /// Moves past the text string at the cursor and returns true, if it is this text, which has fewer
    /// than 24 bytes, with a head of one byte. Otherwise the cursor doesn't move, and counts nothing.
    /// (RFC 8949, section 3.1, major type 3.)
    #[inline(always)]
    pub fn pass_text(&mut self, text: &str) -> bool
        ensures is { result ≡ begins_text text.now (ahead self.old) }
        ensures passes { PassesText text.now self.old self.new result }

        // If a data item is encoded at the cursor and the result is true, it is this text.
        ensures lends { result ≡ true → LendsEncoded true self.old self.new
            (There (record { len = There (length text.now); bytes = text.now })) }

        // The counts never decrease.
        ensures moves { MovesForward self.old self.new }
    {
        let is_there = begins_text(&self.bytes[self.place..], text);
        if is_there {
            self.pass_leaf(1 + text.len());
        }
        is_there
    }

    /// Moves past the byte string at the cursor and returns it, borrowed. Returns `None`, and the
    /// cursor doesn't move, if no well-formed byte string follows. (RFC 8949, section 3.1, major
    /// type 2.)
    pub fn bytes(&mut self) -> Option<BytesToken<'a>>
        ensures front { LendsString false self.old self.new result }

        // If a data item is encoded at the cursor, it is returned exactly if it is a byte string.
        ensures lends { LendsEncoded false self.old self.new result }

        // The counts never decrease.
        ensures moves { MovesForward self.old self.new }
    {
        match self.short_string(false) {
            Some(region) => Some(BytesToken {
                len: Some(region.len() as u64),
                region,
                size: region.len(),
            }),
            None => self.other_bytes(),
        }
    }

    // The same as `text`, for any text string. Not inlined, so that a short one needs no room for it.
    #[inline(never)]
    fn other_text(&mut self) -> Option<TextToken<'a>>
        ensures front { LendsString true self.old self.new result }
        ensures lends { LendsEncoded true self.old self.new result }
        ensures moves { MovesForward self.old self.new }
    {
        match self.other_string(true) {
            None => None,
            Some((len, region, _)) => Some(TextToken { len, region }),
        }
    }

    // The same as `bytes`, for any byte string.
    #[inline(never)]
    fn other_bytes(&mut self) -> Option<BytesToken<'a>>
        ensures front { LendsString false self.old self.new result }
        ensures lends { LendsEncoded false self.old self.new result }
        ensures moves { MovesForward self.old self.new }
    {
        match self.other_string(false) {
            None => None,
            Some((len, region, size)) => Some(BytesToken { len, region, size }),
        }
    }

    // Passes and returns the string of this kind at the cursor, if its head has one byte, or two with
    // the argument in the second, and it is a byte string or short ASCII. Else does nothing.
    #[inline(always)]
    fn short_string(&mut self, is_text: bool) -> Option<&'a [u8]>
        ensures passes { MatchOption result (self.new ≡ self.old) (λ s. PassesString is_text self.old self.new
            (record { len = There (length s.now); bytes = s.now })) }
        ensures moves { MovesForward self.old self.new }
    {
        let bytes = self.bytes;
        let (head_len, len) = short_string_head(is_text, &bytes[self.place..])?;
        let rest = &bytes[self.place + head_len..];
        if rest.len() < len {
            return None;
        }
        let content = &rest[..len];
        if !is_plain(is_text, content) {
            return None;
        }
        self.pass_leaf(head_len + len);
        Some(content)
    }

    // The same as `string`, for any string. Not inlined, so that a short one needs no room for it.
    #[inline(never)]
    fn other_string(&mut self, is_text: bool) -> Option<(Option<u64>, &'a [u8], usize)>
        ensures front { LendsString is_text self.old self.new
            (option_map (λ r. record { len = r.0; bytes = r.1.now }) result) }
        ensures lends { LendsEncoded is_text self.old self.new
            (option_map (λ r. record { len = r.0; bytes = r.1.now }) result) }
        ensures moves { MovesForward self.old self.new }
        ensures size { IfSome result (λ r. IsSized is_text (record { len = r.0; bytes = r.1.now }) r.2) }
    {
        let place = self.place;
        let found = self.string_ahead(is_text);
        if found.is_none() {
            self.go_back(place);
        }
        found
    }

    // The same, but the cursor may stop anywhere if no string of this kind follows.
    #[inline(always)]
    fn string_ahead(&mut self, is_text: bool) -> Option<(Option<u64>, &'a [u8], usize)>
        ensures reads { ReadsString is_text self.old self.new
            (option_map (λ r. record { len = r.0; bytes = r.1.now }) result) }
        ensures moves { MovesForward self.old self.new }
        ensures size { IfSome result (λ r. IsSized is_text (record { len = r.0; bytes = r.1.now }) r.2) }
    {
        match self.decode() {
            None => None,
            Some(head) => match head.string_len(is_text) {
                None => None,
                Some(len) => match self.region(is_text, len) {
                    None => None,
                    Some((region, size)) => Some((len, region, size)),
                },
            },
        }
    }

    // Passes the bytes after a string's head, given the length in the head; returns these bytes and
    // the string's length in bytes.
    #[inline(always)]
    fn region(&mut self, is_text: bool, len: Option<u64>) -> Option<(&'a [u8], usize)>
        requires { IsInside self.old }
        ensures reads { ReadsRegion is_text len self.old self.new (option_map (λ r. r.0.now) result) }
        ensures decoded { self.new.heads ≡ raised self.old.heads (string_heads is_text len (ahead self.old)) }
        ensures moves { MovesForward self.old self.new }
        ensures size { IfSome result (λ r. IsSized is_text (record { len = len; bytes = r.0.now }) r.1) }
    {
        let bytes = self.bytes;
        let start = self.place;
        let Some(size) = self.pass_string(is_text, len) else {
            return None;
        };
        Some((&bytes[start..self.place], size))
    }
}

// Whether the bytes begin with this text string, with a head of one byte.
#[inline(always)]
fn begins_text(bytes: &[u8], text: &str) -> bool
    ensures is { result ≡ begins_text text.now bytes.now }
    ensures within { result ≡ true → 1 + length text.now ≤ length bytes.now }
    ensures there { result ≡ true → take (length text.now) (drop 1 bytes.now) ≡ text.now }
{
    let name = text.as_bytes();
    match bytes.split_first() {
        None => false,
        Some((initial, rest)) => {
            name.len() < 24
                && usize::from(*initial) == 0x60 + name.len()
                && rest.len() >= name.len()
                && &rest[..name.len()] == name
        }
    }
}

// A copy of a string, given its region. The heads of chunks are counted at the cursor.
fn copy(
    alloc: Global,
    is_text: bool,
    len: Option<u64>,
    region: &[u8],
    cursor: &mut Cursor<'_>,
) -> Result<Vec<u8>, OutOfMemory>
    requires { IsRegion is_text (record { len = len; bytes = region.now }) }
    ensures copies { Copies (λ v. v.items) is_text (record { len = len; bytes = region.now }) result }
    ensures allowed_text { IfOk result (λ v. is_allowed is_text v.items ≡ true) }
    ensures looks { LooksToCopy is_text (record { len = len; bytes = region.now }) cursor.old cursor.new result }
    ensures rises { cursor.old.heads ≤ cursor.new.heads }
{
    match len {
        Some(_) => Ok(copied(alloc, region)?),
        None => {
            let mut chunks = Cursor::new(region);
            let bytes = chunks.build_chunks(alloc, is_text);
            cursor.add_heads(chunks.count().heads);
            match bytes {
                Ok(bytes) => Ok(bytes),
                // A token's chunks are well-formed.
                Err(_) => Err(OutOfMemory),
            }
        }
    }
}

// Copies the piece into the slice at this index.
fn put(into: &mut [u8], at: usize, piece: &[u8])
    requires { at + length piece.now ≤ length into.old }
    ensures { into.new ≡ take at into.old ++ (piece.now ++ drop (at + length piece.now) into.old) }
{
    into[at..at + piece.len()].copy_from_slice(piece);
}

// Copies the chunks ahead, up to their break, into a slice of their total length.
fn put_chunks(chunks: &mut Cursor<'_>, into: &mut [u8])
    requires inside { IsInside chunks.old }
    requires region { IsRegion false (record { len = None; bytes = ahead chunks.old }) }
    requires size { IsSized false (record { len = None; bytes = ahead chunks.old }) (length into.old) }
    ensures filled { HoldsString false (record { len = None; bytes = ahead chunks.old }) into.new }
    ensures counted { CountsAll false chunks.old chunks.new }
{
    let mut left = None;
    let mut at = 0;
    loop {
        match chunks.step(&mut left) {
            // These are a token's chunks, which are well-formed.
            Next::Malformed => return,
            Next::End => return,
            Next::Element(head) => match chunks.chunk(false, head) {
                None => return,
                Some(piece) => {
                    put(into, at, piece);
                    at += piece.len();
                }
            },
        }
    }
}

// Copies a byte string in chunks, given its region, into a slice of its length. The heads are
// counted at the cursor.
fn fill_chunks(region: &[u8], cursor: &mut Cursor<'_>, into: &mut [u8])
    requires region { IsRegion false (record { len = None; bytes = region.now }) }
    requires size { IsSized false (record { len = None; bytes = region.now }) (length into.old) }
    ensures filled { HoldsString false (record { len = None; bytes = region.now }) into.new }
    ensures looks { LooksAtAll false (record { len = None; bytes = region.now }) cursor.old cursor.new }
    ensures rises { cursor.old.heads ≤ cursor.new.heads }
{
    let mut chunks = Cursor::new(region);
    put_chunks(&mut chunks, into);
    cursor.add_heads(chunks.count().heads);
}

impl<'a> TextToken<'a> {
    /// Returns whether the text equals the name. If the string is in chunks, heads are decoded
    /// again and counted at `cursor`, which doesn't move: one for each chunk, until the joined
    /// chunks aren't a prefix of the name, or else up to and including the break.
    pub fn eq_name(&self, name: &str, cursor: &mut Cursor<'_>) -> bool
        ensures same { IsNamed true self.now name.now result }
        ensures looks { LooksFor true (name.now ∷ []) self.now cursor.old cursor.new }
        ensures rises { cursor.old.heads ≤ cursor.new.heads }
    {
        name_of(true, self.len, self.region, &[name], cursor).is_some()
    }

    /// Returns the index of the first of the names that equals the text, or `None`. All names are
    /// compared in one pass. If the string is in chunks, heads are decoded again and counted at
    /// `cursor`, which doesn't move: one for each chunk, until the joined chunks aren't a prefix of
    /// any name, or else up to and including the break.
    pub fn name_of(&self, names: &[&str], cursor: &mut Cursor<'_>) -> Option<usize>
        ensures name { IsNameOf true self.now (map (λ n. n.now) names.now) result }
        ensures looks { LooksFor true (map (λ n. n.now) names.now) self.now cursor.old cursor.new }
        ensures rises { cursor.old.heads ≤ cursor.new.heads }
    {
        name_of(true, self.len, self.region, names, cursor)
    }

    /// Returns a copy of the text. `OutOfMemory` if an allocation fails, which can't happen for an
    /// empty text. If the string is in chunks, heads are decoded again and counted at `cursor`,
    /// which doesn't move: one for each chunk and one for the break, or fewer if an allocation
    /// fails.
    pub fn copy(&self, alloc: Global, cursor: &mut Cursor<'_>) -> Result<String, OutOfMemory>
        ensures copies { Copies string_bytes true self.now result }
        ensures looks { LooksToCopy true self.now cursor.old cursor.new result }
        ensures rises { cursor.old.heads ≤ cursor.new.heads }
    {
        let bytes = copy(alloc, true, self.len, self.region, cursor)?;
        // The cursor checked that the text is UTF-8.
        Ok(unsafe { String::from_utf8_unchecked(bytes) })
    }

    /// Returns the text's pieces: the text itself if its length is definite, or else its chunks in
    /// order.
    pub fn chunks(&self) -> TextChunks<'a>
        ensures { result ≡ self.now }
    {
        TextChunks {
            len: self.len,
            region: self.region,
        }
    }

    /// Returns the text if its length is definite, or `None` if it is in chunks.
    pub fn lent(&self) -> Option<&'a str>
        ensures { LentWhole self.now (option_map (λ s. s.now) result) }
    {
        match self.len {
            None => None,
            // The cursor checked that the text is UTF-8.
            Some(_) => Some(unsafe { str::from_utf8_unchecked(self.region) }),
        }
    }
}

impl<'a> BytesToken<'a> {
    /// Returns whether the bytes equal the name's. If the string is in chunks, heads are decoded
    /// again and counted at `cursor`, which doesn't move: one for each chunk, until the joined
    /// chunks aren't a prefix of the name, or else up to and including the break.
    pub fn eq_name(&self, name: &str, cursor: &mut Cursor<'_>) -> bool
        ensures same { IsNamed false self.now name.now result }
        ensures looks { LooksFor false (name.now ∷ []) self.now cursor.old cursor.new }
        ensures rises { cursor.old.heads ≤ cursor.new.heads }
    {
        name_of(false, self.len, self.region, &[name], cursor).is_some()
    }

    /// Returns the index of the first of the names whose bytes equal these, or `None`. All names
    /// are compared in one pass. If the string is in chunks, heads are decoded again and counted at
    /// `cursor`, which doesn't move: one for each chunk, until the joined chunks aren't a prefix of
    /// any name, or else up to and including the break.
    pub fn name_of(&self, names: &[&str], cursor: &mut Cursor<'_>) -> Option<usize>
        ensures name { IsNameOf false self.now (map (λ n. n.now) names.now) result }
        ensures looks { LooksFor false (map (λ n. n.now) names.now) self.now cursor.old cursor.new }
        ensures rises { cursor.old.heads ≤ cursor.new.heads }
    {
        name_of(false, self.len, self.region, names, cursor)
    }

    /// Returns a copy of the bytes. `OutOfMemory` if an allocation fails, which can't happen for an
    /// empty string. If the string is in chunks, heads are decoded again and counted at `cursor`,
    /// which doesn't move: one for each chunk and one for the break, or fewer if an allocation
    /// fails.
    pub fn copy(&self, alloc: Global, cursor: &mut Cursor<'_>) -> Result<Vec<u8>, OutOfMemory>
        ensures copies { Copies (λ v. v.items) false self.now result }
        ensures looks { LooksToCopy false self.now cursor.old cursor.new result }
        ensures rises { cursor.old.heads ≤ cursor.new.heads }
    {
        copy(alloc, false, self.len, self.region, cursor)
    }

    /// Copies the bytes into the slice and returns true if the slice has their length; else leaves
    /// it unchanged and returns false. Allocates nothing. If the string is in chunks and is copied,
    /// heads are decoded again and counted at `cursor`, which doesn't move: one for each chunk and
    /// one for the break.
    pub fn fill(&self, cursor: &mut Cursor<'_>, into: &mut [u8]) -> bool
        ensures filled { Fills self.now into.old into.new result }
        ensures looks { LooksToFill self.now cursor.old cursor.new result }
        ensures rises { cursor.old.heads ≤ cursor.new.heads }
    {
        if self.size != into.len() {
            return false;
        }
        match self.len {
            Some(_) => into.copy_from_slice(self.region),
            None => fill_chunks(self.region, cursor, into),
        }
        true
    }

    /// Returns the bytes if their length is definite, or `None` if they are in chunks.
    pub fn lent(&self) -> Option<&'a [u8]>
        ensures { LentWhole self.now (option_map (λ s. s.now) result) }
    {
        match self.len {
            None => None,
            Some(_) => Some(self.region),
        }
    }
}
