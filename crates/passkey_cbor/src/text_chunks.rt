//! The pieces of a text string, borrowed one after the other.
ghost use Rattle.std.specs.Prelude.{true, None, option_map};
ghost use Rattle.passkey_cbor.specs.Lent.{IsRegion};
ghost use Rattle.passkey_cbor.specs.Pieces.{LendsNext, LooksAhead, SplitsChunk};

use crate::cursor::{Cursor, Next};
use std::marker::Model;
use std::str;

/// The remaining pieces of a text string: the string itself if its length is definite, or else the
/// remaining chunks (RFC 8949, section 3.2.3).
#[derive(Drop)]
pub struct TextChunks<'a> {
    pub(crate) len: Option<u64>,
    pub(crate) region: &'a [u8],
}

impl<'a> Model for TextChunks<'a> {
    ghost use Rattle.passkey_cbor.specs.Lent.{Region, IsRegion};
    ghost use Rattle.std.specs.Prelude.{true};

    ghost Value = { Region };

    ghost view = { λ t. record { len = t.len; bytes = t.region.now } };

    ghost invariant = { λ t. IsRegion true (record { len = t.len; bytes = t.region.now }) };
}

// The first chunk's text, and the bytes after that chunk, in the region of a text string in chunks.
// `None` at the break.
fn first_chunk(region: &[u8]) -> Option<(&str, &[u8])>
    requires { IsRegion true (record { len = None; bytes = region.now }) }
    ensures { SplitsChunk true region.now (option_map (λ r. (r.0.now, r.1.now)) result) }
{
    let mut chunks = Cursor::new(region);
    let mut left = None;
    match chunks.step(&mut left) {
        // A token's chunks are well-formed.
        Next::Malformed => None,
        Next::End => None,
        Next::Element(head) => match chunks.chunk(true, head) {
            None => None,
            Some(piece) => {
                let rest = &region[chunks.place()..];
                Some((str::from_utf8(piece).unwrap(), rest))
            }
        },
    }
}

impl<'a> TextChunks<'a> {
    /// Returns the next piece of the text, or `None` after the last one. A text string of definite
    /// length is one piece, unless it is empty; of a string in chunks, each chunk is a piece. For
    /// each chunk and for the break, one head is decoded and counted at `cursor`, which doesn't
    /// move.
    pub fn next(&mut self, cursor: &mut Cursor<'_>) -> Option<&'a str>
        ensures piece { LendsNext true self.old self.new (option_map (λ s. s.now) result) }
        ensures looks { LooksAhead self.old cursor.old cursor.new }
    {
        let region = self.region;
        match self.len {
            Some(_) => {
                *self = TextChunks {
                    len: Some(0),
                    region: &[],
                };
                if region.is_empty() {
                    return None;
                }
                Some(str::from_utf8(region).unwrap())
            }
            None => {
                cursor.add_heads(1);
                match first_chunk(region) {
                    None => {
                        *self = TextChunks {
                            len: Some(0),
                            region: &[],
                        };
                        None
                    }
                    Some((piece, rest)) => {
                        self.region = rest;
                        Some(piece)
                    }
                }
            }
        }
    }
}
