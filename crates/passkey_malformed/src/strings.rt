//! Strings, or why none is there.
ghost use Rattle.std.specs.Prelude.{◌≡◌, ◌-◌, List, ℕ, None as Unknown, length, MatchResult};
ghost use Rattle.passkey_cbor.specs.Inside.{Content};
ghost use Rattle.passkey_malformed.specs.Stops.{StringLeads, NoPiece, StopsInChunks, StopsInString};
ghost use Rattle.std.specs.Prelude.{Some as Known};

use crate::heads::{Stop, after_head, cut_off};
use crate::why::Why;
use passkey_cbor::Head;
use std::str;

/// Returns the bytes after the content of a string, or of a chunk, of this length.
fn after_piece(is_text: bool, len: u64, bytes: &[u8]) -> Result<&[u8], Stop<'_>>
    ensures { MatchResult result (λ rest. StringLeads is_text (Known len) bytes.now rest.now)
        (λ stop. NoPiece is_text len bytes.now stop.why stop.rest.now) }
{
    let len = len as usize;
    if bytes.len() < len {
        return Err(cut_off(bytes));
    }
    let (content, rest) = bytes.split_at(len);
    if is_text && str::from_utf8(content).is_err() {
        return Err(Stop {
            why: Why::NotUtf8,
            rest: bytes,
        });
    }
    Ok(rest)
}

/// Returns the bytes after the chunks of a string and their break.
fn after_chunks(is_text: bool, bytes: &[u8]) -> Result<&[u8], Stop<'_>>
    ensures { MatchResult result (λ rest. StringLeads is_text Unknown bytes.now rest.now)
        (λ stop. StopsInChunks is_text bytes.now stop.why stop.rest.now) }
{
    let mut here = bytes;
    loop {
        let (head, following) = match after_head(here) {
            Ok(found) => found,
            Err(stop) => return Err(stop),
        };
        if let Head::Break = head {
            return Ok(following);
        }
        match head.chunk_len(is_text) {
            None => {
                return Err(Stop {
                    why: Why::BadChunk,
                    rest: here,
                });
            }
            Some(len) => match after_piece(is_text, len, following) {
                Ok(next) => here = next,
                Err(stop) => return Err(stop),
            },
        }
    }
}

/// Returns the bytes after a string whose head has this length.
pub(crate) fn after_string(is_text: bool, len: Option<u64>, bytes: &[u8]) -> Result<&[u8], Stop<'_>>
    ensures { MatchResult result (λ rest. StringLeads is_text len bytes.now rest.now)
        (λ stop. StopsInString is_text len bytes.now stop.why stop.rest.now) }
{
    match len {
        Some(len) => after_piece(is_text, len, bytes),
        None => after_chunks(is_text, bytes),
    }
}
