//! Where and why bytes aren't well-formed.
ghost use Rattle.std.specs.Prelude.{MatchOption};
ghost use Rattle.passkey_malformed.specs.Stops.{HasLeadingItem, IsMalformed};

use crate::heads::Stop;
use crate::items::after_item;
use crate::why::{Malformed, Why};
use passkey_cbor::{MAX_DEPTH, item_len};

/// Returns where and why the bytes don't begin with a well-formed data item of at most 256 levels,
/// whose text strings are UTF-8, or `None` if they do. Bytes after that item are ignored. Allocates
/// nothing. (RFC 8949, section 3.)
pub fn malformed(bytes: &[u8]) -> Option<Malformed>
    ensures { MatchOption result (HasLeadingItem bytes.now) (IsMalformed bytes.now) }
{
    if item_len(bytes).is_some() {
        return None;
    }
    match after_item(bytes, MAX_DEPTH, Why::StrayBreak) {
        Ok(_) => None,
        Err(Stop { why, rest }) => {
            let offset = bytes.len() - rest.len();
            Some(Malformed { offset, why })
        }
    }
}
