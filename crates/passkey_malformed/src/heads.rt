//! Heads, or why none is there.
ghost use Rattle.std.specs.Prelude.{◌≡◌, MatchResult};
ghost use Rattle.passkey_cbor.specs.HeadEncoding.{IsEncodingOfHead};
ghost use Rattle.passkey_malformed.specs.Stops.{Begins, HasNoHead, NoHead};
ghost use Rattle.passkey_malformed.specs.declared.why.Why.TheVariants.{CutOff as EndsHere};
ghost use Rattle.std.specs.Prelude.{[]};

use crate::why::Why;
use passkey_cbor::{Cursor, Head};

/// Where the bytes stop being well-formed.
#[derive(Clone, Copy)]
pub(crate) struct Stop<'a> {
    pub(crate) why: Why,
    /// The bytes from there on.
    pub(crate) rest: &'a [u8],
}

/// The bytes end too soon.
pub(crate) fn cut_off(bytes: &[u8]) -> Stop<'_>
    ensures why { result.why ≡ EndsHere }
    ensures rest { result.rest.now ≡ [] }
{
    Stop {
        why: Why::CutOff,
        rest: &bytes[bytes.len()..],
    }
}

/// Returns the head at the beginning of the bytes and the bytes after it, or why none is there.
pub(crate) fn after_head(bytes: &[u8]) -> Result<(Head, &[u8]), Stop<'_>>
    ensures { MatchResult result (λ r. Begins (IsEncodingOfHead r.0) bytes.now r.1.now)
        (λ s. HasNoHead bytes.now × NoHead bytes.now s.why s.rest.now) }
{
    let mut cursor = Cursor::new(bytes);
    match cursor.head() {
        Some(head) => Ok((head, &bytes[cursor.place()..])),
        None => Err(no_head(bytes)),
    }
}

/// Returns why no head begins the bytes.
fn no_head(bytes: &[u8]) -> Stop<'_>
    requires { HasNoHead bytes.now }
    ensures { NoHead bytes.now result.why result.rest.now }
{
    match bytes.split_first() {
        None => cut_off(bytes),
        Some((initial, following)) => {
            if *initial % 32 >= 28 {
                return Stop {
                    why: Why::ReservedArgument,
                    rest: bytes,
                };
            }
            if *initial == 0xf8 && !following.is_empty() {
                return Stop {
                    why: Why::BadSimple,
                    rest: bytes,
                };
            }
            cut_off(bytes)
        }
    }
}
