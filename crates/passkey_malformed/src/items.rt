//! Data items, or why none is there.
ghost use Rattle.std.specs.Prelude.{◌≡◌, None, MatchResult};
ghost use Rattle.passkey_cbor.specs.EncodedAt.{goes_on};
ghost use Rattle.passkey_malformed.specs.declared.why.Why.TheVariants.{TooDeep as NoLevel};
ghost use Rattle.passkey_malformed.specs.Stops.{ItemLeads, ListLeads, Stops, StopsInList, wants, awaits_value, break_in};

use crate::heads::{Stop, after_head};
use crate::strings::after_string;
use crate::why::Why;
use passkey_cbor::Head;

/// The initial byte of a break (RFC 8949, section 3.2.1).
const BREAK: u8 = 0xff;

/// Returns whether a value belongs after so many data items of a map.
fn awaits_value(is_map: bool, passed: usize) -> bool
    ensures { result ≡ awaits_value is_map passed }
{
    is_map && passed % 2 == 1
}

/// Returns whether the bytes don't begin with a break.
fn goes_on(bytes: &[u8]) -> bool
    ensures { result ≡ goes_on None bytes.now }
{
    bytes.is_empty() || bytes[0] != BREAK
}

/// Returns whether another data item belongs to an array or a map of this length, after so many.
fn wants(is_map: bool, len: Option<u64>, passed: usize, here: &[u8]) -> bool
    ensures { result ≡ wants is_map len passed here.now }
{
    match len {
        Some(len) => {
            let items = if is_map {
                2 * u128::from(len)
            } else {
                u128::from(len)
            };
            (passed as u128) < items
        }
        None => awaits_value(is_map, passed) || goes_on(here),
    }
}

/// Returns what a break is where such a data item belongs.
fn break_in(is_map: bool, len: Option<u64>, passed: usize) -> Why
    ensures { result ≡ break_in is_map len passed }
{
    match len {
        Some(_) => Why::StrayBreak,
        None => {
            if awaits_value(is_map, passed) {
                Why::OddMap
            } else {
                Why::StrayBreak
            }
        }
    }
}

/// Returns the bytes after the data items of an array or a map of this length, each of at most
/// `levels` levels, and after the break if the length is indefinite.
#[cycle(items)]
fn after_list(
    is_map: bool,
    len: Option<u64>,
    bytes: &[u8],
    levels: usize,
) -> Result<&[u8], Stop<'_>>
    ensures { MatchResult result (λ rest. ListLeads is_map len levels bytes.now rest.now)
        (λ stop. StopsInList is_map len levels bytes.now stop.why stop.rest.now) }
{
    let mut here = bytes;
    let mut passed = 0;
    while wants(is_map, len, passed, here) {
        match after_item(here, levels, break_in(is_map, len, passed)) {
            Ok(next) => here = next,
            Err(stop) => return Err(stop),
        }
        passed += 1;
    }
    match len {
        Some(_) => Ok(here),
        None => Ok(&here[1..]),
    }
}

/// An array, a map or a tag begins the bytes, and no level is left for it.
fn too_deep(bytes: &[u8]) -> Stop<'_>
    ensures why { result.why ≡ NoLevel }
    ensures rest { result.rest.now ≡ bytes.now }
{
    Stop {
        why: Why::TooDeep,
        rest: bytes,
    }
}

/// Returns the bytes after a data item of at most `levels` levels, or why none is there: `at_break`
/// if a break is.
#[cycle(items)]
pub(crate) fn after_item(bytes: &[u8], levels: usize, at_break: Why) -> Result<&[u8], Stop<'_>>
    ensures { MatchResult result (λ rest. ItemLeads levels bytes.now rest.now)
        (λ stop. Stops levels at_break bytes.now stop.why stop.rest.now) }
{
    let (head, following) = match after_head(bytes) {
        Ok(found) => found,
        Err(stop) => return Err(stop),
    };
    match head {
        Head::Unsigned(_) => Ok(following),
        Head::Negative(_) => Ok(following),
        Head::Simple(_) => Ok(following),
        Head::Float(_) => Ok(following),
        Head::Bytes(len) => after_string(false, len, following),
        Head::Text(len) => after_string(true, len, following),
        Head::Array(len) => match levels.checked_sub(1) {
            None => Err(too_deep(bytes)),
            Some(inner) => after_list(false, len, following, inner),
        },
        Head::Map(len) => match levels.checked_sub(1) {
            None => Err(too_deep(bytes)),
            Some(inner) => after_list(true, len, following, inner),
        },
        Head::Tag(_) => match levels.checked_sub(1) {
            None => Err(too_deep(bytes)),
            Some(inner) => after_item(following, inner, Why::StrayBreak),
        },
        Head::Break => Err(Stop {
            why: at_break,
            rest: bytes,
        }),
    }
}
