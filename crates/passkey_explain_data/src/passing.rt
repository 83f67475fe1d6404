//! Going through the parts of authenticator data.
ghost use Rattle.std.specs.Prelude.{◌≡◌, ◌<◌, ◌≤◌, ◌+◌, length, Some};
ghost use Rattle.std.specs.Result.{result_map_both};
ghost use Rattle.passkey_cbor.specs.Item.{Item};
ghost use Rattle.passkey_cbor.specs.LeadingItem.{IsLeadingItem, HasNoLeadingItem};
ghost use Rattle.passkey_cbor.specs.View.{item_of};
ghost use Rattle.passkey_core.specs.DataReading.{read_map, ReadsItem, ReadsAttested, ReadsWhere};
ghost use Rattle.passkey_cose.specs.KeyReading.{read_key};
ghost use Rattle.passkey_explain_data.specs.DataBlame.{offset_in, extent_in, cut_off, reserved, part_at, fixed_in, ids_in};
ghost use Rattle.passkey_explain_data.specs.DataBlame.{IsNoItem, IsNoKey, BlamesKey, BlamesAttested, BlamesExtensions};
ghost use Rattle.passkey_explain_data.specs.DataBlame.{BlamesWhere, Passes, ReadsTo};
ghost use Rattle.passkey_explain_data.specs.KeyBlame.{key_blame};
ghost use Rattle.passkey_malformed.specs.Stops.{IsMalformed};

use crate::key::{KeyRefusal, explain_key, locate_key};
use crate::part::{DataPart, DataReason, DataRefusal};
use passkey_cbor::{CborError, Value};
use passkey_core::Flags;
use passkey_cose::CoseError;
use passkey_explain::Extent;
use passkey_malformed::{Malformed, malformed};
use passkey_memory::OutOfMemory;
use std::alloc::Global;

/// Why going through the parts ends before the last one.
#[derive(Clone, Copy)]
pub(crate) enum Stop {
    /// An allocation failed.
    OutOfMemory,
    /// A part is refused.
    Refused(DataRefusal),
}

/// Returns the offset of the rest of the bytes.
pub(crate) fn offset_in(whole: &[u8], rest: &[u8]) -> usize
    ensures { result ≡ offset_in whole.now rest.now }
{
    whole.len().saturating_sub(rest.len())
}

/// Returns where the first bytes of the rest are.
pub(crate) fn extent_in(whole: &[u8], rest: &[u8], len: usize) -> Extent
    ensures { result ≡ extent_in whole.now rest.now len }
{
    Extent {
        offset: offset_in(whole, rest),
        len,
    }
}

fn cut_off(whole: &[u8], part: DataPart, rest: &[u8]) -> DataRefusal
    ensures { result ≡ cut_off whole.now part rest.now }
{
    DataRefusal {
        fault: CoseError::DecodeFailed,
        part,
        extent: extent_in(whole, rest, rest.len()),
        reason: DataReason::CutOff,
    }
}

/// Returns the part at the beginning of the rest, and the bytes after it.
fn chunk_at<'a, const N: usize>(
    whole: &[u8],
    part: DataPart,
    rest: &'a [u8],
) -> Result<([u8; N], &'a [u8]), DataRefusal>
    ensures { result_map_both (λ r. (r.0, r.1.now)) (λ e. e) result ≡ part_at whole.now part N rest.now }
{
    match rest.split_first_chunk::<N>() {
        Some((chunk, following)) => Ok((*chunk, following)),
        None => Err(cut_off(whole, part, rest)),
    }
}

fn slice_at<'a>(
    whole: &[u8],
    part: DataPart,
    n: usize,
    rest: &'a [u8],
) -> Result<(&'a [u8], &'a [u8]), DataRefusal>
    ensures { result_map_both (λ r. (r.0.now, r.1.now)) (λ e. e) result ≡ part_at whole.now part n rest.now }
{
    match rest.split_at_checked(n) {
        Some(parts) => Ok(parts),
        None => Err(cut_off(whole, part, rest)),
    }
}

fn reserved() -> DataRefusal
    ensures { result ≡ reserved }
{
    DataRefusal {
        fault: CoseError::OutOfRangeIntegerValue,
        part: DataPart::Flags,
        extent: Extent { offset: 32, len: 1 },
        reason: DataReason::ReservedFlags,
    }
}

/// Passes the relying party id's hash, the flags and the signature counter. Returns the flags.
#[tactic(auto, unfolding(crate::specs::DataBlame::fixed_in))]
pub(crate) fn pass_fixed(bytes: &[u8]) -> Result<(Flags, &[u8]), DataRefusal>
    ensures { result_map_both (λ r. (r.0.0, r.1.now)) (λ e. e) result ≡ fixed_in bytes.now }
{
    let (_, rest) = chunk_at::<32>(bytes, DataPart::RpIdHash, bytes)?;
    let (flags, rest) = chunk_at::<1>(bytes, DataPart::Flags, rest)?;
    let (_, rest) = chunk_at::<4>(bytes, DataPart::SignCount, rest)?;
    let Ok(flags) = Flags::try_from(flags[0]) else {
        return Err(reserved());
    };
    Ok((flags, rest))
}

/// Passes the AAGUID and the credential id.
#[tactic(auto, unfolding(crate::specs::DataBlame::ids_in))]
pub(crate) fn pass_ids<'a>(whole: &[u8], rest: &'a [u8]) -> Result<&'a [u8], DataRefusal>
    ensures { result_map_both (λ r. r.now) (λ e. e) result ≡ ids_in whole.now rest.now }
{
    let (_, rest) = chunk_at::<16>(whole, DataPart::Aaguid, rest)?;
    let (len, rest) = chunk_at::<2>(whole, DataPart::CredentialIdLength, rest)?;
    let len = usize::from(u16::from_be_bytes(len));
    let (_, rest) = slice_at(whole, DataPart::CredentialId, len, rest)?;
    Ok(rest)
}

/// Returns where and why no data item begins the rest.
fn no_item(whole: &[u8], part: DataPart, rest: &[u8]) -> DataRefusal
    requires { HasNoLeadingItem rest.now }
    ensures { IsNoItem whole.now part rest.now result }
{
    let Malformed { offset, why } = malformed(rest).unwrap();
    let offset = offset_in(whole, rest) + offset;
    DataRefusal {
        fault: CoseError::DecodeFailed,
        part,
        extent: extent_in(whole, rest, rest.len()),
        reason: DataReason::NotWellFormed(Malformed { offset, why }),
    }
}

/// Returns the data item at the beginning of the rest, and its length.
fn item_at(alloc: Global, whole: &[u8], part: DataPart, rest: &[u8]) -> Result<(Value, usize), Stop>
    ensures { Passes (λ front. IsLeadingItem rest.now (item_of front.0) front.1)
        (IsNoItem whole.now part rest.now) result }
{
    match Value::from_slice(alloc, rest) {
        Ok(front) => Ok(front),
        Err(CborError::OutOfMemory) => Err(Stop::OutOfMemory),
        Err(_) => Err(Stop::Refused(no_item(whole, part, rest))),
    }
}

/// Returns the refusal of a key, with where what is to blame is.
fn no_key(whole: &[u8], rest: &[u8], len: usize, refusal: KeyRefusal) -> DataRefusal
    requires { (item : Item) × (IsLeadingItem rest.now item len × (key_blame item ≡ Some refusal)) }
    ensures { IsNoKey whole.now rest.now result }
{
    let found = locate_key(rest, refusal.blame).unwrap();
    let extent = Extent {
        offset: offset_in(whole, rest) + found.offset,
        len: found.len,
    };
    DataRefusal {
        fault: refusal.fault,
        part: DataPart::CredentialPublicKey,
        extent: extent_in(whole, rest, len),
        reason: DataReason::Key(refusal, extent),
    }
}

fn pass_key<'a>(alloc: Global, whole: &[u8], rest: &'a [u8]) -> Result<&'a [u8], Stop>
    ensures { Passes (λ after. ReadsTo (ReadsItem read_key rest.now) after.now) (BlamesKey whole.now rest.now) result }
{
    let (value, len) = match item_at(alloc, whole, DataPart::CredentialPublicKey, rest) {
        Ok(front) => front,
        Err(stop) => return Err(stop),
    };
    match explain_key(alloc, &value) {
        Ok(None) => Ok(rest.split_at(len).1),
        Ok(Some(refusal)) => Err(Stop::Refused(no_key(whole, rest, len, refusal))),
        Err(OutOfMemory) => Err(Stop::OutOfMemory),
    }
}

fn pass_attested<'a>(alloc: Global, whole: &[u8], rest: &'a [u8]) -> Result<&'a [u8], Stop>
    ensures { Passes (λ after. ReadsTo (ReadsAttested rest.now) after.now) (BlamesAttested whole.now rest.now) result }
{
    match pass_ids(whole, rest) {
        Ok(following) => pass_key(alloc, whole, following),
        Err(refusal) => Err(Stop::Refused(refusal)),
    }
}

/// Passes the attested credential data, if they are there.
pub(crate) fn pass_attested_where<'a>(
    alloc: Global,
    is_there: bool,
    whole: &[u8],
    rest: &'a [u8],
) -> Result<&'a [u8], Stop>
    ensures { Passes (λ after. ReadsTo (ReadsWhere is_there ReadsAttested rest.now) after.now)
        (BlamesWhere is_there (BlamesAttested whole.now rest.now)) result }
{
    if is_there {
        pass_attested(alloc, whole, rest)
    } else {
        Ok(rest)
    }
}

fn pass_extensions<'a>(alloc: Global, whole: &[u8], rest: &'a [u8]) -> Result<&'a [u8], Stop>
    ensures { Passes (λ after. ReadsTo (ReadsItem read_map rest.now) after.now)
        (BlamesExtensions whole.now rest.now) result }
{
    let (value, len) = match item_at(alloc, whole, DataPart::Extensions, rest) {
        Ok(front) => front,
        Err(stop) => return Err(stop),
    };
    match value {
        Value::Map(_) => Ok(rest.split_at(len).1),
        _ => Err(Stop::Refused(DataRefusal {
            fault: CoseError::UnexpectedItem,
            part: DataPart::Extensions,
            extent: extent_in(whole, rest, len),
            reason: DataReason::NotAMap,
        })),
    }
}

/// Passes the extension outputs, if they are there.
pub(crate) fn pass_extensions_where<'a>(
    alloc: Global,
    is_there: bool,
    whole: &[u8],
    rest: &'a [u8],
) -> Result<&'a [u8], Stop>
    ensures { Passes (λ after. ReadsTo (ReadsWhere is_there (ReadsItem read_map) rest.now) after.now)
        (BlamesWhere is_there (BlamesExtensions whole.now rest.now)) result }
{
    if is_there {
        pass_extensions(alloc, whole, rest)
    } else {
        Ok(rest)
    }
}
