//! Parts at the beginning of bytes, big-endian, and the same parts encoded.
ghost use Rattle.std.specs.Prelude.{◌≡◌, ◌<◌, ◌≤◌, ◌^◌, ◌++◌, length, Err, OnOk};
ghost use Rattle.passkey_tpm.specs.Parts.{begun, bytes_at, bytes_follow, constant_at, cut_off, refused, u8_at, u16_at, u32_at};
ghost use Rattle.passkey_tpm.specs.Parts.{u64_at, sized_at, sized_written, wide_constant_at};
ghost use Rattle.passkey_tpm.specs.declared.encode_error.EncodeError.TheVariants.{TooLong};

use crate::EncodeError;
use crate::refusal::{Stop, TpmField, TpmReason};

/// A part at the beginning of the bytes, and the bytes after it.
pub(crate) type Begun<'a, T> = Result<(T, &'a [u8]), Stop>;

/// The first bytes are those of a field, so many of which are refused.
pub(crate) fn refused(field: TpmField, bytes: &[u8], len: usize, reason: TpmReason) -> Stop
    ensures { result ≡ refused field bytes.now len reason }
{
    Stop {
        field,
        left: bytes.len(),
        len,
        reason,
    }
}

/// The bytes end before the field does.
fn cut_off(field: TpmField, bytes: &[u8]) -> Stop
    ensures { result ≡ cut_off field bytes.now }
{
    refused(field, bytes, bytes.len(), TpmReason::CutOff)
}

fn read_chunk<const N: usize>(field: TpmField, bytes: &[u8]) -> Begun<'_, [u8; N]>
    ensures { begun (λ r. (r.0, r.1.now)) result ≡ bytes_at (cut_off field bytes.now) N bytes.now }
{
    match bytes.split_first_chunk::<N>() {
        Some((chunk, rest)) => Ok((*chunk, rest)),
        None => Err(cut_off(field, bytes)),
    }
}

fn read_slice(stop: Stop, bytes: &[u8], n: usize) -> Begun<'_, &[u8]>
    ensures { begun (λ r. (r.0.now, r.1.now)) result ≡ bytes_at stop n bytes.now }
{
    match bytes.split_at_checked(n) {
        Some(parts) => Ok(parts),
        None => Err(stop),
    }
}

#[tactic(auto, unfolding(crate::specs::Parts::u8_at))]
pub(crate) fn read_u8(field: TpmField, bytes: &[u8]) -> Begun<'_, u8>
    ensures { begun (λ r. (r.0, r.1.now)) result ≡ u8_at field bytes.now }
{
    let (chunk, rest) = read_chunk::<1>(field, bytes)?;
    Ok((u8::from_be_bytes(chunk), rest))
}

#[tactic(auto, unfolding(crate::specs::Parts::u16_at))]
pub(crate) fn read_u16(field: TpmField, bytes: &[u8]) -> Begun<'_, u16>
    ensures { begun (λ r. (r.0, r.1.now)) result ≡ u16_at field bytes.now }
{
    let (chunk, rest) = read_chunk::<2>(field, bytes)?;
    Ok((u16::from_be_bytes(chunk), rest))
}

#[tactic(auto, unfolding(crate::specs::Parts::u32_at))]
pub(crate) fn read_u32(field: TpmField, bytes: &[u8]) -> Begun<'_, u32>
    ensures { begun (λ r. (r.0, r.1.now)) result ≡ u32_at field bytes.now }
{
    let (chunk, rest) = read_chunk::<4>(field, bytes)?;
    Ok((u32::from_be_bytes(chunk), rest))
}

#[tactic(auto, unfolding(crate::specs::Parts::u64_at))]
pub(crate) fn read_u64(field: TpmField, bytes: &[u8]) -> Begun<'_, u64>
    ensures { begun (λ r. (r.0, r.1.now)) result ≡ u64_at field bytes.now }
{
    let (chunk, rest) = read_chunk::<8>(field, bytes)?;
    Ok((u64::from_be_bytes(chunk), rest))
}

/// Skips a constant of 2 bytes.
#[tactic(auto, unfolding(crate::specs::Parts::constant_at))]
pub(crate) fn skip_u16(field: TpmField, constant: u16, bytes: &[u8]) -> Result<&[u8], Stop>
    ensures { begun (λ r. r.now) result ≡ constant_at field constant bytes.now }
{
    let (number, rest) = read_u16(field, bytes)?;
    if number == constant {
        Ok(rest)
    } else {
        Err(refused(field, bytes, 2, TpmReason::OtherConstant))
    }
}

/// Skips a constant of 4 bytes.
#[tactic(auto, unfolding(crate::specs::Parts::wide_constant_at))]
pub(crate) fn skip_u32(field: TpmField, constant: u32, bytes: &[u8]) -> Result<&[u8], Stop>
    ensures { begun (λ r. r.now) result ≡ wide_constant_at field constant bytes.now }
{
    let (number, rest) = read_u32(field, bytes)?;
    if number == constant {
        Ok(rest)
    } else {
        Err(refused(field, bytes, 4, TpmReason::OtherConstant))
    }
}

/// A TPM2B: a length of 2 bytes, and so many bytes.
#[tactic(auto, unfolding(crate::specs::Parts::sized_at))]
pub(crate) fn read_sized(field: TpmField, bytes: &[u8]) -> Begun<'_, &[u8]>
    ensures { begun (λ r. (r.0.now, r.1.now)) result ≡ sized_at field bytes.now }
{
    let (len, rest) = read_u16(field, bytes)?;
    read_slice(cut_off(field, bytes), rest, usize::from(len))
}

/// Bytes follow the last field.
pub(crate) fn bytes_follow(rest: &[u8]) -> Stop
    ensures { result ≡ bytes_follow rest.now }
{
    refused(TpmField::Trailing, rest, rest.len(), TpmReason::BytesFollow)
}

/// Appends a TPM2B. Returns `TooLong` exactly if there are more than 65535 bytes.
pub(crate) fn push_sized(out: &mut Vec<u8>, bytes: &[u8]) -> Result<(), EncodeError>
    ensures written { OnOk result (out.new.items ≡ out.old.items ++ sized_written bytes.now) }
    ensures short { OnOk result (length bytes.now < 2 ^ 16) }
    ensures long { result ≡ Err TooLong → 2 ^ 16 ≤ length bytes.now }
{
    let Ok(len) = u16::try_from(bytes.len()) else {
        return Err(EncodeError::TooLong);
    };
    out.extend_from_slice(&len.to_be_bytes())?;
    out.extend_from_slice(bytes)?;
    Ok(())
}
