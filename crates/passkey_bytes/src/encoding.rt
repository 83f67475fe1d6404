//! Base64 and base64url (RFC 4648, sections 4 and 5): encoded without padding, decoded with or
//! without it.
ghost use Rattle.std.specs.Prelude.{◌≡◌, ◌<◌, length, is_ok, IfOk, IsSomeAnd, OnErr, option_map};
ghost use Rattle.std.specs.Result.{result_ok};
ghost use Rattle.std.specs.String.{string_bytes};
ghost use Rattle.base64.specs.Engines.{standard_no_pad, url_safe_no_pad};
ghost use Rattle.base64.specs.GeneralPurpose.{SameEngine, decode_of, encode_of};
ghost use Rattle.passkey_bytes.specs.Encoding.{base64_bytes, base64url_bytes, url_safe_loose, without_equals, window, ReadsZeros};

use base64::engine::general_purpose::{GeneralPurpose, NO_PAD, STANDARD_NO_PAD, URL_SAFE_NO_PAD};
use base64::{DecodeAllocError, alphabet};
use passkey_memory::OutOfMemory;
use std::alloc::Global;

fn encode(alloc: Global, engine: &GeneralPurpose, bytes: &[u8]) -> Result<String, OutOfMemory>
    ensures same { IfOk result (λ text. string_bytes text ≡ encode_of engine.now bytes.now) }
    ensures grows { OnErr result (0 < length bytes.now) }
{
    if bytes.is_empty() {
        return Ok(String::new(alloc));
    }
    Ok(engine.encode(alloc, bytes)?)
}

/// Encodes the bytes in base64, without padding (RFC 4648, section 4). `OutOfMemory` if the
/// allocation fails, which can't happen if there are no bytes.
pub fn base64(alloc: Global, bytes: &[u8]) -> Result<String, OutOfMemory>
    ensures same { IfOk result (λ text. string_bytes text ≡ encode_of standard_no_pad bytes.now) }
    ensures grows { OnErr result (0 < length bytes.now) }
{
    encode(alloc, &STANDARD_NO_PAD, bytes)
}

/// Encodes the bytes in base64url, without padding (RFC 4648, section 5). `OutOfMemory` if the
/// allocation fails, which can't happen if there are no bytes.
pub fn base64url(alloc: Global, bytes: &[u8]) -> Result<String, OutOfMemory>
    ensures same { IfOk result (λ text. string_bytes text ≡ encode_of url_safe_no_pad bytes.now) }
    ensures grows { OnErr result (0 < length bytes.now) }
{
    encode(alloc, &URL_SAFE_NO_PAD, bytes)
}

/// Decodes base64url (RFC 4648, section 5); `None` if the text isn't base64url. Every `=` at its
/// end is ignored, and nothing else; the last symbol may have bits set beyond the last whole byte.
/// `OutOfMemory` if the allocation fails, which can't happen if the result is `None` or has no
/// bytes.
pub fn try_from_base64url(alloc: Global, text: &str) -> Result<Option<Vec<u8>>, OutOfMemory>
    ensures same { IfOk result (λ found. option_map (λ v. v.items) found ≡ base64url_bytes text.now) }
    ensures grows { OnErr result (IsSomeAnd (base64url_bytes text.now) (λ bytes. 0 < length bytes)) }
{
    decode(alloc, &url_safe_loose(), without_equals(text.as_bytes()))
}

/// Decodes base64 (RFC 4648, section 4); `None` if the text isn't base64. Every `=` at its end is
/// ignored, and nothing else; no bit may be set beyond the last whole byte.
pub(crate) fn try_from_base64(alloc: Global, text: &str) -> Result<Option<Vec<u8>>, OutOfMemory>
    ensures same { IfOk result (λ found. option_map (λ v. v.items) found ≡ base64_bytes text.now) }
    ensures grows { OnErr result (IsSomeAnd (base64_bytes text.now) (λ bytes. 0 < length bytes)) }
{
    decode(alloc, &STANDARD_NO_PAD, without_equals(text.as_bytes()))
}

/// Whether the first four symbols are in the alphabet: whether they decode if two symbols of value
/// zero follow.
fn is_group(engine: &GeneralPurpose, symbols: &[u8]) -> bool
    requires { 4 < length symbols.now }
    ensures { result ≡ is_ok (decode_of engine.now (window symbols.now)) }
{
    let window = [symbols[0], symbols[1], symbols[2], symbols[3], b'A', b'A'];
    engine.decode_slice_unchecked(&window, &mut [0; 6]).is_ok()
}

/// Whether the symbols decode. Allocates nothing.
fn is_decodable(engine: &GeneralPurpose, symbols: &[u8]) -> bool
    requires { ReadsZeros engine.now }
    ensures { result ≡ is_ok (decode_of engine.now symbols.now) }
{
    let mut rest = symbols;
    while rest.len() > 4 {
        if !is_group(engine, rest) {
            return false;
        }
        rest = rest.split_at(4).1;
    }
    engine.decode_slice_unchecked(rest, &mut [0; 3]).is_ok()
}

fn decode(
    alloc: Global,
    engine: &GeneralPurpose,
    symbols: &[u8],
) -> Result<Option<Vec<u8>>, OutOfMemory>
    requires { ReadsZeros engine.now }
    ensures same { IfOk result
        (λ found. option_map (λ v. v.items) found ≡ result_ok (decode_of engine.now symbols.now)) }
    ensures grows { OnErr result
        (IsSomeAnd (result_ok (decode_of engine.now symbols.now)) (λ bytes. 0 < length bytes)) }
{
    if symbols.is_empty() {
        return Ok(Some(Vec::new(alloc)));
    }
    match engine.decode(alloc, symbols) {
        Ok(bytes) => Ok(Some(bytes)),
        Err(DecodeAllocError::DecodeError(_)) => Ok(None),
        Err(DecodeAllocError::OutOfMemory) => {
            if !is_decodable(engine, symbols) {
                return Ok(None);
            }
            Err(OutOfMemory)
        }
    }
}

/// The engine for base64url that accepts any bits beyond the last byte.
fn url_safe_loose() -> GeneralPurpose
    ensures { SameEngine result url_safe_loose }
{
    GeneralPurpose::new(
        &alphabet::URL_SAFE,
        NO_PAD.with_decode_allow_trailing_bits(true),
    )
}

fn without_equals(text: &[u8]) -> &[u8]
    ensures { result.now ≡ without_equals text.now }
{
    let mut rest = text;
    while let Some((last, front)) = rest.split_last() {
        if *last != b'=' {
            return rest;
        }
        rest = front;
    }
    rest
}
