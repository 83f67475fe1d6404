//! Bytes as people paste them: in hexadecimal, as a dump, in base64 or base64url, as a JSON text, or
//! as they are.
#![tactic(auto)]

mod dump;

ghost use Rattle.std.specs.Prelude.{◌≡◌, IfOk, flat_map, option_map, string_bytes};
ghost use Rattle.passkey_inspect_input.specs.Input.{is_space, is_separator, hex_text, digits_of, digit_bytes, hex_bytes};
ghost use Rattle.passkey_inspect_input.specs.Input.{url_symbol, symbol_text, base64_bytes, begins_json, form_of, bytes_as};

use dump::{is_dump, spelled};
use hex::FromHexError;
use passkey_bytes::encoding;
use passkey_memory::OutOfMemory;
use std::alloc::{AllocError, Global};

/// How an input spells its bytes.
#[derive(Clone, Copy, Debug, PartialEq, Eq)]
pub enum Form {
    /// In hexadecimal, of either case, also as `xxd` and `hexdump -C` dump it. White space, colons,
    /// quotes and commas are ignored, and a leading `0x`, or `h` as in `h'01'`.
    Hexadecimal,
    /// In base64 or base64url (RFC 4648, sections 4 and 5), padded or not. White space, double quotes
    /// and commas are ignored.
    Base64,
    /// The bytes of a JSON text.
    Json,
    /// The bytes as they are.
    Raw,
}

/// Returns whether a byte is a tab, a line feed, a carriage return or a space.
fn is_space(byte: u8) -> bool
    ensures { result ≡ is_space byte }
{
    matches!(byte, b'\t' | b'\n' | b'\r' | b' ')
}

/// Returns whether a byte is no part of a number: white space, a colon, a quote or a comma.
fn is_separator(byte: u8) -> bool
    ensures { result ≡ is_separator byte }
{
    is_space(byte) || matches!(byte, b':' | b'"' | b'\'' | b',')
}

fn without_separators(alloc: Global, input: &[u8]) -> Result<Vec<u8>, AllocError>
    ensures { IfOk result (λ text. text.items ≡ flat_map hex_text input.now) }
{
    let mut text = Vec::new(alloc);
    for byte in input {
        if !is_separator(*byte) {
            text.push(*byte)?;
        }
    }
    Ok(text)
}

fn digits_of(text: &[u8]) -> &[u8]
    ensures { result.now ≡ digits_of text.now }
{
    match text {
        [b'0', b'x' | b'X', digits @ ..] | [b'h', digits @ ..] => digits,
        _ => text,
    }
}

/// Returns the bytes that the text spells in hexadecimal, separators aside.
fn decoded(alloc: Global, text: &[u8]) -> Result<Option<Vec<u8>>, OutOfMemory>
    ensures { IfOk result (λ found. option_map (λ v. v.items) found ≡ digit_bytes text.now) }
{
    let digits = without_separators(alloc, text)?;
    match hex::decode(alloc, digits_of(digits.as_slice())) {
        Ok(bytes) => Ok(Some(bytes)),
        Err(FromHexError::OutOfMemory) => Err(OutOfMemory),
        Err(_) => Ok(None),
    }
}

/// Returns the bytes that the input spells in hexadecimal of either case, or `None` if it doesn't. Of
/// a dump by `xxd` or `hexdump -C` it is what stands between the offsets and the text. White space,
/// colons, quotes and commas are ignored, and `0x` or `h` at the beginning. `OutOfMemory` if an
/// allocation fails.
pub fn from_hexadecimal(alloc: Global, input: &[u8]) -> Result<Option<Vec<u8>>, OutOfMemory>
    ensures { IfOk result (λ found. option_map (λ v. v.items) found ≡ hex_bytes input.now) }
{
    if is_dump(input) {
        return decoded(alloc, spelled(alloc, input)?.as_slice());
    }
    decoded(alloc, input)
}

fn url_symbol(byte: u8) -> u8
    ensures { result ≡ url_symbol byte }
{
    match byte {
        b'+' => b'-',
        b'/' => b'_',
        _ => byte,
    }
}

fn symbols_of(alloc: Global, input: &[u8]) -> Result<String, AllocError>
    ensures { IfOk result (λ text. string_bytes text ≡ flat_map symbol_text input.now) }
{
    let mut text = String::new(alloc);
    for byte in input {
        if !is_space(*byte) && *byte != b'"' && *byte != b',' {
            text.push(char::from(url_symbol(*byte)))?;
        }
    }
    Ok(text)
}

/// Returns the bytes that the input spells in base64 or base64url (RFC 4648, sections 4 and 5), or
/// `None` if it doesn't. White space, double quotes and commas are ignored, and each `=` at the end;
/// both alphabets may be mixed. `OutOfMemory` if an allocation fails.
pub fn from_base64(alloc: Global, input: &[u8]) -> Result<Option<Vec<u8>>, OutOfMemory>
    ensures { IfOk result (λ found. option_map (λ v. v.items) found ≡ base64_bytes input.now) }
{
    let text = symbols_of(alloc, input)?;
    encoding::try_from_base64url(alloc, text.as_str())
}

/// Returns whether the first byte after white space begins an object of JSON.
fn begins_json(input: &[u8]) -> bool
    ensures { result ≡ begins_json input.now }
{
    let mut rest = input;
    while let Some((first, others)) = rest.split_first() {
        if !is_space(*first) {
            return *first == b'{';
        }
        rest = others;
    }
    false
}

/// Returns the bytes that the input spells in this form, or `None` if it spells none.
/// `OutOfMemory` if an allocation fails.
pub fn bytes_as(alloc: Global, form: Form, input: &[u8]) -> Result<Option<Vec<u8>>, OutOfMemory>
    ensures { IfOk result (λ found. option_map (λ v. v.items) found ≡ bytes_as form input.now) }
{
    match form {
        Form::Hexadecimal => from_hexadecimal(alloc, input),
        Form::Base64 => from_base64(alloc, input),
        Form::Json | Form::Raw => Ok(Some(Vec::from_slice(alloc, input)?)),
    }
}

/// Returns the form of the input: JSON if it begins as an object, hexadecimal if it begins as a dump,
/// and else the first of hexadecimal and base64 in which it spells bytes, or else the bytes as they
/// are. `OutOfMemory` if an allocation fails.
pub fn form_of(alloc: Global, input: &[u8]) -> Result<Form, OutOfMemory>
    ensures { IfOk result (λ form. form ≡ form_of input.now) }
{
    if begins_json(input) {
        return Ok(Form::Json);
    }
    if is_dump(input) {
        return Ok(Form::Hexadecimal);
    }
    if from_hexadecimal(alloc, input)?.is_some() {
        return Ok(Form::Hexadecimal);
    }
    if from_base64(alloc, input)?.is_some() {
        return Ok(Form::Base64);
    }
    Ok(Form::Raw)
}
