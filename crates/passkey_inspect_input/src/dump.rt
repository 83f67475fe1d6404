//! Dumps in hexadecimal, by `xxd` and by `hexdump -C`.
ghost use Rattle.std.specs.Prelude.{◌≡◌, IfOk};
ghost use Rattle.passkey_inspect_input.specs.Dump.{begins_with, is_dump, next_place, keeps, spelled_from};
ghost use Rattle.passkey_inspect_input.specs.declared.dump.Place.TheVariants.{Offset};

use std::alloc::{AllocError, Global};

/// Where in a line of a dump a byte is.
#[derive(Clone, Copy)]
enum Place {
    /// In the offset, with which the line begins.
    Offset,
    /// After an offset with a colon, among digits: two spaces end them.
    Digits,
    /// The same, after a space.
    Gap,
    /// After an offset without a colon, among digits: a bar ends them.
    Barred,
    /// In the text, with which the line ends.
    Text,
}

/// Returns whether the input begins with these bytes.
fn begins_with(prefix: &[u8], input: &[u8]) -> bool
    ensures { result ≡ begins_with prefix.now input.now }
{
    let mut wanted = prefix;
    let mut rest = input;
    while let Some((first, others)) = wanted.split_first() {
        match rest.split_first() {
            Some((byte, following)) if byte == first => rest = following,
            _ => return false,
        }
        wanted = others;
    }
    true
}

/// Returns whether the input begins as a dump: with the offset 0 in eight digits, and a colon or two
/// spaces.
pub(crate) fn is_dump(input: &[u8]) -> bool
    ensures { result ≡ is_dump input.now }
{
    begins_with(b"00000000:", input) || begins_with(b"00000000  ", input)
}

/// Returns the place of the byte after this one.
fn next_place(place: Place, byte: u8) -> Place
    ensures { result ≡ next_place place byte }
{
    if byte == b'\n' {
        return Place::Offset;
    }
    match place {
        Place::Offset if byte == b':' => Place::Digits,
        Place::Offset if byte == b' ' => Place::Barred,
        Place::Digits if byte == b' ' => Place::Gap,
        Place::Gap if byte == b' ' => Place::Text,
        Place::Gap => Place::Digits,
        Place::Barred if byte == b'|' => Place::Text,
        _ => place,
    }
}

/// Returns whether a byte is one of the digits, or one that no dump has. A star stands for lines that
/// are left out, so that no bytes are spelled then.
fn keeps(place: Place, byte: u8) -> bool
    ensures { result ≡ keeps place byte }
{
    match place {
        Place::Offset => byte == b'*',
        Place::Digits | Place::Gap => true,
        Place::Barred => byte != b'|',
        Place::Text => false,
    }
}

/// Returns the digits of a dump.
pub(crate) fn spelled(alloc: Global, input: &[u8]) -> Result<Vec<u8>, AllocError>
    ensures { IfOk result (λ digits. digits.items ≡ spelled_from Offset input.now) }
{
    let mut digits = Vec::new(alloc);
    let mut place = Place::Offset;
    let mut rest = input;
    while let Some((first, others)) = rest.split_first() {
        if keeps(place, *first) {
            digits.push(*first)?;
        }
        place = next_place(place, *first);
        rest = others;
    }
    Ok(digits)
}
