//! Integers in decimal.
ghost use Rattle.std.specs.Prelude.{◌≡◌, ◌^◌, ◌≤◌, IfSome};
ghost use Rattle.passkey_cbor_text.specs.values.Integers.{integer_in, natural, signed, with_digit};

use passkey_cbor::Integer;

/// Returns the number with one more digit. `None` if it is no digit, or the number then exceeds 2^64.
fn with_digit(number: u128, digit: u8) -> Option<u128>
    requires { number ≤ 2 ^ 64 }
    ensures value { result ≡ with_digit number digit }
    ensures few { IfSome result (λ n. n ≤ 2 ^ 64) }
{
    if !digit.is_ascii_digit() {
        return None;
    }
    let longer = 10 * number + u128::from(digit - b'0');
    if longer > 1 << 64 {
        return None;
    }
    Some(longer)
}

/// Returns the number that these digits are. `None` if there is none, something else is among them, or
/// the number exceeds 2^64.
fn natural(digits: &[u8]) -> Option<u128>
    ensures value { result ≡ natural digits.now }
    ensures few { IfSome result (λ n. n ≤ 2 ^ 64) }
{
    if digits.is_empty() {
        return None;
    }
    let mut number = 0;
    for digit in digits {
        number = with_digit(number, *digit)?;
    }
    Some(number)
}

fn signed(text: &[u8]) -> Option<i128>
    ensures { result ≡ signed text.now }
{
    match text.split_first() {
        Some((b'-', digits)) => match natural(digits) {
            Some(number) => Some(-(number as i128)),
            None => None,
        },
        _ => match natural(text) {
            Some(number) => Some(number as i128),
            None => None,
        },
    }
}

/// Returns the integer in a text: digits after a sign or none. `None` if it is none, or is below -2^64
/// or above 2^64 - 1.
pub(crate) fn integer_in(text: &[u8]) -> Option<Integer>
    ensures { result ≡ integer_in text.now }
{
    match signed(text) {
        Some(number) => Integer::new(number).ok(),
        None => None,
    }
}
