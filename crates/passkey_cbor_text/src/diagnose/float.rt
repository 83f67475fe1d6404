//! Floating-point numbers.
ghost use Rattle.std.specs.Prelude.{◌≡◌, ◌+◌, ◌*◌, ◌<◌, ◌≤◌, ◌^◌, ◌++◌, OnOk, decimal, string_bytes};
ghost use Rattle.passkey_cbor_text.specs.diagnose.FloatText.{binary_by, binary_of, mark_of, digits_after, doubled, hexadecimal_text};
ghost use Rattle.passkey_cbor_text.specs.diagnose.FloatText.{quotient_text, halved_text, doubled_text, scaled_text, sign_text};
ghost use Rattle.passkey_cbor_text.specs.diagnose.FloatText.{binary_text, float_text};

use passkey_cbor::Float;
use std::alloc::AllocError;

/// The fields of a floating-point number's bits (IEEE 754, section 3.4). A finite value is a whole
/// number times 2^(max(1, exponent) - scale).
#[derive(Clone, Copy)]
pub(crate) struct Binary {
    negative: bool,
    exponent: u64,
    /// The exponent of infinities and of what is no number.
    greatest: u64,
    fraction: u64,
    /// The first number that doesn't fit in the fraction.
    one: u64,
    scale: u64,
}

/// Returns the fields of these bits, by the sign's bit, the first number that doesn't fit in the
/// fraction, and the first one that doesn't fit in the exponent.
fn binary_by(bits: u64, sign: u64, one: u64, range: u64, scale: u64) -> Binary
    requires signed { 0 < sign }
    requires some { 0 < one }
    requires small { one < 2 ^ 53 }
    requires ranged { 0 < range }
    ensures value { result ≡ binary_by bits sign one range scale }
    ensures fits { result.one + result.fraction < 2 ^ 64 }
{
    Binary {
        negative: bits / sign == 1,
        exponent: bits / one % range,
        greatest: range - 1,
        fraction: bits % one,
        one,
        scale,
    }
}

/// Appends this many digits after the point of rest / whole.
#[tactic(auto, using(crate::proofs::Texts::digit_below))]
fn push_digits_after(out: &mut String, count: u64, rest: u64, whole: u64) -> Result<(), AllocError>
    requires below { rest < whole }
    requires fits { 10 * whole < 2 ^ 64 }
    ensures { OnOk result (string_bytes out.new ≡ string_bytes out.old ++ digits_after count rest whole) }
{
    let mut rest = rest;
    for _place in 0..count {
        let tenfold = rest * 10;
        let digit = tenfold / whole;
        out.push(char::from(b'0' + digit as u8))?;
        rest = tenfold % whole;
    }
    Ok(())
}

fn push_hexadecimal(out: &mut String, n: u64, sign: &str, exponent: u64) -> Result<(), AllocError>
    ensures { OnOk result (string_bytes out.new
        ≡ string_bytes out.old ++ hexadecimal_text n sign.now exponent) }
{
    write!(out, "0x{n:x}")?;
    out.push_str(sign)?;
    write!(out, "{exponent}")
}

fn push_quotient(out: &mut String, n: u64, k: u64) -> Result<(), AllocError>
    ensures { OnOk result (string_bytes out.new ≡ string_bytes out.old ++ quotient_text n k) }
{
    if k == 0 {
        write!(out, "{n}.0")
    } else if k <= 60 {
        let whole = 2u64.pow(k as u32);
        let front = n / whole;
        write!(out, "{front}.")?;
        push_digits_after(out, k, n % whole, whole)
    } else {
        push_hexadecimal(out, n, "p-", k)
    }
}

#[tactic(auto, using(crate::proofs::Texts::halved_step, crate::proofs::Texts::halved_odd))]
fn push_halved(out: &mut String, n: u64, k: u64) -> Result<(), AllocError>
    ensures { OnOk result (string_bytes out.new ≡ string_bytes out.old ++ halved_text n k) }
{
    let mut n = n;
    let mut k = k;
    while k > 0 && n % 2 == 0 {
        n /= 2;
        k -= 1;
    }
    push_quotient(out, n, k)
}

/// Returns n * 2^k, if it is below 2^64.
fn doubled(n: u64, k: u64) -> Option<u64>
    ensures { result ≡ doubled n k }
{
    if k >= 64 {
        return None;
    }
    n.checked_mul(2u64.pow(k as u32))
}

fn push_doubled(out: &mut String, n: u64, k: u64) -> Result<(), AllocError>
    ensures { OnOk result (string_bytes out.new ≡ string_bytes out.old ++ doubled_text n k) }
{
    match doubled(n, k) {
        Some(product) => write!(out, "{product}.0"),
        None => push_hexadecimal(out, n, "p", k),
    }
}

fn push_scaled(out: &mut String, n: u64, power: u64, scale: u64) -> Result<(), AllocError>
    ensures { OnOk result (string_bytes out.new ≡ string_bytes out.old ++ scaled_text n power scale) }
{
    if power < scale {
        push_halved(out, n, scale - power)
    } else {
        push_doubled(out, n, power - scale)
    }
}

fn push_sign(out: &mut String, b: Binary) -> Result<(), AllocError>
    ensures { OnOk result (string_bytes out.new ≡ string_bytes out.old ++ sign_text b) }
{
    out.push_str(if b.negative { "-" } else { "" })
}

#[tactic(auto, unfolding(crate::specs::diagnose::FloatText::binary_text))]
fn push_binary(out: &mut String, b: Binary) -> Result<(), AllocError>
    requires { b.one + b.fraction < 2 ^ 64 }
    ensures { OnOk result (string_bytes out.new ≡ string_bytes out.old ++ binary_text b) }
{
    if b.exponent == b.greatest && b.fraction != 0 {
        return out.push_str("NaN");
    }
    push_sign(out, b)?;
    if b.exponent == b.greatest {
        out.push_str("Infinity")
    } else if b.exponent == 0 {
        push_scaled(out, b.fraction, 1, b.scale)
    } else {
        push_scaled(out, b.one + b.fraction, b.exponent, b.scale)
    }
}

#[tactic(auto, unfolding(crate::specs::diagnose::FloatText::binary_of))]
fn binary_of(f: Float) -> Binary
    ensures value { result ≡ binary_of f }
    ensures fits { result.one + result.fraction < 2 ^ 64 }
{
    match f.width() {
        2 => binary_by(f.bits(), 0x8000, 0x400, 0x20, 25),
        4 => binary_by(f.bits(), 0x8000_0000, 0x80_0000, 0x100, 150),
        _ => binary_by(
            f.bits(),
            0x8000_0000_0000_0000,
            0x10_0000_0000_0000,
            0x800,
            1075,
        ),
    }
}

/// Returns what tells the width in bytes.
#[tactic(auto, unfolding(crate::specs::diagnose::FloatText::mark_of))]
fn mark_of(width: u8) -> &'static str
    ensures { result.now ≡ mark_of width }
{
    match width {
        2 => "_1",
        4 => "_2",
        _ => "_3",
    }
}

/// Appends the float's value and its encoding's width.
pub(crate) fn push_float(out: &mut String, f: Float) -> Result<(), AllocError>
    ensures { OnOk result (string_bytes out.new ≡ string_bytes out.old ++ float_text f) }
{
    push_binary(out, binary_of(f))?;
    out.push_str(mark_of(f.width()))
}
