//! Floating-point numbers, as width and bits.
ghost use Rattle.std.specs.Prelude.{◌≡◌, Err};
ghost use Rattle.passkey_cbor.specs.FloatParts.{IsFloat};
ghost use Rattle.passkey_cbor.specs.Made.{MadeWhere};

use crate::error::CborError;
use std::marker::Model;

/// A floating-point number as it is encoded: its width in bytes, and its bits as a big-endian
/// number (RFC 8949, section 3.3). There is no arithmetic, and floats of different widths are
/// unequal, even if they have the same value.
#[derive(Clone, Copy, Debug, PartialEq, Eq)]
pub struct Float {
    width: u8,
    bits: u64,
}

impl Model for Float {
    ghost use Rattle.passkey_cbor.specs.FloatParts.{FloatParts, IsFloat};

    ghost Value = { FloatParts };

    ghost view = { λ f. record { width = f.width; bits = f.bits } };

    ghost invariant = { λ f. IsFloat f.width f.bits };

    ghost inverse = { λ v. record { width = v.width; bits = v.bits } };
}

impl Float {
    /// Returns the float of this width in bytes with these bits. `OutOfRangeIntegerValue` if the
    /// width isn't 2, 4 or 8, or the bits don't fit in it.
    pub fn new(width: u8, bits: u64) -> Result<Float, CborError>
        ensures { MadeWhere (IsFloat width bits) (record { width = width; bits = bits }) result }
    {
        let fits = match width {
            2 => bits < 0x1_0000,
            4 => bits < 0x1_0000_0000,
            8 => true,
            _ => false,
        };
        if fits {
            Ok(Float { width, bits })
        } else {
            Err(CborError::OutOfRangeIntegerValue)
        }
    }

    /// Returns the width in bytes: 2, 4 or 8.
    pub fn width(&self) -> u8
        ensures value { result ≡ self.now.width }
        ensures range { IsFloat self.now.width self.now.bits }
    {
        self.width
    }

    /// Returns the bits, as a number below 2^(8 * width).
    pub fn bits(&self) -> u64
        ensures value { result ≡ self.now.bits }
        ensures range { IsFloat self.now.width self.now.bits }
    {
        self.bits
    }

    /// A float whose bits are known to fit its width.
    pub(crate) fn of(width: u8, bits: u64) -> Float
        requires { IsFloat width bits }
        ensures { result ≡ record { width = width; bits = bits } }
    {
        Float { width, bits }
    }
}
