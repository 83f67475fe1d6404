//! Integers.
ghost use Rattle.std.specs.Prelude.{◌≡◌, pos, negsuc};
ghost use Rattle.passkey_cbor.specs.Ranges.{IsInteger};
ghost use Rattle.passkey_cbor.specs.Made.{MadeWhere};

use crate::error::CborError;
use std::marker::Model;

/// An integer from -2^64 to 2^64 - 1: the range of the major types 0 and 1 (RFC 8949, section 3.1).
#[derive(Clone, Copy, Debug, PartialEq, Eq)]
pub struct Integer {
    value: i128,
}

impl Model for Integer {
    ghost use Rattle.std.specs.Prelude.{ℤ};
    ghost use Rattle.passkey_cbor.specs.Ranges.{IsInteger};

    ghost Value = { ℤ };

    ghost view = { λ n. n.value };

    ghost invariant = { λ n. IsInteger n.value };

    ghost inverse = { λ z. record { value = z } };
}

impl Integer {
    /// Returns the integer. `OutOfRangeIntegerValue` if it is below -2^64 or above 2^64 - 1.
    pub fn new(value: i128) -> Result<Integer, CborError>
        ensures { MadeWhere (IsInteger value) value result }
    {
        if value < -(1 << 64) || value >= 1 << 64 {
            return Err(CborError::OutOfRangeIntegerValue);
        }
        Ok(Integer { value })
    }

    /// Returns the integer as a number.
    pub fn get(&self) -> i128
        ensures value { result ≡ self.now }
        ensures range { IsInteger self.now }
    {
        self.value
    }

    /// The integer n.
    pub(crate) fn signed(n: i64) -> Integer
        ensures { result ≡ n }
    {
        Integer {
            value: i128::from(n),
        }
    }

    /// The integer n.
    pub(crate) fn unsigned(n: u64) -> Integer
        ensures { result ≡ pos n }
    {
        Integer {
            value: i128::from(n),
        }
    }

    /// The integer -1 - n.
    pub(crate) fn negative(n: u64) -> Integer
        ensures { result ≡ negsuc n }
    {
        Integer {
            value: -1 - i128::from(n),
        }
    }
}
