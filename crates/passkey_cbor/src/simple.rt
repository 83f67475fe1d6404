//! Simple values.
ghost use Rattle.std.specs.Prelude.{◌≡◌};
ghost use Rattle.passkey_cbor.specs.Ranges.{IsSimple};
ghost use Rattle.passkey_cbor.specs.Made.{MadeWhere};

use crate::error::CborError;
use std::marker::Model;

/// A simple value other than false, true, null and undefined: 0 to 19 or 32 to 255 (RFC 8949,
/// section 3.3).
#[derive(Clone, Copy, Debug, PartialEq, Eq)]
pub struct Simple {
    value: u8,
}

impl Model for Simple {
    ghost use Rattle.std.specs.Prelude.{ℕ};
    ghost use Rattle.passkey_cbor.specs.Ranges.{IsSimple};

    ghost Value = { ℕ };

    ghost view = { λ s. s.value };

    ghost invariant = { λ s. IsSimple s.value };

    ghost inverse = { λ n. record { value = n } };
}

impl Simple {
    /// Returns the simple value. `OutOfRangeIntegerValue` if it is 20 to 31.
    pub fn new(value: u8) -> Result<Simple, CborError>
        ensures { MadeWhere (IsSimple value) value result }
    {
        if value < 20 || value >= 32 {
            Ok(Simple { value })
        } else {
            Err(CborError::OutOfRangeIntegerValue)
        }
    }

    /// Returns the simple value as a number.
    pub fn get(&self) -> u8
        ensures value { result ≡ self.now }
        ensures range { IsSimple self.now }
    {
        self.value
    }

    /// A simple value that is known to be in range.
    pub(crate) fn of(value: u8) -> Simple
        requires { IsSimple value }
        ensures { result ≡ value }
    {
        Simple { value }
    }
}
