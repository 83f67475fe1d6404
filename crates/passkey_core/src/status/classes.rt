//! Status codes that have no name.
ghost use Rattle.std.specs.Prelude.{◌≡◌, true, Some};
ghost use Rattle.passkey_core.specs.StatusBytes.{is_in, unassigned, extension, vendor};
ghost use Rattle.passkey_core.specs.Statuses.{Converts, code_in};

use super::CodeOutOfRange;
use std::marker::Model;

/// A status code that CTAP 2.1 leaves unassigned: 0x07 to 0x09, 0x0C to 0x10, 0x13, 0x16, 0x1A to
/// 0x20, 0x29, 0x2A, 0x38, 0x41 to 0x7E or 0x80 to 0xDF (section 8.2).
#[derive(Debug, Drop, PartialEq, Eq)]
pub struct UnknownSpecError(u8);

impl Model for UnknownSpecError {
    ghost use Rattle.std.specs.Prelude.{◌≡◌, ℕ, true};
    ghost use Rattle.passkey_core.specs.StatusBytes.{is_in, unassigned};

    ghost Value = { ℕ };

    ghost view = { λ code. code.0 };

    ghost invariant = { λ code. is_in unassigned code.0 ≡ true };

    ghost inverse = { λ byte. record { 0 = byte } };
}

impl UnknownSpecError {
    /// The status code of a byte that is known to be unassigned.
    pub(super) fn of(byte: u8) -> UnknownSpecError
        requires { is_in unassigned byte ≡ true }
        ensures { result ≡ byte }
    {
        UnknownSpecError(byte)
    }
}

impl TryFrom<u8> for UnknownSpecError {
    type Error = CodeOutOfRange<u8>;

    ghost try_from_gives = { Converts (code_in unassigned) };

    /// The status code of this byte. `CodeOutOfRange` with the byte if it isn't in this class.
    fn try_from(byte: u8) -> Result<UnknownSpecError, CodeOutOfRange<u8>> {
        match byte {
            0x07..=0x09
            | 0x0C..=0x10
            | 0x13
            | 0x16
            | 0x1A..=0x20
            | 0x29
            | 0x2A
            | 0x38
            | 0x41..=0x7E
            | 0x80..=0xDF => Ok(UnknownSpecError(byte)),
            _ => Err(CodeOutOfRange(byte)),
        }
    }
}

impl From<UnknownSpecError> for u8 {
    ghost from_gives = { λ code byte. (byte ≡ code) × (code_in unassigned byte ≡ Some code) };

    fn from(code: UnknownSpecError) -> u8 {
        code.0
    }
}

/// A status code that an extension defines: 0xE0 to 0xEF (CTAP 2.1, section 8.2).
#[derive(Debug, Drop, PartialEq, Eq)]
pub struct ExtensionError(u8);

impl Model for ExtensionError {
    ghost use Rattle.std.specs.Prelude.{◌≡◌, ℕ, true};
    ghost use Rattle.passkey_core.specs.StatusBytes.{is_in, extension};

    ghost Value = { ℕ };

    ghost view = { λ code. code.0 };

    ghost invariant = { λ code. is_in extension code.0 ≡ true };

    ghost inverse = { λ byte. record { 0 = byte } };
}

impl TryFrom<u8> for ExtensionError {
    type Error = CodeOutOfRange<u8>;

    ghost try_from_gives = { Converts (code_in extension) };

    /// The status code of this byte. `CodeOutOfRange` with the byte if it isn't in this class.
    fn try_from(byte: u8) -> Result<ExtensionError, CodeOutOfRange<u8>> {
        match byte {
            0xE0..=0xEF => Ok(ExtensionError(byte)),
            _ => Err(CodeOutOfRange(byte)),
        }
    }
}

impl From<ExtensionError> for u8 {
    ghost from_gives = { λ code byte. (byte ≡ code) × (code_in extension byte ≡ Some code) };

    fn from(code: ExtensionError) -> u8 {
        code.0
    }
}

/// A status code that a vendor defines: 0xF0 to 0xFF (CTAP 2.1, section 8.2).
#[derive(Debug, Drop, PartialEq, Eq)]
pub struct VendorError(u8);

impl Model for VendorError {
    ghost use Rattle.std.specs.Prelude.{◌≡◌, ℕ, true};
    ghost use Rattle.passkey_core.specs.StatusBytes.{is_in, vendor};

    ghost Value = { ℕ };

    ghost view = { λ code. code.0 };

    ghost invariant = { λ code. is_in vendor code.0 ≡ true };

    ghost inverse = { λ byte. record { 0 = byte } };
}

impl TryFrom<u8> for VendorError {
    type Error = CodeOutOfRange<u8>;

    ghost try_from_gives = { Converts (code_in vendor) };

    /// The status code of this byte. `CodeOutOfRange` with the byte if it isn't in this class.
    fn try_from(byte: u8) -> Result<VendorError, CodeOutOfRange<u8>> {
        match byte {
            0xF0..=0xFF => Ok(VendorError(byte)),
            _ => Err(CodeOutOfRange(byte)),
        }
    }
}

impl From<VendorError> for u8 {
    ghost from_gives = { λ code byte. (byte ≡ code) × (code_in vendor byte ≡ Some code) };

    fn from(code: VendorError) -> u8 {
        code.0
    }
}
