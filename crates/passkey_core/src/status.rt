//! CTAP2's status codes (CTAP 2.1, section 8.2).
ghost use Rattle.std.specs.Prelude.{◌≡◌, ◌++◌, codes, option_map};
ghost use Rattle.passkey_core.specs.declared.status.StatusCode.TheVariants as status;
ghost use Rattle.passkey_core.specs.Statuses.{IsStatus, ctap2_error_of};

mod classes;
mod ctap2_error;

pub use classes::{ExtensionError, UnknownSpecError, VendorError};
pub use ctap2_error::Ctap2Error;
use passkey_cose::CoseKeyConversionError;
use std::error::Error;
use std::fmt;

/// The status code of a response, one byte. Each byte belongs to exactly one of the four classes
/// (CTAP 2.1, section 8.2).
#[derive(Debug, Drop, PartialEq, Eq)]
pub enum StatusCode {
    /// A status code that CTAP 2.1 names.
    Known(Ctap2Error),
    /// An unassigned byte below 0xE0.
    Other(UnknownSpecError),
    /// An extension's status code, 0xE0 to 0xEF.
    Extension(ExtensionError),
    /// A vendor's status code, 0xF0 to 0xFF.
    Vendor(VendorError),
}

impl From<u8> for StatusCode {
    ghost from_gives = { IsStatus };

    #[tactic(auto, using(crate::proofs::StatusAlone::known_is, crate::proofs::StatusAlone::other_is, crate::proofs::StatusAlone::extension_is, crate::proofs::StatusAlone::vendor_is, crate::proofs::StatusAlone::left_is_unassigned))]
    fn from(byte: u8) -> StatusCode {
        if let Ok(error) = Ctap2Error::try_from(byte) {
            return StatusCode::Known(error);
        }
        if let Ok(error) = ExtensionError::try_from(byte) {
            return StatusCode::Extension(error);
        }
        if let Ok(error) = VendorError::try_from(byte) {
            return StatusCode::Vendor(error);
        }
        StatusCode::Other(UnknownSpecError::of(byte))
    }
}

impl From<StatusCode> for u8 {
    ghost from_gives = { λ code byte. IsStatus byte code };

    #[tactic(auto, using(crate::proofs::StatusAlone::known_is, crate::proofs::StatusAlone::other_is, crate::proofs::StatusAlone::extension_is, crate::proofs::StatusAlone::vendor_is))]
    fn from(code: StatusCode) -> u8 {
        match code {
            StatusCode::Known(error) => error.into(),
            StatusCode::Other(error) => error.into(),
            StatusCode::Extension(error) => error.into(),
            StatusCode::Vendor(error) => error.into(),
        }
    }
}

impl From<Ctap2Error> for StatusCode {
    ghost from_gives = { λ error code. code ≡ status.Known error };

    fn from(error: Ctap2Error) -> StatusCode {
        StatusCode::Known(error)
    }
}

impl From<UnknownSpecError> for StatusCode {
    ghost from_gives = { λ error code. code ≡ status.Other error };

    fn from(error: UnknownSpecError) -> StatusCode {
        StatusCode::Other(error)
    }
}

impl From<ExtensionError> for StatusCode {
    ghost from_gives = { λ error code. code ≡ status.Extension error };

    fn from(error: ExtensionError) -> StatusCode {
        StatusCode::Extension(error)
    }
}

impl From<VendorError> for StatusCode {
    ghost from_gives = { λ error code. code ≡ status.Vendor error };

    fn from(error: VendorError) -> StatusCode {
        StatusCode::Vendor(error)
    }
}

impl From<CoseKeyConversionError> for StatusCode {
    ghost from_gives = { λ reason code. code ≡ status.Known (ctap2_error_of reason) };

    fn from(reason: CoseKeyConversionError) -> StatusCode {
        StatusCode::Known(Ctap2Error::from(reason))
    }
}

/// The number isn't a code of the requested type.
#[derive(Debug, Drop)]
pub struct CodeOutOfRange<I>(pub I);

impl<I: fmt::Display> fmt::Display for CodeOutOfRange<I> {
    ghost output = { λ fault. option_map (λ number. codes "Value " ++ number ++ codes " is out of range") (I.output fault.0) };

    fn fmt<W: fmt::Write>(&self, f: &mut fmt::Formatter<W>) -> fmt::Result {
        write!(f, "Value {} is out of range", self.0)
    }
}

impl<I: fmt::Debug + fmt::Display + Drop> Error for CodeOutOfRange<I> {}
