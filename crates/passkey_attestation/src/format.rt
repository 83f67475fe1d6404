//! Attestation statement format identifiers.
ghost use Rattle.std.specs.Prelude.{Some};
ghost use Rattle.passkey_attestation.specs.Formats.{format_name, format_own, formats};

use passkey_webauthn::EnumNames;
use std::fmt;

/// A format of attestation statements (WebAuthn Level 3, sections 8.1 to 8.9).
#[derive(Clone, Copy, Debug, PartialEq, Eq)]
pub enum AttestationFormat {
    /// `packed`.
    Packed,
    /// `tpm`.
    Tpm,
    /// `android-key`.
    AndroidKey,
    /// `android-safetynet`.
    AndroidSafetyNet,
    /// `fido-u2f`.
    FidoU2f,
    /// `none`.
    None,
    /// `apple`.
    Apple,
    /// `compound`: several statements of other formats.
    Compound,
}

impl EnumNames for AttestationFormat {
    ghost table = { formats };

    ghost name_is_own = { format_own };

    fn table() -> &'static [(&'static str, AttestationFormat)] {
        &[
            ("packed", AttestationFormat::Packed),
            ("tpm", AttestationFormat::Tpm),
            ("android-key", AttestationFormat::AndroidKey),
            ("android-safetynet", AttestationFormat::AndroidSafetyNet),
            ("fido-u2f", AttestationFormat::FidoU2f),
            ("none", AttestationFormat::None),
            ("apple", AttestationFormat::Apple),
            ("compound", AttestationFormat::Compound),
        ]
    }
}

impl fmt::Display for AttestationFormat {
    ghost output = { λ x. Some (format_name x) };

    /// Writes the format's identifier.
    fn fmt<W: fmt::Write>(&self, f: &mut fmt::Formatter<W>) -> fmt::Result {
        f.write_str(self.name())
    }
}
