//! Modalities of biometric enrollment.
ghost use Rattle.std.specs.Prelude.{◌≡◌, ℕ, List, refl};
ghost use Rattle.passkey_commands.specs.bio_enrollment.Modality.{modality_byte, named_modalities};
ghost use Rattle.passkey_commands.specs.declared.bio_enrollment.modality.Modality.TheVariants.{Other};

use passkey_kinds::Code;

/// A modality of biometric enrollment, with its number (CTAP 2.1, section 6.7).
#[derive(Clone, Copy, Debug, PartialEq, Eq)]
pub enum Modality {
    /// 0x01: fingerprint.
    Fingerprint,
    /// Another number. If it is one of those above, its encoding decodes to that value.
    Other(u8),
}

impl Code for Modality {
    ghost byte_of = { modality_byte };

    ghost named = { named_modalities };

    ghost other = { Other };

    ghost other_keeps = { λ n. refl };

    fn byte(&self) -> u8 {
        match self {
            Modality::Fingerprint => 0x01,
            Modality::Other(byte) => *byte,
        }
    }

    fn named() -> &'static [Modality] {
        &[Modality::Fingerprint]
    }

    fn other(byte: u8) -> Modality {
        Modality::Other(byte)
    }
}
