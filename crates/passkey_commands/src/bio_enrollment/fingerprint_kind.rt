//! Kinds of fingerprint sensors.
ghost use Rattle.std.specs.Prelude.{◌≡◌, ℕ, List, refl};
ghost use Rattle.passkey_commands.specs.bio_enrollment.FingerprintKind.{fingerprint_kind_byte, named_fingerprint_kinds};
ghost use Rattle.passkey_commands.specs.declared.bio_enrollment.fingerprint_kind.FingerprintKind.TheVariants.{Other};

use passkey_kinds::Code;

/// A kind of fingerprint sensor, with its number (CTAP 2.1, section 6.7).
#[derive(Clone, Copy, Debug, PartialEq, Eq)]
pub enum FingerprintKind {
    /// 0x01: touch.
    Touch,
    /// 0x02: swipe.
    Swipe,
    /// Another number. If it is one of those above, its encoding decodes to that value.
    Other(u8),
}

impl Code for FingerprintKind {
    ghost byte_of = { fingerprint_kind_byte };

    ghost named = { named_fingerprint_kinds };

    ghost other = { Other };

    ghost other_keeps = { λ n. refl };

    fn byte(&self) -> u8 {
        match self {
            FingerprintKind::Touch => 0x01,
            FingerprintKind::Swipe => 0x02,
            FingerprintKind::Other(byte) => *byte,
        }
    }

    fn named() -> &'static [FingerprintKind] {
        &[FingerprintKind::Touch, FingerprintKind::Swipe]
    }

    fn other(byte: u8) -> FingerprintKind {
        FingerprintKind::Other(byte)
    }
}
