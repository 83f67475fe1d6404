//! Statuses of fingerprint samples.
ghost use Rattle.std.specs.Prelude.{◌≡◌, ℕ, List, refl};
ghost use Rattle.passkey_commands.specs.bio_enrollment.SampleStatus.{sample_status_byte, named_sample_statuses};
ghost use Rattle.passkey_commands.specs.declared.bio_enrollment.sample_status.SampleStatus.TheVariants.{Other};

use passkey_kinds::Code;

/// The status of the last fingerprint sample, with its number (CTAP 2.1, section 6.7).
#[derive(Clone, Copy, Debug, PartialEq, Eq)]
pub enum SampleStatus {
    /// 0x00: a good sample.
    Good,
    /// 0x01: the finger was too high.
    TooHigh,
    /// 0x02: the finger was too low.
    TooLow,
    /// 0x03: the finger was too far left.
    TooLeft,
    /// 0x04: the finger was too far right.
    TooRight,
    /// 0x05: the finger moved too fast.
    TooFast,
    /// 0x06: the finger moved too slowly.
    TooSlow,
    /// 0x07: the quality was poor.
    PoorQuality,
    /// 0x08: the finger was too skewed.
    TooSkewed,
    /// 0x09: the sample was too short.
    TooShort,
    /// 0x0A: the sample couldn't be merged.
    MergeFailure,
    /// 0x0B: the fingerprint is enrolled already.
    Exists,
    /// 0x0D: there was no user activity.
    NoUserActivity,
    /// 0x0E: the finger wasn't lifted.
    NoUserPresenceTransition,
    /// Another number. If it is one of those above, its encoding decodes to that value.
    Other(u8),
}

impl Code for SampleStatus {
    ghost byte_of = { sample_status_byte };

    ghost named = { named_sample_statuses };

    ghost other = { Other };

    ghost other_keeps = { λ n. refl };

    fn byte(&self) -> u8 {
        match self {
            SampleStatus::Good => 0x00,
            SampleStatus::TooHigh => 0x01,
            SampleStatus::TooLow => 0x02,
            SampleStatus::TooLeft => 0x03,
            SampleStatus::TooRight => 0x04,
            SampleStatus::TooFast => 0x05,
            SampleStatus::TooSlow => 0x06,
            SampleStatus::PoorQuality => 0x07,
            SampleStatus::TooSkewed => 0x08,
            SampleStatus::TooShort => 0x09,
            SampleStatus::MergeFailure => 0x0a,
            SampleStatus::Exists => 0x0b,
            SampleStatus::NoUserActivity => 0x0d,
            SampleStatus::NoUserPresenceTransition => 0x0e,
            SampleStatus::Other(byte) => *byte,
        }
    }

    fn named() -> &'static [SampleStatus] {
        &[
            SampleStatus::Good,
            SampleStatus::TooHigh,
            SampleStatus::TooLow,
            SampleStatus::TooLeft,
            SampleStatus::TooRight,
            SampleStatus::TooFast,
            SampleStatus::TooSlow,
            SampleStatus::PoorQuality,
            SampleStatus::TooSkewed,
            SampleStatus::TooShort,
            SampleStatus::MergeFailure,
            SampleStatus::Exists,
            SampleStatus::NoUserActivity,
            SampleStatus::NoUserPresenceTransition,
        ]
    }

    fn other(byte: u8) -> SampleStatus {
        SampleStatus::Other(byte)
    }
}
