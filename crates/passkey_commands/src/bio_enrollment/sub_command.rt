//! Subcommands of authenticatorBioEnrollment.
ghost use Rattle.std.specs.Prelude.{◌≡◌, ℕ, List, refl};
ghost use Rattle.passkey_commands.specs.bio_enrollment.SubCommand.{sub_command_byte, named_sub_commands};
ghost use Rattle.passkey_commands.specs.declared.bio_enrollment.sub_command.SubCommand.TheVariants.{Other};

use passkey_kinds::Code;

/// A subcommand of authenticatorBioEnrollment for the modality fingerprint, with its number (CTAP
/// 2.1, section 6.7).
#[derive(Clone, Copy, Debug, PartialEq, Eq)]
pub enum SubCommand {
    /// 0x01: enrollBegin.
    EnrollBegin,
    /// 0x02: enrollCaptureNextSample.
    EnrollCaptureNextSample,
    /// 0x03: cancelCurrentEnrollment.
    CancelCurrentEnrollment,
    /// 0x04: enumerateEnrollments.
    EnumerateEnrollments,
    /// 0x05: setFriendlyName.
    SetFriendlyName,
    /// 0x06: removeEnrollment.
    RemoveEnrollment,
    /// 0x07: getFingerprintSensorInfo.
    GetFingerprintSensorInfo,
    /// Another number. If it is one of those above, its encoding decodes to that value.
    Other(u8),
}

impl Code for SubCommand {
    ghost byte_of = { sub_command_byte };

    ghost named = { named_sub_commands };

    ghost other = { Other };

    ghost other_keeps = { λ n. refl };

    fn byte(&self) -> u8 {
        match self {
            SubCommand::EnrollBegin => 0x01,
            SubCommand::EnrollCaptureNextSample => 0x02,
            SubCommand::CancelCurrentEnrollment => 0x03,
            SubCommand::EnumerateEnrollments => 0x04,
            SubCommand::SetFriendlyName => 0x05,
            SubCommand::RemoveEnrollment => 0x06,
            SubCommand::GetFingerprintSensorInfo => 0x07,
            SubCommand::Other(byte) => *byte,
        }
    }

    fn named() -> &'static [SubCommand] {
        &[
            SubCommand::EnrollBegin,
            SubCommand::EnrollCaptureNextSample,
            SubCommand::CancelCurrentEnrollment,
            SubCommand::EnumerateEnrollments,
            SubCommand::SetFriendlyName,
            SubCommand::RemoveEnrollment,
            SubCommand::GetFingerprintSensorInfo,
        ]
    }

    fn other(byte: u8) -> SubCommand {
        SubCommand::Other(byte)
    }
}
