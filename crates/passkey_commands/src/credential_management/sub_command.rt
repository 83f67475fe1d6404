//! Subcommands of authenticatorCredentialManagement.
ghost use Rattle.std.specs.Prelude.{◌≡◌, ℕ, List, refl};
ghost use Rattle.passkey_commands.specs.credential_management.SubCommand.{sub_command_byte, named_sub_commands};
ghost use Rattle.passkey_commands.specs.declared.credential_management.sub_command.SubCommand.TheVariants.{Other};

use passkey_kinds::Code;

/// A subcommand of authenticatorCredentialManagement, with its number (CTAP 2.1, section 6.8). The
/// default asks for counts alone.
#[derive(Clone, Copy, Debug, Default, PartialEq, Eq)]
pub enum SubCommand {
    /// 0x01: getCredsMetadata.
    #[default]
    GetCredsMetadata,
    /// 0x02: enumerateRPsBegin.
    EnumerateRpsBegin,
    /// 0x03: enumerateRPsGetNextRP.
    EnumerateRpsGetNextRp,
    /// 0x04: enumerateCredentialsBegin.
    EnumerateCredentialsBegin,
    /// 0x05: enumerateCredentialsGetNextCredential.
    EnumerateCredentialsGetNextCredential,
    /// 0x06: deleteCredential.
    DeleteCredential,
    /// 0x07: updateUserInformation.
    UpdateUserInformation,
    /// Another number. If it is one of those above, its encoding decodes to that value.
    Other(u8),
}

impl Code for SubCommand {
    ghost byte_of = { sub_command_byte };

    ghost named = { named_sub_commands };

    ghost other = { Other };

    ghost other_keeps = { λ n. refl };

    fn byte(&self) -> u8 {
        match self {
            SubCommand::GetCredsMetadata => 0x01,
            SubCommand::EnumerateRpsBegin => 0x02,
            SubCommand::EnumerateRpsGetNextRp => 0x03,
            SubCommand::EnumerateCredentialsBegin => 0x04,
            SubCommand::EnumerateCredentialsGetNextCredential => 0x05,
            SubCommand::DeleteCredential => 0x06,
            SubCommand::UpdateUserInformation => 0x07,
            SubCommand::Other(byte) => *byte,
        }
    }

    fn named() -> &'static [SubCommand] {
        &[
            SubCommand::GetCredsMetadata,
            SubCommand::EnumerateRpsBegin,
            SubCommand::EnumerateRpsGetNextRp,
            SubCommand::EnumerateCredentialsBegin,
            SubCommand::EnumerateCredentialsGetNextCredential,
            SubCommand::DeleteCredential,
            SubCommand::UpdateUserInformation,
        ]
    }

    fn other(byte: u8) -> SubCommand {
        SubCommand::Other(byte)
    }
}
