//! Subcommands of authenticatorClientPIN.
ghost use Rattle.std.specs.Prelude.{◌≡◌, ℕ, List, refl};
ghost use Rattle.passkey_commands.specs.client_pin.SubCommand.{sub_command_byte, named_sub_commands};
ghost use Rattle.passkey_commands.specs.declared.client_pin.sub_command.SubCommand.TheVariants.{Other};

use passkey_kinds::Code;

/// A subcommand of authenticatorClientPIN, with its number (CTAP 2.1, section 6.5.5). The default asks for
/// a count alone.
#[derive(Clone, Copy, Debug, Default, PartialEq, Eq)]
pub enum SubCommand {
    /// 0x01: getPINRetries.
    #[default]
    GetPinRetries,
    /// 0x02: getKeyAgreement.
    GetKeyAgreement,
    /// 0x03: setPIN.
    SetPin,
    /// 0x04: changePIN.
    ChangePin,
    /// 0x05: getPinToken, superseded by 0x09.
    GetPinToken,
    /// 0x06: getPinUvAuthTokenUsingUvWithPermissions.
    GetPinUvAuthTokenUsingUvWithPermissions,
    /// 0x07: getUVRetries.
    GetUvRetries,
    /// 0x09: getPinUvAuthTokenUsingPinWithPermissions.
    GetPinUvAuthTokenUsingPinWithPermissions,
    /// Another number. If it is one of those above, its encoding decodes to that subcommand.
    Other(u8),
}

impl Code for SubCommand {
    ghost byte_of = { sub_command_byte };

    ghost named = { named_sub_commands };

    ghost other = { Other };

    ghost other_keeps = { λ n. refl };

    fn byte(&self) -> u8 {
        match self {
            SubCommand::GetPinRetries => 1,
            SubCommand::GetKeyAgreement => 2,
            SubCommand::SetPin => 3,
            SubCommand::ChangePin => 4,
            SubCommand::GetPinToken => 5,
            SubCommand::GetPinUvAuthTokenUsingUvWithPermissions => 6,
            SubCommand::GetUvRetries => 7,
            SubCommand::GetPinUvAuthTokenUsingPinWithPermissions => 9,
            SubCommand::Other(byte) => *byte,
        }
    }

    fn named() -> &'static [SubCommand] {
        &[
            SubCommand::GetPinRetries,
            SubCommand::GetKeyAgreement,
            SubCommand::SetPin,
            SubCommand::ChangePin,
            SubCommand::GetPinToken,
            SubCommand::GetPinUvAuthTokenUsingUvWithPermissions,
            SubCommand::GetUvRetries,
            SubCommand::GetPinUvAuthTokenUsingPinWithPermissions,
        ]
    }

    fn other(byte: u8) -> SubCommand {
        SubCommand::Other(byte)
    }
}
