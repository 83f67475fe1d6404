//! Subcommands of authenticatorConfig.
ghost use Rattle.std.specs.Prelude.{◌≡◌, ℕ, List, refl};
ghost use Rattle.passkey_commands.specs.config.SubCommand.{sub_command_byte, named_sub_commands};
ghost use Rattle.passkey_commands.specs.declared.config.sub_command.SubCommand.TheVariants.{Other};

use passkey_kinds::Code;

/// A subcommand of authenticatorConfig, with its number (CTAP 2.1, section 6.11).
#[derive(Clone, Copy, Debug, PartialEq, Eq)]
pub enum SubCommand {
    /// 0x01: enableEnterpriseAttestation.
    EnableEnterpriseAttestation,
    /// 0x02: toggleAlwaysUv.
    ToggleAlwaysUv,
    /// 0x03: setMinPINLength.
    SetMinPinLength,
    /// 0xFF: vendorPrototype.
    VendorPrototype,
    /// Another number. If it is one of those above, its encoding decodes to that value.
    Other(u8),
}

impl Code for SubCommand {
    ghost byte_of = { sub_command_byte };

    ghost named = { named_sub_commands };

    ghost other = { Other };

    ghost other_keeps = { λ n. refl };

    fn byte(&self) -> u8 {
        match self {
            SubCommand::EnableEnterpriseAttestation => 0x01,
            SubCommand::ToggleAlwaysUv => 0x02,
            SubCommand::SetMinPinLength => 0x03,
            SubCommand::VendorPrototype => 0xff,
            SubCommand::Other(byte) => *byte,
        }
    }

    fn named() -> &'static [SubCommand] {
        &[
            SubCommand::EnableEnterpriseAttestation,
            SubCommand::ToggleAlwaysUv,
            SubCommand::SetMinPinLength,
            SubCommand::VendorPrototype,
        ]
    }

    fn other(byte: u8) -> SubCommand {
        SubCommand::Other(byte)
    }
}
