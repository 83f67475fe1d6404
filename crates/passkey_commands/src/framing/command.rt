//! Commands to an authenticator.
ghost use Rattle.std.specs.Prelude.{◌≡◌, ℕ, List, refl};
ghost use Rattle.passkey_commands.specs.framing.Command.{command_byte, named_commands};
ghost use Rattle.passkey_commands.specs.declared.framing.command.Command.TheVariants.{Other};

use passkey_core::Ctap2Command;
use passkey_kinds::Code;

/// A command to an authenticator, with its byte (CTAP 2.1, section 6).
#[derive(Clone, Copy, Debug, PartialEq, Eq)]
pub enum Command {
    /// 0x01: authenticatorMakeCredential.
    MakeCredential,
    /// 0x02: authenticatorGetAssertion.
    GetAssertion,
    /// 0x04: authenticatorGetInfo, which has no parameters.
    GetInfo,
    /// 0x06: authenticatorClientPIN.
    ClientPin,
    /// 0x07: authenticatorReset, which has neither parameters nor a response.
    Reset,
    /// 0x08: authenticatorGetNextAssertion, which has no parameters. Its response is that of
    /// authenticatorGetAssertion.
    GetNextAssertion,
    /// 0x09: authenticatorBioEnrollment.
    BioEnrollment,
    /// 0x0A: authenticatorCredentialManagement.
    CredentialManagement,
    /// 0x0B: authenticatorSelection, which has neither parameters nor a response.
    Selection,
    /// 0x0C: authenticatorLargeBlobs.
    LargeBlobs,
    /// 0x0D: authenticatorConfig, which has no response.
    Config,
    /// 0x40: the prototype of authenticatorBioEnrollment, with the same messages.
    PrototypeBioEnrollment,
    /// 0x41: the prototype of authenticatorCredentialManagement, with the same messages.
    PrototypeCredentialManagement,
    /// Another byte. If it is one of those above, the command that is decoded again is that one.
    Other(u8),
}

impl Code for Command {
    ghost byte_of = { command_byte };

    ghost named = { named_commands };

    ghost other = { Other };

    ghost other_keeps = { λ n. refl };

    fn byte(&self) -> u8 {
        match self {
            Command::MakeCredential => Ctap2Command::MakeCredential.into(),
            Command::GetAssertion => Ctap2Command::GetAssertion.into(),
            Command::GetInfo => Ctap2Command::GetInfo.into(),
            Command::ClientPin => 0x06,
            Command::Reset => 0x07,
            Command::GetNextAssertion => 0x08,
            Command::BioEnrollment => 0x09,
            Command::CredentialManagement => 0x0a,
            Command::Selection => 0x0b,
            Command::LargeBlobs => 0x0c,
            Command::Config => 0x0d,
            Command::PrototypeBioEnrollment => 0x40,
            Command::PrototypeCredentialManagement => 0x41,
            Command::Other(byte) => *byte,
        }
    }

    fn named() -> &'static [Command] {
        &[
            Command::MakeCredential,
            Command::GetAssertion,
            Command::GetInfo,
            Command::ClientPin,
            Command::Reset,
            Command::GetNextAssertion,
            Command::BioEnrollment,
            Command::CredentialManagement,
            Command::Selection,
            Command::LargeBlobs,
            Command::Config,
            Command::PrototypeBioEnrollment,
            Command::PrototypeCredentialManagement,
        ]
    }

    fn other(byte: u8) -> Command {
        Command::Other(byte)
    }
}
