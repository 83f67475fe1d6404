//! CTAP2's commands.
ghost use Rattle.std.specs.Prelude.{◌≡◌};
ghost use Rattle.passkey_core.specs.Command.{command_byte};

/// A command to an authenticator, with its byte (CTAP 2.1, section 6).
#[derive(Drop)]
pub enum Ctap2Command {
    /// authenticatorMakeCredential.
    MakeCredential = 1,
    /// authenticatorGetAssertion.
    GetAssertion = 2,
    /// authenticatorGetInfo.
    GetInfo = 4,
}

impl From<Ctap2Command> for u8 {
    ghost from_gives = { λ command byte. byte ≡ command_byte command };

    fn from(command: Ctap2Command) -> u8 {
        command as u8
    }
}
