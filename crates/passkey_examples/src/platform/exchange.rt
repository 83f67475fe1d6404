//! One exchange with an authenticator.
ghost use Rattle.std.specs.Prelude.{◌≡◌, ◌∷◌, IfOk};
ghost use Rattle.passkey_commands.specs.framing.Command.{command_byte};

use passkey_types::OutOfMemory;
use passkey_types::cose::CoseError;
use passkey_types::ctap2::framing::{Command, from_body, response_of};
use passkey_types::ctap2::{Code, Ctap2Error, Fault, Message, StatusCode, WriteFault};
use std::alloc::Global;
use thiserror::Error;

/// Why an exchange failed.
#[derive(Debug, Drop, Error)]
pub enum Failed {
    #[error("the authenticator returned a status: {0:?}")]
    Status(StatusCode),
    #[error("the response: {0}")]
    Response(#[from] Fault),
    #[error("the authenticator's key: {0}")]
    Key(#[from] CoseError),
    #[error("the request: {0}")]
    Request(#[from] WriteFault),
    #[error("{0}")]
    Check(&'static str),
    #[error("the transport failed")]
    Transport,
    #[error("the cryptography failed")]
    Cryptography,
    #[error(transparent)]
    Memory(#[from] OutOfMemory),
}

/// A way to an authenticator, as USB, NFC or Bluetooth (CTAP 2.1, section 11).
pub trait Transport {
    /// Sends a request and returns the response. An implementation fails with `Failed::Transport`.
    fn send(&mut self, alloc: Global, request: &[u8]) -> Result<Vec<u8>, Failed>;
}

/// Returns a request: its command byte and its body (CTAP 2.1, section 8).
pub(crate) fn framed(alloc: Global, command: Command, body: &[u8]) -> Result<Vec<u8>, OutOfMemory>
    ensures { IfOk result (λ request. request.items ≡ command_byte command ∷ body.now) }
{
    let mut request = Vec::from_slice(alloc, &[command.byte()])?;
    request.extend_from_slice(body)?;
    Ok(request)
}

/// Sends a request, and decodes the body of a response whose status is success.
pub(crate) fn exchange<M: Message, T: Transport>(
    alloc: Global,
    transport: &mut T,
    command: Command,
    body: &[u8],
) -> Result<M, Failed> {
    let request = framed(alloc, command, body)?;
    let response = transport.send(alloc, &request)?;
    let Some((status, body)) = response_of(&response) else {
        return Err(Failed::Check("an empty response"));
    };
    if status != StatusCode::Known(Ctap2Error::Ok) {
        return Err(Failed::Status(status));
    }
    let (message, _len) = from_body::<M>(alloc, body)?;
    Ok(message)
}
