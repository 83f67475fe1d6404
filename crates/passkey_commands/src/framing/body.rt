//! The bytes of a request and of a response: the first byte, and the body after it.
ghost use Rattle.std.specs.Prelude.{◌≡◌, IfSome, option_map};
ghost use Rattle.passkey_commands.specs.framing.Body.{first_byte, after_first, HasStatus, map_of_body};
ghost use Rattle.passkey_commands.specs.framing.Command.{command_of};
ghost use Rattle.passkey_kinds.specs.Words.{ReadsMessage, GrowsMessage, read_item};
ghost use Rattle.passkey_kinds.specs.declared.fault.Fault.TheVariants.{OutOfMemory as NoRoom};

use crate::framing::Command;
use passkey_core::StatusCode;
use passkey_kinds::{Code, Fault, Message};
use std::alloc::Global;

/// Returns the command of a request, and lends the request's body: the map of its parameters, or no
/// bytes if it has none (CTAP 2.1, section 8). Returns `None` exactly for no bytes. Allocates
/// nothing.
pub fn request_of(request: &[u8]) -> Option<(Command, &[u8])>
    ensures command { option_map (λ r. r.0) result ≡ option_map command_of (first_byte request.now) }
    ensures body { option_map (λ r. r.1.now) result ≡ after_first request.now }
{
    let (byte, body) = request.split_first()?;
    Some((Command::from_byte(*byte), body))
}

/// Returns the status code of a response, and lends the response's body: the map of its members, or
/// no bytes if it has none (CTAP 2.1, section 8). The body of an error isn't decoded. Returns `None`
/// exactly for no bytes. Allocates nothing.
pub fn response_of(response: &[u8]) -> Option<(StatusCode, &[u8])>
    ensures status { IfSome result (λ r. HasStatus response.now r.0) }
    ensures body { option_map (λ r. r.1.now) result ≡ after_first response.now }
{
    let (byte, body) = response.split_first()?;
    Some((StatusCode::from(*byte), body))
}

/// Decodes the message at the beginning of a body, and returns it with its length in bytes. A body
/// without bytes is decoded as an empty map, the byte a0, whose length is returned: a message
/// without required members may be sent so. Bytes after the message are ignored. The errors are
/// those of `Message::from_slice`.
pub fn from_body<M: Message>(alloc: Global, body: &[u8]) -> Result<(M, usize), Fault>
    ensures reads { ReadsMessage M.parts (read_item M.fields) (map_of_body body.now) result }
    ensures grows { result ≡ Err NoRoom → GrowsMessage M.fields (map_of_body body.now) }
{
    if body.is_empty() {
        return M::from_slice(alloc, &[0xa0]);
    }
    M::from_slice(alloc, body)
}
