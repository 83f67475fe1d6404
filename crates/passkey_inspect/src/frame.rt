//! The first byte of a request or of a response.
ghost use Rattle.std.specs.Prelude.{◌≡◌};
ghost use Rattle.passkey_inspect.specs.Frame.{body_in, framed_kind, is_body, kind_in, request_kind};

use crate::kind::InspectKind;
use crate::status_name::status_name;
use passkey_catalogue::CtapKind;
use passkey_commands::framing::{Command, request_of};
use passkey_memory::OutOfMemory;
use passkey_rewrite::BytesKind;
use std::alloc::Global;

/// What stands before a message (CTAP 2.1, section 8).
#[derive(Clone, Copy, Debug, PartialEq, Eq)]
pub enum Frame {
    /// Nothing.
    None,
    /// The status code of a response, CTAP2_OK.
    Success,
    /// The status code of a response, with its name. Nothing is after it.
    Failure(u8, &'static str),
    /// The command of a request.
    Command(Command),
}

/// Returns whether the bytes are none, or begin with a map (RFC 8949, section 3.1).
fn is_body(bytes: &[u8]) -> bool
    ensures { result ≡ is_body bytes.now }
{
    match bytes.first() {
        None => true,
        Some(first) => *first / 32 == 5,
    }
}

/// Returns what stands before a message, and lends the bytes after it. It is a status code if the
/// first byte is 0, or a command if it is one that the standard names; and no bytes, or a map, are
/// after it. A byte alone that isn't a command is a status code, if that has a name: it may be a
/// data item, too, and is lent as one.
pub fn frame_of(bytes: &[u8]) -> (Frame, &[u8])
    ensures body { result.1.now ≡ body_in bytes.now }
    ensures kind { framed_kind result.0 ≡ kind_in bytes.now }
{
    if let [0, body @ ..] = bytes {
        if is_body(body) {
            return (Frame::Success, body);
        }
    }
    match request_of(bytes) {
        Some((Command::Other(byte), [])) => match status_name(byte) {
            Some(name) => (Frame::Failure(byte, name), bytes),
            None => (Frame::None, bytes),
        },
        Some((Command::Other(_), _)) | None => (Frame::None, bytes),
        Some((command, body)) if is_body(body) => (Frame::Command(command), body),
        Some(_) => (Frame::None, bytes),
    }
}

/// Returns the kind of the command's parameters.
fn request_kind(command: Command) -> Option<InspectKind>
    ensures { result ≡ request_kind command }
{
    match command {
        Command::MakeCredential => Some(InspectKind::Bytes(BytesKind::MakeRequest)),
        Command::GetAssertion => Some(InspectKind::Bytes(BytesKind::GetRequest)),
        Command::ClientPin => Some(InspectKind::Ctap(CtapKind::PinRequest)),
        Command::BioEnrollment | Command::PrototypeBioEnrollment => {
            Some(InspectKind::Ctap(CtapKind::BioRequest))
        }
        Command::CredentialManagement | Command::PrototypeCredentialManagement => {
            Some(InspectKind::Ctap(CtapKind::CredentialRequest))
        }
        Command::LargeBlobs => Some(InspectKind::Ctap(CtapKind::BlobsRequest)),
        Command::Config => Some(InspectKind::Ctap(CtapKind::ConfigRequest)),
        _ => None,
    }
}

/// Returns the kind of which what stands before a message tells.
pub fn framed_kind(frame: Frame) -> Option<InspectKind>
    ensures { result ≡ framed_kind frame }
{
    match frame {
        Frame::Command(command) => request_kind(command),
        _ => None,
    }
}

/// Returns a line that tells what stands before a message, or no text.
pub fn frame_text(alloc: Global, frame: Frame) -> Result<String, OutOfMemory> {
    match frame {
        Frame::None => Ok(String::new(alloc)),
        Frame::Success => Ok(String::from_str(alloc, "status byte: 00 (CTAP2_OK)\n")?),
        Frame::Failure(byte, name) => Ok(format!(in alloc; "status byte: {byte:02x} ({name})\n")?),
        Frame::Command(command) => Ok(format!(in alloc; "command byte: {command:?}\n")?),
    }
}
