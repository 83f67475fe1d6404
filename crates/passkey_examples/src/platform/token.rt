//! Obtaining a pinUvAuthToken with the user's PIN.
ghost use Rattle.std.specs.Prelude.{◌≡◌, None, OnOk, take};
ghost use Rattle.sha2.specs.Sha256.{sha256};

use crate::platform::exchange::exchange;
use crate::platform::{Failed, PinUvAuthProtocol, Transport};
use passkey_types::cose::CoseKey;
use passkey_types::ctap2::client_pin::{Permissions, Request, Response, SubCommand};
use passkey_types::ctap2::framing::Command;
use passkey_types::ctap2::{Kept, Message, get_info};
use passkey_types::{Bytes, OutOfMemory, Text};
use sha2::{Digest, Sha256};
use std::alloc::Global;

/// Obtains a pinUvAuthToken with these permissions, as getPinUvAuthTokenUsingPinWithPermissions has
/// it (CTAP 2.1, section 6.5.5.7.2): asks what the authenticator supports, agrees on a shared secret
/// with it, and sends the hash of the PIN, encrypted.
pub fn token_by_pin<T: Transport, P: PinUvAuthProtocol>(
    alloc: Global,
    transport: &mut T,
    protocol: &P,
    pin: &str,
    permissions: Permissions,
    rp_id: Option<Text>,
) -> Result<Vec<u8>, Failed> {
    check_support(alloc, transport, protocol.number())?;
    let (key, secret) = shared_secret(alloc, transport, protocol)?;
    let hash = protocol.encrypt(alloc, &secret, &pin_hash(pin))?;
    let request = Request {
        key_agreement: key,
        pin_hash_enc: Some(Bytes::from(hash)),
        permissions: Some(permissions),
        rp_id,
        ..request_of(
            protocol.number(),
            SubCommand::GetPinUvAuthTokenUsingPinWithPermissions,
        )
    };
    let token = encrypted_token(alloc, transport, request)?;
    protocol.decrypt(alloc, &secret, token.as_slice())
}

/// Asks the authenticator what it supports, and fails if that lacks something.
fn check_support<T: Transport>(
    alloc: Global,
    transport: &mut T,
    protocol: u8,
) -> Result<(), Failed> {
    let info: get_info::Response = exchange(alloc, transport, Command::GetInfo, &[])?;
    unless(unsupported(&info, protocol))
}

/// Returns the platform's public key, and the secret that it shares with the authenticator's.
fn shared_secret<T: Transport, P: PinUvAuthProtocol>(
    alloc: Global,
    transport: &mut T,
    protocol: &P,
) -> Result<(Option<Kept>, Vec<u8>), Failed> {
    let peer = key_of_authenticator(alloc, transport, protocol.number())?;
    let (key, secret) = protocol.encapsulate(alloc, &peer)?;
    drop(peer);
    let item = key.to_value(alloc);
    drop(key);
    Ok((Kept::new(item?), secret))
}

/// Sends a request for a token, and returns the token, encrypted.
fn encrypted_token<T: Transport>(
    alloc: Global,
    transport: &mut T,
    request: Request,
) -> Result<Bytes, Failed> {
    let body = request.to_vec(alloc);
    drop(request);
    let response: Response = exchange(alloc, transport, Command::ClientPin, &body?)?;
    let token = response.pin_uv_auth_token;
    match token {
        Some(token) => Ok(token),
        None => Err(Failed::Check("no token")),
    }
}

/// Returns a request of this subcommand with no other members.
fn request_of(protocol: u8, sub_command: SubCommand) -> Request {
    Request {
        pin_uv_auth_protocol: Some(protocol),
        sub_command,
        ..Request::default()
    }
}

/// Returns what the authenticator lacks, if anything: a PIN, tokens with permissions, or this PIN/UV
/// auth protocol.
fn unsupported(info: &get_info::Response, protocol: u8) -> Option<&'static str> {
    let Some(options) = &info.options else {
        return Some("no options");
    };
    if options.client_pin != Some(true) {
        return Some("no PIN is set");
    }
    if options.pin_uv_auth_token != Some(true) {
        return Some("no tokens with permissions");
    }
    match &info.pin_protocols {
        Some(protocols) if protocols.iter().any(|it| *it == protocol) => None,
        _ => Some("another PIN/UV auth protocol"),
    }
}

fn unless(wrong: Option<&'static str>) -> Result<(), Failed>
    ensures { OnOk result (wrong.entry ≡ None) }
{
    match wrong {
        Some(reason) => Err(Failed::Check(reason)),
        None => Ok(()),
    }
}

/// Asks the authenticator for its public key, as getKeyAgreement has it (CTAP 2.1, section 6.5.5.4).
fn key_of_authenticator<T: Transport>(
    alloc: Global,
    transport: &mut T,
    protocol: u8,
) -> Result<CoseKey, Failed> {
    let body = request_of(protocol, SubCommand::GetKeyAgreement).to_vec(alloc)?;
    let response: Response = exchange(alloc, transport, Command::ClientPin, &body)?;
    match &response.key_agreement {
        Some(key) => Ok(CoseKey::from_value(alloc, key.value())?),
        None => Err(Failed::Check("no key")),
    }
}

/// Returns the first 16 bytes of the hash of the PIN.
fn pin_hash(pin: &str) -> [u8; 16]
    ensures { result ≡ take 16 (sha256 pin.now) }
{
    let mut front = [0; 16];
    front.copy_from_slice(&Sha256::digest(pin.as_bytes())[..16]);
    front
}
