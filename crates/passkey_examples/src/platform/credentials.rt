//! Asking an authenticator for its credentials.
ghost use Rattle.std.specs.Prelude.{◌≡◌, ◌∷◌, [], IfOk, take};

use crate::platform::exchange::framed;
use crate::platform::{Failed, PinUvAuthProtocol};
use passkey_types::ctap2::Message;
use passkey_types::ctap2::credential_management::{Parameters, Request, SubCommand};
use passkey_types::ctap2::framing::Command;
use passkey_types::{Bytes, OutOfMemory};
use sha2::{Digest, Sha256};
use std::alloc::Global;

/// Returns the request that begins to enumerate the credentials of a relying party, authenticated
/// with a pinUvAuthToken that has the permission `CREDENTIAL_MANAGEMENT` (enumerateCredentialsBegin:
/// CTAP 2.1, section 6.8.4).
pub fn credentials_request<P: PinUvAuthProtocol>(
    alloc: Global,
    protocol: &P,
    token: &[u8],
    rp_id: &str,
) -> Result<Vec<u8>, Failed>
    ensures { IfOk result (λ request. take 1 request.items ≡ 0x0A ∷ []) }
{
    let mut request = enumeration(alloc, protocol.number(), rp_id)?;
    let code = code_of(alloc, protocol, token, &request)?;
    request.pin_uv_auth_param = Some(Bytes::from(code));
    let body = request.to_vec(alloc);
    drop(request);
    Ok(framed(alloc, Command::CredentialManagement, &body?)?)
}

/// Returns the request that is to be authenticated.
fn enumeration(alloc: Global, protocol: u8, rp_id: &str) -> Result<Request, OutOfMemory> {
    let hash = Bytes::from_slice(alloc, &Sha256::digest(rp_id.as_bytes()))?;
    Ok(Request {
        sub_command: SubCommand::EnumerateCredentialsBegin,
        sub_command_params: Some(Parameters {
            rp_id_hash: Some(hash),
            ..Parameters::default()
        }),
        pin_uv_auth_protocol: Some(protocol),
        ..Request::default()
    })
}

/// Returns the message authentication code of a request.
fn code_of<P: PinUvAuthProtocol>(
    alloc: Global,
    protocol: &P,
    token: &[u8],
    request: &Request,
) -> Result<Vec<u8>, Failed> {
    let message = request.authenticated_bytes(alloc, &request.to_vec(alloc)?)?;
    protocol.authenticate(alloc, token, &message)
}
