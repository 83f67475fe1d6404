//! An authenticator that handles authenticatorMakeCredential: it decodes the request, checks
//! whether it can do what is asked, and encodes the response (CTAP 2.1, section 6.1.2).
ghost use Rattle.std.specs.Prelude.{◌≢◌, ◌<◌, length, IfErr, IfOk, IfSome};

use passkey_types::cbor::Value;
use passkey_types::cose::iana::Algorithm;
use passkey_types::ctap2::make_credential::{Request, Response};
use passkey_types::ctap2::{
    AttestedCredentialData, AuthenticatorData, Ctap2Error, Fault, Flags, WriteFault,
};
use passkey_types::{OutOfMemory, Text};
use std::alloc::Global;

/// Returns the status of a request that wasn't decoded. It is never the status of success.
fn status_of(fault: Fault) -> Ctap2Error
    ensures { result ≢ Ctap2Error.Ok }
{
    match fault {
        Fault::DecodeFailed | Fault::Repeated(_) => Ctap2Error::InvalidCbor,
        Fault::NotAMap | Fault::BadKey | Fault::Refused(_) => Ctap2Error::CborUnexpectedType,
        Fault::Missing(_) => Ctap2Error::MissingParameter,
        Fault::OutOfMemory => Ctap2Error::Other,
    }
}

/// Returns the status for the first thing asked that this authenticator can't do: it only makes
/// ES256 keys, and it can't verify its user. It is never the status of success.
fn refusal_of(request: &Request) -> Option<Ctap2Error>
    ensures { IfSome result (λ status. status ≢ Ctap2Error.Ok) }
{
    let mut offers_es256 = false;
    for parameters in request.pub_key_cred_params.iter() {
        offers_es256 |= parameters.alg == Algorithm::ES256;
    }
    if !offers_es256 {
        return Some(Ctap2Error::UnsupportedAlgorithm);
    }
    if request.options.uv {
        return Some(Ctap2Error::InvalidOption);
    }
    None
}

/// Returns the relying party id of a request that is granted, or else the request's status.
fn rp_id_of(alloc: Global, request: &[u8]) -> Result<Text, Ctap2Error>
    ensures { IfErr result (λ status. status ≢ Ctap2Error.Ok) }
{
    let request = match Request::from_slice(alloc, request) {
        Ok((request, _len)) => request,
        Err(fault) => return Err(status_of(fault)),
    };
    match refusal_of(&request) {
        Some(status) => Err(status),
        None => {
            let rp = request.rp;
            Ok(rp.id)
        }
    }
}

/// Returns the response with a new credential for the relying party, without attestation.
fn response(
    alloc: Global,
    rp_id: &str,
    credential: AttestedCredentialData,
) -> Result<Response, OutOfMemory> {
    let fmt = Text::from_str(alloc, "none")?;
    let data = AuthenticatorData::new(rp_id, Some(0));
    let data = data
        .set_flags(Flags::UP)
        .set_attested_credential_data(credential);
    Ok(Response {
        fmt,
        auth_data: data,
        att_stmt: Value::Map(Vec::new(alloc)),
        ep_att: None,
        large_blob_key: None,
        unsigned_extension_outputs: None,
    })
}

/// Returns the encoding of that response.
fn encoded(
    alloc: Global,
    rp_id: &str,
    credential: AttestedCredentialData,
) -> Result<Vec<u8>, WriteFault> {
    response(alloc, rp_id, credential)?.to_vec(alloc)
}

/// Returns the message that answers a request, with the new credential if the request is granted: a
/// status byte alone, or a zero status byte and then the response (CTAP 2.1, section 8.1).
pub fn answer(
    alloc: Global,
    request: &[u8],
    credential: AttestedCredentialData,
) -> Result<Vec<u8>, WriteFault>
    ensures { IfOk result (λ message. 0 < length message.items) }
{
    match rp_id_of(alloc, request) {
        Ok(rp_id) => granted(alloc, rp_id.as_str(), credential),
        Err(status) => status_alone(alloc, status),
    }
}

/// Returns a zero status byte and then the response.
fn granted(
    alloc: Global,
    rp_id: &str,
    credential: AttestedCredentialData,
) -> Result<Vec<u8>, WriteFault>
    ensures { IfOk result (λ message. 0 < length message.items) }
{
    let response = encoded(alloc, rp_id, credential)?;
    let mut message = status_alone(alloc, Ctap2Error::Ok)?;
    message.extend_from_slice(&response)?;
    Ok(message)
}

/// Returns a message of a status byte alone.
fn status_alone(alloc: Global, status: Ctap2Error) -> Result<Vec<u8>, WriteFault>
    ensures { IfOk result (λ message. 0 < length message.items) }
{
    let mut message = Vec::with_capacity(alloc, 1)?;
    message.push(status as u8)?;
    Ok(message)
}
