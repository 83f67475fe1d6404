//! What both ceremonies check: client data and authenticator data.
ghost use Rattle.std.specs.Prelude.{◌≡◌, None, OnOk};

use crate::relying_party::{APP, ORIGIN, PackageName, RP_ID};
use passkey_types::bitflags::Flags as _;
use passkey_types::cose::CoseError;
use passkey_types::ctap2::{AuthenticatorData, Fault, Flags};
use passkey_types::json::Error;
use passkey_types::webauthn::{ClientDataFault, ClientDataType, CollectedClientData, JsonFault};
use passkey_types::{OutOfMemory, encoding};
use sha2::{Digest, Sha256};
use std::alloc::Global;
use thiserror::Error;

/// Why a registration or a sign-in is rejected.
#[derive(Debug, Drop, Error)]
pub enum Rejected {
    #[error("the answer is no JSON: {0}")]
    BadJson(#[from] Error),
    #[error("the answer: {0}")]
    Answer(#[from] JsonFault),
    #[error("the client data: {0}")]
    ClientData(#[from] ClientDataFault),
    #[error("the attestation object: {0}")]
    AttestationObject(#[from] Fault),
    #[error("the authenticator data: {0}")]
    AuthenticatorData(#[from] CoseError),
    #[error("{0}")]
    Check(&'static str),
    #[error(transparent)]
    Memory(#[from] OutOfMemory),
}

/// Returns an error if something is wrong.
pub(crate) fn unless(wrong: Option<&'static str>) -> Result<(), Rejected>
    ensures { OnOk result (wrong.entry ≡ None) }
{
    match wrong {
        Some(reason) => Err(Rejected::Check(reason)),
        None => Ok(()),
    }
}

/// Checks client data: its type, challenge and origin, that the page wasn't in a frame of another
/// origin, and the app that asked, if it is named.
pub(crate) fn check_client_data(
    alloc: Global,
    ty: ClientDataType,
    challenge: &[u8],
    json: &[u8],
) -> Result<(), Rejected> {
    let challenge = encoding::base64url(alloc, challenge)?;
    let data = CollectedClientData::<PackageName>::from_slice(alloc, json)?;
    unless(wrong_client_data(&data, ty, challenge.as_str()))
}

fn wrong_client_data(
    data: &CollectedClientData<PackageName>,
    ty: ClientDataType,
    challenge: &str,
) -> Option<&'static str> {
    if data.ty != ty {
        return Some("another ceremony");
    }
    if !data.challenge.eq_str(challenge) {
        return Some("another challenge");
    }
    if !data.origin.eq_str(ORIGIN) {
        return Some("another origin");
    }
    if data.cross_origin == Some(true) {
        return Some("in a frame of another origin");
    }
    match &data.extra_data.0 {
        Some(app) if !app.eq_str(APP) => Some("another app"),
        _ => None,
    }
}

/// Returns what is wrong with authenticator data, if anything is: its relying party id, that the
/// user wasn't present, or that the credential is backed up and may not be.
pub(crate) fn wrong_data(data: &AuthenticatorData) -> Option<&'static str> {
    if data.rp_id_hash() != Sha256::digest(RP_ID).as_slice() {
        return Some("another relying party");
    }
    if !data.flags.contains(Flags::UP) {
        return Some("the user wasn't present");
    }
    if data.flags.contains(Flags::BS) && !data.flags.contains(Flags::BE) {
        return Some("backed up without being eligible");
    }
    None
}
