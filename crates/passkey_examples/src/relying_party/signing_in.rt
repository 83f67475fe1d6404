//! Signing in with a passkey (WebAuthn Level 3, section 7.2).
//!
//! `sign_in` checks that the credential is the one that the options allow, the client data (type,
//! challenge, origin, `crossOrigin`), the relying party id's hash, the flags UP, BE and BS, that BE
//! is as it was at the registration, and that the signature counter grew.
//!
//! The caller verifies `signature` over `signed`, by `public_key` of the record (`CoseKey::ec2` and
//! `CoseKey::rsa` return its parts), and only then stores the new counter; where it needs them, it also
//! checks user verification, `userHandle`, `topOrigin` and the outputs of extensions.
ghost use Rattle.std.specs.Prelude.{◌≡◌, ◌++◌, IfOk};
ghost use Rattle.sha2.specs.Sha256.{sha256};

use crate::relying_party::RP_ID;
use crate::relying_party::checks::{Rejected, check_client_data, unless, wrong_data};
use crate::relying_party::registration::{CredentialRecord, json_text};
use passkey_types::bitflags::Flags as _;
use passkey_types::ctap2::{AuthenticatorData, Flags};
use passkey_types::json::Value;
use passkey_types::webauthn::{
    AttestationConveyancePreference, AuthenticatedPublicKeyCredential,
    AuthenticatorAssertionResponse, ClientDataType, CredentialRequestOptions, JsonRecord,
    PublicKeyCredentialDescriptor, PublicKeyCredentialRequestOptions, PublicKeyCredentialType,
    UserVerificationRequirement,
};
use passkey_types::{Bytes, List, OutOfMemory, Text};
use sha2::{Digest, Sha256};
use std::alloc::Global;

/// A sign-in that is right but for its signature, which is left to verify.
#[derive(Drop)]
pub struct Assertion {
    /// What the signature is over: the authenticator data as they came, and the SHA-256 hash of the
    /// client data.
    pub signed: Vec<u8>,
    pub signature: Bytes,
    /// The signature counter, to be stored if the signature is right.
    pub counter: u32,
    pub is_user_verified: bool,
}

/// Returns the JSON text that the page turns into the argument of `navigator.credentials.get()`. It
/// allows this passkey alone.
pub fn request_options(
    alloc: Global,
    challenge: Bytes,
    record: &CredentialRecord,
) -> Result<String, OutOfMemory> {
    let rp_id = Text::from_str(alloc, RP_ID)?;
    let allowed = allowed(alloc, record)?;
    let public_key = PublicKeyCredentialRequestOptions {
        challenge,
        timeout: Some(300_000),
        rp_id: Some(rp_id),
        allow_credentials: Some(allowed),
        user_verification: UserVerificationRequirement::Preferred,
        hints: None,
        attestation: AttestationConveyancePreference::None,
        attestation_formats: None,
        extensions: None,
    };
    json_text(alloc, &CredentialRequestOptions { public_key })
}

fn allowed(
    alloc: Global,
    record: &CredentialRecord,
) -> Result<List<PublicKeyCredentialDescriptor>, OutOfMemory> {
    let descriptor = PublicKeyCredentialDescriptor {
        ty: PublicKeyCredentialType::PublicKey,
        id: record.credential_id.try_clone(alloc)?,
        transports: None,
    };
    Ok(List::from(vec![in alloc; descriptor]?))
}

/// Checks the browser's answer to options with this challenge that allow this passkey alone, up to
/// the signature.
pub fn sign_in(
    alloc: Global,
    challenge: &[u8],
    record: &CredentialRecord,
    answer: &str,
) -> Result<Assertion, Rejected> {
    let answered = decoded(alloc, answer)?;
    if answered.raw_id != record.credential_id {
        return Err(Rejected::Check("another credential"));
    }
    let response = answered.response;
    let Checked {
        signed,
        counter,
        is_user_verified,
    } = check(alloc, challenge, record, &response)?;
    Ok(Assertion {
        signed,
        signature: response.signature,
        counter,
        is_user_verified,
    })
}

fn decoded(alloc: Global, answer: &str) -> Result<AuthenticatedPublicKeyCredential, Rejected> {
    let json = Value::from_str(alloc, answer)?;
    Ok(AuthenticatedPublicKeyCredential::from_json(alloc, &json)?)
}

/// What is known of a sign-in beside its signature.
#[derive(Drop)]
struct Checked {
    signed: Vec<u8>,
    counter: u32,
    is_user_verified: bool,
}

/// Checks the client data and the authenticator data.
fn check(
    alloc: Global,
    challenge: &[u8],
    record: &CredentialRecord,
    response: &AuthenticatorAssertionResponse,
) -> Result<Checked, Rejected> {
    let client_data = response.client_data_json.as_slice();
    check_client_data(alloc, ClientDataType::Get, challenge, client_data)?;
    let bytes = response.authenticator_data.as_slice();
    let data = AuthenticatorData::from_slice_exact(alloc, bytes)?;
    unless(wrong_data(&data).or(wrong_since(record, &data)))?;
    let (flags, counter) = (data.flags, data.counter.unwrap_or(0));
    drop(data);
    Ok(Checked {
        signed: signed_bytes(alloc, bytes, client_data)?,
        counter,
        is_user_verified: flags.contains(Flags::UV),
    })
}

/// Returns what is wrong with authenticator data after those of the record, if anything is.
fn wrong_since(record: &CredentialRecord, data: &AuthenticatorData) -> Option<&'static str> {
    if data.flags.contains(Flags::BE) != record.is_backup_eligible {
        return Some("another backup eligibility");
    }
    // An authenticator without a counter sends 0 each time.
    let counter = data.counter.unwrap_or(0);
    if counter <= record.counter && (counter != 0 || record.counter != 0) {
        return Some("the signature counter didn't grow");
    }
    None
}

/// Returns the bytes that an assertion's signature is over: the authenticator data, and the hash of the
/// client data.
fn signed_bytes(alloc: Global, authenticator: &[u8], client: &[u8]) -> Result<Vec<u8>, OutOfMemory>
    ensures { IfOk result (λ signed. signed.items ≡ authenticator.now ++ sha256 client.now) }
{
    let mut signed = Vec::from_slice(alloc, authenticator)?;
    signed.extend_from_slice(&Sha256::digest(client))?;
    Ok(signed)
}
