//! Registering a passkey (WebAuthn Level 3, section 7.1).
//!
//! `register` checks the client data (type, challenge, origin, `crossOrigin`), the relying party id's
//! hash, the flags UP, BE and BS, that `alg` is one of those offered and the key is one of it, that
//! `rawId` is the attested credential id, and its length. The options ask for no attestation, so no
//! signature is checked.
//!
//! The caller checks that no user has this credential id yet, and stores the record; where it needs
//! them, it also checks user verification, `topOrigin`, the outputs of extensions, and the
//! attestation statement.
ghost use Rattle.std.specs.Prelude.{◌≤◌, length, IfNone, IfOk};

use crate::relying_party::RP_ID;
use crate::relying_party::checks::{Rejected, check_client_data, unless, wrong_data};
use passkey_types::bitflags::Flags as _;
use passkey_types::cose::iana::Algorithm;
use passkey_types::cose::{CoseKey, Registered};
use passkey_types::ctap2::make_credential::Response;
use passkey_types::ctap2::{AttestedCredentialData, AuthenticatorData, Flags};
use passkey_types::json::Value;
use passkey_types::webauthn::{
    AttestationConveyancePreference, AuthenticatorAttestationResponse, BytesForm, ClientDataType,
    CreatedPublicKeyCredential, CredentialCreationOptions, JsonRecord,
    PublicKeyCredentialCreationOptions, PublicKeyCredentialParameters, PublicKeyCredentialRpEntity,
    PublicKeyCredentialUserEntity, ToJson,
};
use passkey_types::{Bytes, OutOfMemory, Text};
use std::alloc::Global;

/// What the relying party stores of a passkey, beside its user (a credential record: WebAuthn Level
/// 3, section 4).
#[derive(Drop)]
pub struct CredentialRecord {
    pub credential_id: Bytes,
    pub public_key: CoseKey,
    pub counter: u32,
    pub is_user_verified: bool,
    pub is_backup_eligible: bool,
}

/// Returns the JSON text that the page turns into the argument of `navigator.credentials.create()`.
/// It offers the algorithms ES256 and RS256.
pub fn creation_options(
    alloc: Global,
    challenge: Bytes,
    user: PublicKeyCredentialUserEntity,
) -> Result<String, OutOfMemory> {
    let rp = relying_party(alloc)?;
    let algorithms = PublicKeyCredentialParameters::default_algorithms(alloc)?;
    let public_key = PublicKeyCredentialCreationOptions {
        rp,
        user,
        challenge,
        pub_key_cred_params: algorithms,
        timeout: Some(300_000),
        exclude_credentials: None,
        authenticator_selection: None,
        hints: None,
        attestation: AttestationConveyancePreference::None,
        attestation_formats: None,
        extensions: None,
    };
    json_text(alloc, &CredentialCreationOptions { public_key })
}

fn relying_party(alloc: Global) -> Result<PublicKeyCredentialRpEntity, OutOfMemory> {
    let name = Text::from_str(alloc, "Example")?;
    Ok(PublicKeyCredentialRpEntity {
        id: Some(Text::from_str(alloc, RP_ID)?),
        name,
    })
}

/// Returns the record as a JSON text.
pub(crate) fn json_text<R: ToJson>(alloc: Global, record: &R) -> Result<String, OutOfMemory> {
    let json = record.to_json(alloc, BytesForm::Base64Url)?;
    Ok(json.to_string(alloc)?)
}

/// Checks the browser's answer to options with this challenge, and returns the new passkey. Its
/// credential id has at most 1023 bytes.
pub fn register(alloc: Global, challenge: &[u8], answer: &str) -> Result<CredentialRecord, Rejected>
    ensures { IfOk result (λ new. length new.credential_id ≤ 1023) }
{
    let answered = decoded(alloc, answer)?;
    let data = checked_data(alloc, challenge, &answered.response)?;
    record(alloc, data, answered.raw_id.as_slice())
}

fn decoded(alloc: Global, answer: &str) -> Result<CreatedPublicKeyCredential, Rejected> {
    let json = Value::from_str(alloc, answer)?;
    Ok(CreatedPublicKeyCredential::from_json(alloc, &json)?)
}

/// Checks the client data, and returns the authenticator data.
fn checked_data(
    alloc: Global,
    challenge: &[u8],
    response: &AuthenticatorAttestationResponse,
) -> Result<AuthenticatorData, Rejected> {
    let client_data = response.client_data_json.as_slice();
    check_client_data(alloc, ClientDataType::Create, challenge, client_data)?;
    attested_data(alloc, response.attestation_object.as_slice())
}

/// Returns the authenticator data of an attestation object, which is a CTAP2 response with names
/// instead of numbers. Bytes after the data are rejected.
fn attested_data(alloc: Global, object: &[u8]) -> Result<AuthenticatorData, Rejected> {
    drop(Response::from_slice(alloc, object)?);
    let Some(token) = Response::auth_data_bytes(object) else {
        return Err(Rejected::Check("no authenticator data"));
    };
    // WebAuthn wants the canonical form, which has no chunks.
    let Some(bytes) = token.lent() else {
        return Err(Rejected::Check("authenticator data in chunks"));
    };
    Ok(AuthenticatorData::from_slice_exact(alloc, bytes)?)
}

/// Returns what is stored of the passkey with this authenticator data and this `rawId`.
fn record(
    alloc: Global,
    data: AuthenticatorData,
    raw_id: &[u8],
) -> Result<CredentialRecord, Rejected>
    ensures { IfOk result (λ new. length new.credential_id ≤ 1023) }
{
    unless(wrong_data(&data))?;
    let (flags, counter) = (data.flags, data.counter.unwrap_or(0));
    // Matching the field itself would use `data` after a part of it was moved.
    let attested = data.attested_credential_data;
    match attested {
        Some(attested) => new_record(alloc, attested, flags, counter, raw_id),
        None => Err(Rejected::Check("no credential")),
    }
}

fn new_record(
    alloc: Global,
    attested: AttestedCredentialData,
    flags: Flags,
    counter: u32,
    raw_id: &[u8],
) -> Result<CredentialRecord, Rejected>
    ensures { IfOk result (λ new. length new.credential_id ≤ 1023) }
{
    unless(wrong_credential(&attested, raw_id))?;
    let credential_id = Bytes::from_slice(alloc, attested.credential_id())?;
    Ok(CredentialRecord {
        credential_id,
        public_key: attested.key,
        counter,
        is_user_verified: flags.contains(Flags::UV),
        is_backup_eligible: flags.contains(Flags::BE),
    })
}

/// Returns what is wrong with a new credential, if anything is.
fn wrong_credential(attested: &AttestedCredentialData, raw_id: &[u8]) -> Option<&'static str>
    ensures { IfNone result (length attested.now.credential_id.items ≤ 1023) }
{
    if attested.credential_id() != raw_id {
        return Some("another credential id");
    }
    if attested.credential_id().len() > 1023 {
        return Some("a credential id of more than 1023 bytes");
    }
    if !is_offered(&attested.key) {
        return Some("a key that wasn't offered");
    }
    None
}

/// Returns whether the key's algorithm is one that the options offer, and its type fits: for ES256 a
/// point of P-256 with coordinates of 32 bytes, for RS256 an RSA key.
fn is_offered(key: &CoseKey) -> bool {
    match key.alg() {
        Some(Registered::Assigned(Algorithm::ES256)) => match key.ec2() {
            Some((curve, x, y)) => curve == 1 && x.len() == 32 && y.len() == 32,
            None => false,
        },
        Some(Registered::Assigned(Algorithm::RS256)) => key.rsa().is_some(),
        _ => false,
    }
}
