//! Registrations and sign-ins, as the relying party and the authenticator of this repository take part
//! in them. What they reject is an output.
use crate::again_json::is_out_of_memory;
use crate::hexadecimal::{decode, encode};
use crate::making::key_of;
use crate::setting::first_word;
use passkey_examples::relying_party::{
    CredentialRecord, Rejected, creation_options, register, request_options, sign_in,
};
use passkey_rewrite::RunFault;
use passkey_types::cose::CoseError;
use passkey_types::ctap2::{Aaguid, AttestedCredentialData, Fault};
use passkey_types::encoding::try_from_base64url;
use passkey_types::webauthn::{ClientDataFault, JsonFault, PublicKeyCredentialUserEntity};
use passkey_types::{Bytes, Text};
use std::alloc::Global;

/// Returns the rejection as text, unless memory ran out.
fn rejection(alloc: Global, rejected: Rejected) -> Result<String, RunFault> {
    if has_no_memory(&rejected) {
        drop(rejected);
        return Err(RunFault::OutOfMemory);
    }
    let text = format!(in alloc; "{rejected}");
    drop(rejected);
    Ok(text?)
}

fn has_no_memory(rejected: &Rejected) -> bool {
    match rejected {
        Rejected::BadJson(error) => is_out_of_memory(error),
        Rejected::Answer(fault) => *fault == JsonFault::OutOfMemory,
        Rejected::ClientData(fault) => *fault == ClientDataFault::OutOfMemory,
        Rejected::AttestationObject(fault) => *fault == Fault::OutOfMemory,
        Rejected::AuthenticatorData(error) => *error == CoseError::OutOfMemory,
        Rejected::Check(_) => false,
        Rejected::Memory(_) => true,
    }
}

fn challenge_of(alloc: Global, text: &str) -> Result<Bytes, RunFault> {
    match try_from_base64url(alloc, text)? {
        Some(bytes) => Ok(Bytes::from(bytes)),
        None => Err(RunFault::BadHex),
    }
}

/// `CHALLENGE USER NAME DISPLAY`: the options of a registration, with both first words in base64url.
fn options(alloc: Global, input: &str) -> Result<String, RunFault> {
    let (challenge, words) = first_word(input);
    let (id, words) = first_word(words);
    let (name, display_name) = first_word(words);
    let challenge = challenge_of(alloc, challenge)?;
    let user = PublicKeyCredentialUserEntity {
        id: challenge_of(alloc, id)?,
        display_name: Text::from_str(alloc, display_name)?,
        name: Text::from_str(alloc, name)?,
    };
    Ok(creation_options(alloc, challenge, user)?)
}

/// What is done with a passkey once it is registered.
#[derive(Clone, Copy)]
enum Then<'a> {
    /// Its id is printed.
    Id,
    /// The options of a sign-in with this challenge, in base64url, are printed.
    Options(&'a str),
    /// It is used, with this signature counter: the challenge, in base64url, and the answer.
    SignIn(u32, &'a str, &'a str),
}

/// Returns what is signed.
fn signed(
    alloc: Global,
    record: &CredentialRecord,
    challenge: &str,
    answer: &str,
) -> Result<String, RunFault> {
    let challenge = challenge_of(alloc, challenge)?;
    match sign_in(alloc, challenge.as_slice(), record, answer) {
        Ok(assertion) => {
            let signed = assertion.signed;
            encode(alloc, &signed)
        }
        Err(rejected) => rejection(alloc, rejected),
    }
}

fn used(alloc: Global, record: &mut CredentialRecord, then: Then<'_>) -> Result<String, RunFault> {
    match then {
        Then::Id => Ok(record.credential_id.to_base64url(alloc)?),
        Then::Options(challenge) => {
            let challenge = challenge_of(alloc, challenge)?;
            Ok(request_options(alloc, challenge, record)?)
        }
        Then::SignIn(counter, challenge, answer) => {
            record.counter = counter;
            signed(alloc, record, challenge, answer)
        }
    }
}

/// Registers a passkey by a challenge in base64url and an answer, and returns what is printed of it.
fn registered(
    alloc: Global,
    challenge: &str,
    answer: &str,
    then: Then<'_>,
) -> Result<String, RunFault> {
    let challenge = challenge_of(alloc, challenge)?;
    match register(alloc, challenge.as_slice(), answer) {
        Ok(mut record) => {
            let text = used(alloc, &mut record, then);
            drop(record);
            text
        }
        Err(rejected) => rejection(alloc, rejected),
    }
}

/// `CHALLENGE ANSWER`: the id of the passkey that is registered.
fn registration(alloc: Global, input: &str) -> Result<String, RunFault> {
    let (challenge, answer) = first_word(input);
    registered(alloc, challenge, answer, Then::Id)
}

/// `CHALLENGE CHALLENGE ANSWER`: the options of a sign-in, with the passkey that the others register.
fn sign_in_options(alloc: Global, input: &str) -> Result<String, RunFault> {
    let (challenge, words) = first_word(input);
    let (first, answer) = first_word(words);
    registered(alloc, first, answer, Then::Options(challenge))
}

/// `COUNTER CHALLENGE ANSWER CHALLENGE ANSWER`: what is signed as the passkey is used that the first
/// challenge and answer register, with this signature counter.
fn signing_in(alloc: Global, input: &str) -> Result<String, RunFault> {
    let (counter, words) = first_word(input);
    let (first, words) = first_word(words);
    let (answer, words) = first_word(words);
    let (challenge, other) = first_word(words);
    let counter = counter.parse::<u32>().unwrap_or(0);
    registered(
        alloc,
        first,
        answer,
        Then::SignIn(counter, challenge, other),
    )
}

/// `KEY ID REQUEST`: the authenticator's answer, with a credential of this key and this id.
fn authenticator(alloc: Global, input: &str) -> Result<String, RunFault> {
    let (key, words) = first_word(input);
    let (id, request) = first_word(words);
    let id = decode(alloc, id)?;
    let request = decode(alloc, request)?;
    let key = key_of(alloc, key)?;
    let Ok(credential) = AttestedCredentialData::new(Aaguid::new_empty(), id, key) else {
        return Err(RunFault::BadHex);
    };
    answered(alloc, &request, credential)
}

fn answered(
    alloc: Global,
    request: &[u8],
    credential: AttestedCredentialData,
) -> Result<String, RunFault> {
    match passkey_examples::authenticator::answer(alloc, request, credential) {
        Ok(answer) => encode(alloc, &answer),
        Err(_) => Err(RunFault::OutOfMemory),
    }
}

/// Returns the output of a row of such a kind. Returns `None` if it isn't a row of such a kind.
pub fn ceremony_row(alloc: Global, name: &str, input: &str) -> Option<Result<String, RunFault>> {
    match name {
        "creation-options" => Some(options(alloc, input)),
        "register" => Some(registration(alloc, input)),
        "request-options" => Some(sign_in_options(alloc, input)),
        "sign-in" => Some(signing_in(alloc, input)),
        "authenticator" => Some(authenticator(alloc, input)),
        _ => None,
    }
}
