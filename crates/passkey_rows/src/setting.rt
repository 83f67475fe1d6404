//! Calls that consume a value and give it back if memory runs out: they are made again with that
//! value.
use crate::again_bytes::data_again;
use crate::hexadecimal::{decode, encode};
use crate::tries::Tries;
use passkey_rewrite::RunFault;
use passkey_types::ctap2::{
    AttestedCredentialData, AttestedCredentialDataIterator, AuthenticatorData, GivenBack,
    get_assertion, make_credential,
};
use passkey_types::{Bytes, OutOfMemory};
use std::alloc::Global;

/// Returns the first word, and what follows the space after it.
pub fn first_word(text: &str) -> (&str, &str) {
    text.split_once(' ').unwrap_or((text, ""))
}

fn data_of(alloc: Global, text: &str) -> Result<AuthenticatorData, RunFault> {
    let bytes = decode(alloc, text)?;
    Ok(AuthenticatorData::from_slice(alloc, &bytes)?)
}

/// Returns the bytes, or `None` for an absent member if there are none.
fn some_bytes(alloc: Global, bytes: &[u8]) -> Result<Option<Bytes>, OutOfMemory> {
    if bytes.is_empty() {
        return Ok(None);
    }
    Ok(Some(Bytes::from_slice(alloc, bytes)?))
}

fn creation_outputs(
    alloc: Global,
    hmac_secret: Option<bool>,
    secrets: &[u8],
) -> Result<make_credential::SignedExtensionOutputs, OutOfMemory> {
    let hmac_secret_mc = some_bytes(alloc, secrets)?;
    Ok(make_credential::SignedExtensionOutputs {
        hmac_secret,
        hmac_secret_mc,
    })
}

fn with_creation_outputs(
    alloc: Global,
    data: AuthenticatorData,
    hmac_secret: Option<bool>,
    secrets: &[u8],
) -> Result<AuthenticatorData, GivenBack<AuthenticatorData>> {
    match creation_outputs(alloc, hmac_secret, secrets) {
        Ok(outputs) => data.set_make_credential_extensions(alloc, Some(outputs)),
        Err(OutOfMemory) => Err(GivenBack { value: data }),
    }
}

/// `DATA SECRET SECRETS`: the data with `hmac-secret` (`true`, `false` or `-`) and
/// `hmac-secret-mc`.
pub fn set_creation_outputs(
    alloc: Global,
    tries: &mut Tries,
    input: &str,
) -> Result<String, RunFault> {
    let (data, words) = first_word(input);
    let (secret, secrets) = first_word(words);
    let hmac_secret = match secret {
        "true" => Some(true),
        "false" => Some(false),
        _ => None,
    };
    let secrets = decode(alloc, secrets)?;
    let data = data_of(alloc, data)?;
    let data = match with_creation_outputs(alloc, data, hmac_secret, &secrets) {
        Err(back) => {
            tries.refuse();
            with_creation_outputs(alloc, back.value, hmac_secret, &secrets)
        }
        result => result,
    };
    encoded(alloc, tries, data)
}

/// Returns the encoding of the data; or out of memory, if they were given back.
fn encoded(
    alloc: Global,
    tries: &mut Tries,
    data: Result<AuthenticatorData, GivenBack<AuthenticatorData>>,
) -> Result<String, RunFault> {
    match data {
        Ok(data) => {
            let bytes = data_again(alloc, tries, &data);
            drop(data);
            encode(alloc, &bytes?)
        }
        Err(back) => {
            drop(back);
            Err(RunFault::OutOfMemory)
        }
    }
}

fn with_assertion_outputs(
    alloc: Global,
    data: AuthenticatorData,
    secrets: &[u8],
) -> Result<AuthenticatorData, GivenBack<AuthenticatorData>> {
    match some_bytes(alloc, secrets) {
        Ok(hmac_secret) => {
            let outputs = get_assertion::SignedExtensionOutputs { hmac_secret };
            data.set_assertion_extensions(alloc, Some(outputs))
        }
        Err(OutOfMemory) => Err(GivenBack { value: data }),
    }
}

/// `DATA SECRETS`: the data with the outputs of `hmac-secret`.
pub fn set_assertion_outputs(
    alloc: Global,
    tries: &mut Tries,
    input: &str,
) -> Result<String, RunFault> {
    let (data, secrets) = first_word(input);
    let secrets = decode(alloc, secrets)?;
    let data = data_of(alloc, data)?;
    let data = match with_assertion_outputs(alloc, data, &secrets) {
        Err(back) => {
            tries.refuse();
            with_assertion_outputs(alloc, back.value, &secrets)
        }
        result => result,
    };
    encoded(alloc, tries, data)
}

fn bytes_left(
    alloc: Global,
    tries: &mut Tries,
    attested: AttestedCredentialData,
) -> Result<AttestedCredentialDataIterator, OutOfMemory> {
    match attested.try_into_iter(alloc) {
        Ok(left) => Ok(left),
        Err(back) => {
            tries.refuse();
            match back.value.try_into_iter(alloc) {
                Ok(left) => Ok(left),
                Err(_) => Err(OutOfMemory),
            }
        }
    }
}

/// `DATA`: the bytes that the iterator over its attested credential data yields.
pub fn iterate(alloc: Global, tries: &mut Tries, input: &str) -> Result<String, RunFault> {
    let attested = data_of(alloc, input)?.attested_credential_data;
    match attested {
        Some(attested) => {
            let left = bytes_left(alloc, tries, attested)?;
            encode(alloc, Bytes::from_items(alloc, left)?.as_slice())
        }
        None => Ok(String::new(alloc)),
    }
}

fn response_of(alloc: Global, text: &str) -> Result<make_credential::Response, RunFault> {
    let bytes = decode(alloc, text)?;
    let (response, _len) = make_credential::Response::from_slice(alloc, &bytes)?;
    Ok(response)
}

/// Returns the attestation object, and tries again if memory ran out.
fn object_bytes(
    alloc: Global,
    tries: &mut Tries,
    response: &make_credential::Response,
) -> Result<Vec<u8>, OutOfMemory> {
    match response.as_webauthn_bytes(alloc) {
        Ok(bytes) => Ok(bytes),
        Err(OutOfMemory) => {
            tries.refuse();
            response.as_webauthn_bytes(alloc)
        }
    }
}

/// `RESPONSE`: the attestation object of an authenticatorMakeCredential response.
pub fn object(alloc: Global, tries: &mut Tries, input: &str) -> Result<String, RunFault> {
    let response = response_of(alloc, input)?;
    let bytes = object_bytes(alloc, tries, &response);
    drop(response);
    encode(alloc, &bytes?)
}
