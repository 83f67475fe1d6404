//! What an attestation object says about the new credential (WebAuthn Level 3, section 6.5.4).
ghost use Rattle.std.specs.Prelude.{◌≡◌, IfOk, map, option_map};
ghost use Rattle.std.specs.Option.{option_and_then};
ghost use Rattle.passkey_cbor.specs.View.{item_of, pair_of};
ghost use Rattle.passkey_core.specs.DataViews.{attested_parts};
ghost use Rattle.passkey_cose.specs.KeyReading.{bytes_in};
ghost use Rattle.passkey_cose.specs.Registered.{named_of};
ghost use Rattle.passkey_repair.specs.json.AttestationObjects.{attested_algorithm, auth_data_among, auth_data_of, is_auth_data};
ghost use Rattle.passkey_repair.specs.json.AttestationObjects.{item_at_front, key_algorithm, number_of, registration_from};
ghost use Rattle.passkey_repair.specs.json.AttestationObjects.{registration_in, parts_of};
ghost use Rattle.serde_json.specs.View.{view};

use passkey_bytes::Bytes;
use passkey_cbor::{CborError, Value as Item};
use passkey_core::iana::{Algorithm, EnumI64};
use passkey_core::{AttestedCredentialData, AuthenticatorData};
use passkey_cose::{CoseError, Registered};
use passkey_json::{FromJson, JsonRefusal};
use passkey_memory::OutOfMemory;
use serde_json::Value;
use std::alloc::Global;

/// The authenticator data of a registration, and the algorithm of the key in them.
#[derive(Drop)]
pub(crate) struct Registration {
    /// The authenticator data.
    pub auth_data: Bytes,
    /// The number of the algorithm.
    pub algorithm: i64,
}

fn number_of(algorithm: &Registered<Algorithm>) -> Option<i64>
    ensures { result ≡ number_of (named_of algorithm.now) }
{
    match algorithm {
        Registered::Assigned(algorithm) => Some(algorithm.to_i64()),
        Registered::Other(number) => Some(*number),
        Registered::Text(_) => None,
    }
}

fn attested_algorithm(attested: &AttestedCredentialData) -> Option<i64>
    ensures { result ≡ attested_algorithm (attested_parts attested.now) }
{
    number_of(attested.key.alg()?)
}

/// Returns the algorithm of the key in the authenticator data that the bytes decode to.
fn key_algorithm(alloc: Global, encoded: &[u8]) -> Result<Option<i64>, OutOfMemory>
    ensures { IfOk result (λ z. z ≡ key_algorithm encoded.now) }
{
    passkey_core::laws::one_reading();
    passkey_core::laws::given_is_read();
    match AuthenticatorData::from_slice(alloc, encoded) {
        Ok(data) => match &data.attested_credential_data {
            Some(attested) => Ok(attested_algorithm(attested)),
            None => Ok(None),
        },
        Err(CoseError::OutOfMemory) => Err(OutOfMemory),
        Err(_) => Ok(None),
    }
}

fn is_auth_data(key: &Item) -> bool
    ensures { result ≡ is_auth_data (item_of key.now) }
{
    match key {
        Item::Text(name) => name.as_str() == "authData",
        _ => false,
    }
}

fn bytes_in(item: &Item) -> Option<&[u8]>
    ensures { option_map (λ b. b.now) result ≡ bytes_in (item_of item.now) }
{
    match item {
        Item::Bytes(bytes) => Some(bytes.as_slice()),
        _ => None,
    }
}

fn auth_data_among(members: &[(Item, Item)]) -> Option<&[u8]>
    ensures { option_map (λ b. b.now) result ≡ auth_data_among (map pair_of members.now) }
{
    for (key, item) in members {
        if is_auth_data(key) {
            return bytes_in(item);
        }
    }
    None
}

fn auth_data_of(object: &Item) -> Option<&[u8]>
    ensures { option_map (λ b. b.now) result ≡ auth_data_of (item_of object.now) }
{
    match object {
        Item::Map(members) => auth_data_among(members),
        _ => None,
    }
}

fn item_at_front(alloc: Global, object: &[u8]) -> Result<Option<Item>, OutOfMemory>
    ensures { IfOk result (λ item. option_map item_of item ≡ item_at_front object.now) }
{
    passkey_cbor::laws::leading_item_is_found();
    passkey_cbor::laws::found_is_leading_item();
    match Item::from_slice(alloc, object) {
        Ok((item, _len)) => Ok(Some(item)),
        Err(CborError::OutOfMemory) => Err(OutOfMemory),
        Err(_) => Ok(None),
    }
}

fn registration_from(alloc: Global, object: &[u8]) -> Result<Option<Registration>, OutOfMemory>
    ensures { IfOk result (λ r. option_map parts_of r ≡ registration_from object.now) }
{
    let Some(item) = item_at_front(alloc, object)? else {
        return Ok(None);
    };
    let Some(auth_data) = auth_data_of(&item) else {
        return Ok(None);
    };
    let Some(algorithm) = key_algorithm(alloc, auth_data)? else {
        return Ok(None);
    };
    Ok(Some(Registration {
        auth_data: Bytes::from_slice(alloc, auth_data)?,
        algorithm,
    }))
}

/// Returns what an attestation object in base64url, as a member, says about the new credential.
/// Returns `None` if it doesn't decode, or has no key with the number of an algorithm.
pub(crate) fn registration_in(
    alloc: Global,
    member: Option<&Value>,
) -> Result<Option<Registration>, OutOfMemory>
    ensures { IfOk result
        (λ r. option_map parts_of r ≡ registration_in (option_map (λ v. view v.now) member.entry)) }
{
    let Some(value) = member else {
        return Ok(None);
    };
    match Bytes::from_value(alloc, value) {
        Ok(object) => registration_from(alloc, object.as_slice()),
        Err(JsonRefusal::Refused) => Ok(None),
        Err(JsonRefusal::OutOfMemory) => Err(OutOfMemory),
    }
}
