//! Data items, authenticator data and messages: decoded, and encoded with copies of their parts.
use crate::tries::Tries;
use passkey_rewrite::RunFault;
use passkey_types::OutOfMemory;
use passkey_types::cbor::Value;
use passkey_types::cose::{CoseError, CoseKey};
use passkey_types::ctap2::extensions::{
    AuthenticatorPrfInputs, AuthenticatorPrfValues, HmacGetSecretInput,
};
use passkey_types::ctap2::{
    AuthenticatorData, Message, WriteFault, get_assertion, get_info, make_credential,
};
use std::alloc::Global;

/// A message, perhaps with parts that can be copied.
pub trait Copied {
    /// Replaces each part that can be copied by a copy.
    fn replace_parts(&mut self, _alloc: Global, _tries: &mut Tries) -> Result<(), OutOfMemory> {
        Ok(())
    }
}

impl Copied for HmacGetSecretInput {
    fn replace_parts(&mut self, alloc: Global, tries: &mut Tries) -> Result<(), OutOfMemory> {
        tries.replace_equal(alloc, self)
    }
}

fn replace_make_inputs(
    alloc: Global,
    tries: &mut Tries,
    inputs: &mut make_credential::ExtensionInputs,
) -> Result<(), OutOfMemory> {
    tries.replace_some(alloc, &mut inputs.hmac_secret_mc)?;
    tries.replace_some(alloc, &mut inputs.prf)
}

fn replace_get_inputs(
    alloc: Global,
    tries: &mut Tries,
    inputs: &mut get_assertion::ExtensionInputs,
) -> Result<(), OutOfMemory> {
    tries.replace_some(alloc, &mut inputs.hmac_secret)?;
    replace_prf(alloc, tries, &mut inputs.prf)
}

fn replace_prf(
    alloc: Global,
    tries: &mut Tries,
    inputs: &mut Option<AuthenticatorPrfInputs>,
) -> Result<(), OutOfMemory> {
    match inputs {
        Some(inputs) => tries.replace_equal(alloc, inputs),
        None => Ok(()),
    }
}

impl Copied for make_credential::Request {
    fn replace_parts(&mut self, alloc: Global, tries: &mut Tries) -> Result<(), OutOfMemory> {
        tries.replace_equal(alloc, &mut self.rp)?;
        tries.replace_equal(alloc, &mut self.user)?;
        if let Some(list) = &mut self.exclude_list {
            tries.replace_each(alloc, list.as_mut_vec())?;
        }
        match &mut self.extensions {
            Some(inputs) => replace_make_inputs(alloc, tries, inputs),
            None => Ok(()),
        }
    }
}

/// Replaces the attested credential data by a copy, and the key in the copy.
fn replace_attested(
    alloc: Global,
    tries: &mut Tries,
    data: &mut AuthenticatorData,
) -> Result<(), OutOfMemory> {
    match &mut data.attested_credential_data {
        Some(attested) => {
            tries.replace_equal(alloc, attested)?;
            tries.replace_equal(alloc, &mut attested.key)?;
            replace_key_by_item(alloc, tries, &mut attested.key)
        }
        None => Ok(()),
    }
}

/// Replaces the key by the one that its data item decodes to. The item is made again if memory ran
/// out.
fn replace_key_by_item(
    alloc: Global,
    tries: &mut Tries,
    key: &mut CoseKey,
) -> Result<(), OutOfMemory> {
    let item = match key.to_value(alloc) {
        Ok(item) => item,
        Err(OutOfMemory) => {
            tries.refuse();
            key.to_value(alloc)?
        }
    };
    let other = CoseKey::from_value(alloc, &item);
    drop(item);
    match other {
        Ok(other) => *key = other,
        Err(CoseError::OutOfMemory) => return Err(OutOfMemory),
        Err(_) => tries.compare(false),
    }
    Ok(())
}

/// Compares the first result with that of the outputs in WebAuthn's type, which are made again if
/// memory ran out.
fn compare_values(
    alloc: Global,
    tries: &mut Tries,
    values: &AuthenticatorPrfValues,
) -> Result<(), OutOfMemory> {
    let others = match values.to_webauthn(alloc) {
        Ok(others) => others,
        Err(OutOfMemory) => {
            tries.refuse();
            values.to_webauthn(alloc)?
        }
    };
    tries.compare(others.first.eq_slice(&values.first));
    Ok(())
}

fn compare_make_outputs(
    alloc: Global,
    tries: &mut Tries,
    outputs: &make_credential::UnsignedExtensionOutputs,
) -> Result<(), OutOfMemory> {
    match &outputs.prf {
        Some(outputs) => {
            let others = outputs.to_webauthn(alloc)?;
            tries.compare(others.results.is_some() == outputs.results.is_some());
            match &outputs.results {
                Some(values) => compare_values(alloc, tries, values),
                None => Ok(()),
            }
        }
        None => Ok(()),
    }
}

fn compare_get_outputs(
    alloc: Global,
    tries: &mut Tries,
    outputs: &get_assertion::UnsignedExtensionOutputs,
) -> Result<(), OutOfMemory> {
    match &outputs.prf {
        Some(outputs) => {
            let others = outputs.to_webauthn(alloc)?;
            tries.compare(others.results.is_some());
            compare_values(alloc, tries, &outputs.results)
        }
        None => Ok(()),
    }
}

impl Copied for make_credential::Response {
    fn replace_parts(&mut self, alloc: Global, tries: &mut Tries) -> Result<(), OutOfMemory> {
        if let Some(outputs) = &self.unsigned_extension_outputs {
            compare_make_outputs(alloc, tries, outputs)?;
        }
        tries.replace(alloc, &mut self.fmt)?;
        tries.replace(alloc, &mut self.att_stmt)?;
        tries.replace_some(alloc, &mut self.large_blob_key)?;
        replace_attested(alloc, tries, &mut self.auth_data)
    }
}

impl Copied for get_assertion::Request {
    fn replace_parts(&mut self, alloc: Global, tries: &mut Tries) -> Result<(), OutOfMemory> {
        tries.replace(alloc, &mut self.rp_id)?;
        if let Some(list) = &mut self.allow_list {
            tries.replace_each(alloc, list.as_mut_vec())?;
        }
        match &mut self.extensions {
            Some(inputs) => replace_get_inputs(alloc, tries, inputs),
            None => Ok(()),
        }
    }
}

impl Copied for get_assertion::Response {
    fn replace_parts(&mut self, alloc: Global, tries: &mut Tries) -> Result<(), OutOfMemory> {
        if let Some(outputs) = &self.unsigned_extension_outputs {
            compare_get_outputs(alloc, tries, outputs)?;
        }
        tries.replace_some(alloc, &mut self.credential)?;
        tries.replace(alloc, &mut self.signature)?;
        match &mut self.user {
            Some(user) => tries.replace_equal(alloc, user),
            None => Ok(()),
        }
    }
}

impl Copied for get_info::Response {
    fn replace_parts(&mut self, alloc: Global, tries: &mut Tries) -> Result<(), OutOfMemory> {
        tries.replace_some(alloc, &mut self.attestation_formats)?;
        tries.replace_some(alloc, &mut self.certifications)?;
        tries.replace_some(alloc, &mut self.enc_identifier)
    }
}

/// Returns the encoding. In a decoded message no number is too large; one would be shown as no
/// bytes.
fn encoding<M: Message>(alloc: Global, message: &M) -> Result<Vec<u8>, OutOfMemory> {
    match message.to_vec(alloc) {
        Ok(bytes) => Ok(bytes),
        Err(WriteFault::OutOfMemory) => Err(OutOfMemory),
        Err(WriteFault::NumberTooLarge) => Ok(Vec::new(alloc)),
    }
}

/// Returns the encoding of a decoded message, and tries again if memory ran out.
pub fn encoded<M: Message>(
    alloc: Global,
    tries: &mut Tries,
    message: &M,
) -> Result<Vec<u8>, OutOfMemory> {
    match encoding(alloc, message) {
        Ok(bytes) => Ok(bytes),
        Err(OutOfMemory) => {
            tries.refuse();
            encoding(alloc, message)
        }
    }
}

/// Decodes the message, replaces parts by copies, and encodes it.
pub fn message_again<M: Message + Copied>(
    alloc: Global,
    tries: &mut Tries,
    bytes: &[u8],
) -> Result<Vec<u8>, RunFault> {
    let (mut message, _len) = M::from_slice(alloc, bytes)?;
    message.replace_parts(alloc, tries)?;
    Ok(encoded(alloc, tries, &message)?)
}

/// Returns the encoding of a data item, and tries again if memory ran out.
pub fn encoded_item(
    alloc: Global,
    tries: &mut Tries,
    item: &Value,
) -> Result<Vec<u8>, OutOfMemory> {
    match item.to_vec(alloc) {
        Ok(bytes) => Ok(bytes),
        Err(OutOfMemory) => {
            tries.refuse();
            item.to_vec(alloc)
        }
    }
}

/// Replaces the data item by a copy, and encodes it.
fn copied_item(alloc: Global, tries: &mut Tries, item: &mut Value) -> Result<Vec<u8>, OutOfMemory> {
    tries.replace_equal(alloc, item)?;
    encoded_item(alloc, tries, item)
}

/// Decodes a data item, replaces it by a copy, and encodes it.
pub fn item_again(alloc: Global, tries: &mut Tries, bytes: &[u8]) -> Result<Vec<u8>, RunFault> {
    let (mut item, _len) = Value::from_slice(alloc, bytes)?;
    let encoding = copied_item(alloc, tries, &mut item);
    drop(item);
    Ok(encoding?)
}

/// Returns the encoding of authenticator data, and tries again if memory ran out.
pub fn data_again(
    alloc: Global,
    tries: &mut Tries,
    data: &AuthenticatorData,
) -> Result<Vec<u8>, OutOfMemory> {
    match data.to_vec(alloc) {
        Ok(bytes) => Ok(bytes),
        Err(OutOfMemory) => {
            tries.refuse();
            data.to_vec(alloc)
        }
    }
}

/// Replaces parts of the authenticator data by copies, and encodes the result.
fn copied_data(
    alloc: Global,
    tries: &mut Tries,
    data: &mut AuthenticatorData,
) -> Result<Vec<u8>, OutOfMemory> {
    replace_attested(alloc, tries, data)?;
    tries.replace_some(alloc, &mut data.extensions)?;
    data_again(alloc, tries, data)
}

/// Decodes authenticator data, replaces parts by copies, and encodes the result.
pub fn auth_again(alloc: Global, tries: &mut Tries, bytes: &[u8]) -> Result<Vec<u8>, RunFault> {
    let mut data = AuthenticatorData::from_slice(alloc, bytes)?;
    let encoding = copied_data(alloc, tries, &mut data);
    drop(data);
    Ok(encoding?)
}
