//! JSON records: decoded, and encoded with copies of their parts, in both forms of bytes.
use crate::tries::Tries;
use passkey_rewrite::{JsonKind, RunFault, of_json_kind};
use passkey_types::OutOfMemory;
use passkey_types::json::{Error, Value};
use passkey_types::webauthn::{
    AuthenticatedPublicKeyCredential, AuthenticationExtensionsClientInputs,
    AuthenticationExtensionsClientOutputs, BytesForm, ClientDataExtra, CollectedClientData,
    CreatedPublicKeyCredential, CredentialCreationOptions, CredentialRequestOptions, JsonFault,
    JsonRecord, PublicKeyCredentialCreationOptions, ToJson,
};
use serde_json::error::Category;
use std::alloc::Global;

/// A record with parts that can be copied.
trait CopiedRecord {
    /// Replaces each part that can be copied by a copy.
    fn replace_parts(&mut self, alloc: Global, tries: &mut Tries) -> Result<(), OutOfMemory>;
}

fn replace_inputs(
    alloc: Global,
    tries: &mut Tries,
    inputs: &mut Option<AuthenticationExtensionsClientInputs>,
) -> Result<(), OutOfMemory> {
    match inputs {
        Some(inputs) => {
            tries.replace_some(alloc, &mut inputs.prf)?;
            tries.replace_some(alloc, &mut inputs.prf_already_hashed)
        }
        None => Ok(()),
    }
}

fn replace_outputs(
    alloc: Global,
    tries: &mut Tries,
    outputs: &mut AuthenticationExtensionsClientOutputs,
) -> Result<(), OutOfMemory> {
    tries.replace_some(alloc, &mut outputs.prf)
}

fn replace_creation(
    alloc: Global,
    tries: &mut Tries,
    options: &mut PublicKeyCredentialCreationOptions,
) -> Result<(), OutOfMemory> {
    tries.replace(alloc, &mut options.rp)?;
    tries.replace_equal(alloc, &mut options.user)?;
    if let Some(list) = &mut options.exclude_credentials {
        tries.replace_each(alloc, list.as_mut_vec())?;
    }
    replace_inputs(alloc, tries, &mut options.extensions)
}

impl CopiedRecord for CredentialCreationOptions {
    fn replace_parts(&mut self, alloc: Global, tries: &mut Tries) -> Result<(), OutOfMemory> {
        replace_creation(alloc, tries, &mut self.public_key)
    }
}

impl CopiedRecord for CredentialRequestOptions {
    fn replace_parts(&mut self, alloc: Global, tries: &mut Tries) -> Result<(), OutOfMemory> {
        if let Some(list) = &mut self.public_key.allow_credentials {
            tries.replace_each(alloc, list.as_mut_vec())?;
        }
        replace_inputs(alloc, tries, &mut self.public_key.extensions)
    }
}

impl CopiedRecord for CreatedPublicKeyCredential {
    fn replace_parts(&mut self, alloc: Global, tries: &mut Tries) -> Result<(), OutOfMemory> {
        tries.replace(alloc, &mut self.response)?;
        replace_outputs(alloc, tries, &mut self.client_extension_results)
    }
}

impl CopiedRecord for AuthenticatedPublicKeyCredential {
    fn replace_parts(&mut self, alloc: Global, tries: &mut Tries) -> Result<(), OutOfMemory> {
        replace_outputs(alloc, tries, &mut self.client_extension_results)
    }
}

pub fn is_out_of_memory(error: &Error) -> bool {
    error.classify() == Category::Memory
}

pub fn parsed(alloc: Global, text: &str) -> Result<Value, RunFault> {
    match Value::from_str(alloc, text) {
        Ok(value) => Ok(value),
        Err(error) if is_out_of_memory(&error) => Err(RunFault::OutOfMemory),
        Err(_) => Err(RunFault::BadJson),
    }
}

fn decoded<R: JsonRecord>(alloc: Global, text: &str) -> Result<R, RunFault> {
    let value = parsed(alloc, text)?;
    let record = R::from_json(alloc, &value);
    drop(value);
    Ok(record?)
}

/// Returns the record's text, with bytes in this form.
pub fn encoding<R: ToJson>(
    alloc: Global,
    record: &R,
    form: BytesForm,
) -> Result<String, OutOfMemory> {
    let json = record.to_json(alloc, form)?;
    let text = json.to_string(alloc);
    drop(json);
    Ok(text?)
}

/// Returns the encoding, and tries again if memory ran out.
fn encoding_again<R: ToJson>(
    alloc: Global,
    tries: &mut Tries,
    record: &R,
    form: BytesForm,
) -> Result<String, OutOfMemory> {
    match encoding(alloc, record, form) {
        Ok(text) => Ok(text),
        Err(OutOfMemory) => {
            tries.refuse();
            encoding(alloc, record, form)
        }
    }
}

/// Returns the record's text with bytes as numbers, which decodes to the same record.
fn in_numbers<R: JsonRecord + ToJson + CopiedRecord>(
    alloc: Global,
    tries: &mut Tries,
    text: &str,
) -> Result<String, RunFault> {
    let mut record = decoded::<R>(alloc, text)?;
    record.replace_parts(alloc, tries)?;
    Ok(encoding_again(alloc, tries, &record, BytesForm::Numbers)?)
}

fn record_again<R: JsonRecord + ToJson + CopiedRecord>(
    alloc: Global,
    tries: &mut Tries,
    text: &str,
) -> Result<String, RunFault> {
    let numbers = in_numbers::<R>(alloc, tries, text)?;
    let record = decoded::<R>(alloc, numbers.as_str())?;
    Ok(encoding_again(alloc, tries, &record, BytesForm::Base64Url)?)
}

/// Returns the client data's text.
pub fn client_data_text<E: ClientDataExtra>(
    alloc: Global,
    data: &CollectedClientData<E>,
) -> Result<String, JsonFault> {
    let text = data.to_text(alloc)?;
    Ok(String::from_str(alloc, text.as_str())?)
}

fn copied_text<E: ClientDataExtra>(
    alloc: Global,
    data: &CollectedClientData<E>,
) -> Result<String, RunFault> {
    let copy = data.try_clone(alloc)?;
    let text = client_data_text(alloc, &copy);
    drop(copy);
    Ok(text?)
}

/// `TEXT`: client data with the members that the caller's type knows, decoded, copied and encoded.
pub fn client_data_copied<E: ClientDataExtra>(
    alloc: Global,
    text: &str,
) -> Result<String, RunFault> {
    let data = client_data_of::<E>(alloc, text)?;
    let text = copied_text(alloc, &data);
    drop(data);
    text
}

/// Returns the text, and tries again if memory ran out.
fn client_data_text_again<E: ClientDataExtra>(
    alloc: Global,
    tries: &mut Tries,
    data: &CollectedClientData<E>,
) -> Result<String, JsonFault> {
    match client_data_text(alloc, data) {
        Err(JsonFault::OutOfMemory) => {
            tries.refuse();
            client_data_text(alloc, data)
        }
        other => other,
    }
}

fn client_data_of<E: ClientDataExtra>(
    alloc: Global,
    text: &str,
) -> Result<CollectedClientData<E>, RunFault> {
    let value = parsed(alloc, text)?;
    let data = CollectedClientData::<E>::from_json(alloc, &value);
    drop(value);
    Ok(data?)
}

/// Replaces the client data by a copy, and returns their text.
fn copied_client_data<E: ClientDataExtra>(
    alloc: Global,
    tries: &mut Tries,
    data: &mut CollectedClientData<E>,
) -> Result<String, JsonFault> {
    tries.replace(alloc, data)?;
    client_data_text_again(alloc, tries, data)
}

fn client_data_again<E: ClientDataExtra>(
    alloc: Global,
    tries: &mut Tries,
    text: &str,
) -> Result<String, RunFault> {
    let mut data = client_data_of::<E>(alloc, text)?;
    let text = copied_client_data(alloc, tries, &mut data);
    drop(data);
    Ok(text?)
}

/// A JSON text of which the parts are replaced by copies.
#[derive(Drop)]
struct InParts<'a, 'b> {
    alloc: Global,
    tries: &'a mut Tries,
    text: &'b str,
}

/// The calls of the dispatch.
impl<'a, 'b> InParts<'a, 'b> {
    fn visit_record<R: JsonRecord + ToJson + CopiedRecord>(self) -> Result<String, RunFault> {
        let (alloc, text) = (self.alloc, self.text);
        record_again::<R>(alloc, self.tries, text)
    }

    fn visit_client_data<E: ClientDataExtra>(self) -> Result<String, RunFault> {
        let (alloc, text) = (self.alloc, self.text);
        client_data_again::<E>(alloc, self.tries, text)
    }
}

/// Decodes the text as the kind, replaces parts by copies, and encodes the result with bytes as
/// numbers; decodes that text again, and encodes it with bytes in base64url. Client data contains
/// no bytes.
pub fn json_again(
    alloc: Global,
    tries: &mut Tries,
    kind: JsonKind,
    text: &str,
) -> Result<String, RunFault> {
    let parts = InParts { alloc, tries, text };
    of_json_kind!(kind, parts)
}
