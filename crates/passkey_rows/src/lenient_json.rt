//! Records over JSON with their known deviations repaired.
use crate::again_json::{client_data_text, encoding, parsed};
use crate::lenient::listed;
use passkey_rewrite::RunFault;
use passkey_types::OutOfMemory;
use passkey_types::webauthn::repair::{
    Repair, RepairsJson, from_json_lenient, without_byte_order_mark,
};
use passkey_types::webauthn::{
    AuthenticatedPublicKeyCredential, BytesForm, ClientDataFault, CollectedClientData,
    CreatedPublicKeyCredential, CredentialCreationOptions, CredentialRequestOptions, ToJson,
};
use std::alloc::Global;

/// Returns the repairs that were made, and the record's encoding.
fn written<R: ToJson>(
    alloc: Global,
    record: &R,
    repairs: &[Repair],
) -> Result<String, OutOfMemory> {
    let repairs = listed(alloc, repairs)?;
    let json = encoding(alloc, record, BytesForm::Base64Url)?;
    Ok(format!(in alloc; "{repairs}{json}")?)
}

/// `TEXT`: the repairs, and the record, decoded and encoded.
fn lenient<R: RepairsJson + ToJson>(alloc: Global, text: &str) -> Result<String, RunFault> {
    let value = parsed(alloc, text)?;
    let read = from_json_lenient::<R>(alloc, &value);
    drop(value);
    let (record, repairs) = read?;
    let text = written(alloc, &record, &repairs);
    drop(record);
    Ok(text?)
}

/// `TEXT`: client data after a byte order mark or none, decoded and encoded.
fn client_data(alloc: Global, text: &str) -> Result<String, RunFault> {
    let bytes = without_byte_order_mark(text.as_bytes());
    let data: CollectedClientData = match CollectedClientData::from_slice(alloc, bytes) {
        Ok(data) => data,
        Err(ClientDataFault::BadJson) => return Err(RunFault::BadJson),
        Err(ClientDataFault::Refused(fault)) => return Err(RunFault::from(fault)),
        Err(ClientDataFault::OutOfMemory) => return Err(RunFault::OutOfMemory),
    };
    let text = client_data_text(alloc, &data);
    drop(data);
    Ok(text?)
}

/// Returns the output of a row of such a kind. Returns `None` if it isn't a row of such a kind.
pub fn lenient_json_row(
    alloc: Global,
    name: &str,
    input: &str,
) -> Option<Result<String, RunFault>> {
    match name {
        "lenient-creation" => Some(lenient::<CredentialCreationOptions>(alloc, input)),
        "lenient-request" => Some(lenient::<CredentialRequestOptions>(alloc, input)),
        "lenient-created" => Some(lenient::<CreatedPublicKeyCredential>(alloc, input)),
        "lenient-authenticated" => Some(lenient::<AuthenticatedPublicKeyCredential>(alloc, input)),
        "lenient-client-data" => Some(client_data(alloc, input)),
        _ => None,
    }
}
