//! Extensions in messages: those that a record knows, with the others, which are kept.
use crate::again_bytes::encoded;
use crate::hexadecimal::{decode, encode, item_of, item_text};
use crate::setting::first_word;
use crate::tries::Tries;
use passkey_rewrite::RunFault;
use passkey_types::cbor::Value;
use passkey_types::ctap2::registered::extensions::{
    TableRecord, extensions_of, get_assertion as used, make_credential as made, others_of,
    with_others, with_row,
};
use passkey_types::ctap2::{Message, get_assertion, make_credential};
use std::alloc::Global;

fn none(alloc: Global) -> Result<String, RunFault> {
    Ok(String::from_str(alloc, "none")?)
}

/// `BYTES`: the extensions in a message, decoded and encoded; `none` if there are none.
fn lent<R: Message, E: Message>(
    alloc: Global,
    tries: &mut Tries,
    number: u8,
    input: &str,
) -> Result<String, RunFault> {
    let bytes = decode(alloc, input)?;
    match extensions_of::<R, E>(alloc, &bytes, number)? {
        Some(extensions) => {
            let bytes = encoded(alloc, tries, &extensions);
            drop(extensions);
            encode(alloc, &bytes?)
        }
        None => none(alloc),
    }
}

/// Decodes a map of extensions, and returns its item with those that the record doesn't know.
fn rewritten<E: Message + TableRecord>(alloc: Global, map: &Value) -> Result<Value, RunFault> {
    let record = <E as Message>::from_value(alloc, map)?;
    let others = others_of::<E>(alloc, map)?;
    let item = with_others(alloc, &record, &others);
    drop(others);
    Ok(item?)
}

/// `BYTES`: a map of extensions, decoded and encoded with those that the record doesn't know.
fn whole<E: Message + TableRecord>(alloc: Global, input: &str) -> Result<String, RunFault> {
    let map = item_of(alloc, input)?;
    let item = rewritten::<E>(alloc, &map);
    drop(map);
    item_text(alloc, item?)
}

/// Returns the message with the second item as the value of the row.
fn with_value<R: Message>(
    alloc: Global,
    message: &Value,
    number: u8,
    value: &str,
) -> Result<Value, RunFault> {
    let value = item_of(alloc, value)?;
    let item = with_row::<R>(alloc, message, number, &value);
    drop(value);
    Ok(item?)
}

/// `BYTES BYTES`: a message with the second item as the value of the row.
fn put_back<R: Message>(alloc: Global, number: u8, input: &str) -> Result<String, RunFault> {
    let (message, value) = first_word(input);
    let message = item_of(alloc, message)?;
    let item = with_value::<R>(alloc, &message, number, value);
    drop(message);
    item_text(alloc, item?)
}

/// Returns the output of a row of such a kind. Returns `None` if it isn't a row of such a kind.
pub fn extensions_row(
    alloc: Global,
    tries: &mut Tries,
    name: &str,
    input: &str,
) -> Option<Result<String, RunFault>> {
    match name {
        "inputs-of-mc-request" => Some(lent::<make_credential::Request, made::ExtensionInputs>(
            alloc, tries, 6, input,
        )),
        "inputs-of-ga-request" => Some(lent::<get_assertion::Request, used::ExtensionInputs>(
            alloc, tries, 4, input,
        )),
        "outputs-of-mc-response" => Some(lent::<
            make_credential::Response,
            made::UnsignedExtensionOutputs,
        >(alloc, tries, 6, input)),
        "outputs-of-ga-response" => Some(lent::<
            get_assertion::Response,
            used::UnsignedExtensionOutputs,
        >(alloc, tries, 8, input)),
        "put-mc-inputs" => Some(put_back::<make_credential::Request>(alloc, 6, input)),
        "put-ga-inputs" => Some(put_back::<get_assertion::Request>(alloc, 4, input)),
        "put-mc-outputs" => Some(put_back::<make_credential::Response>(alloc, 6, input)),
        "put-ga-outputs" => Some(put_back::<get_assertion::Response>(alloc, 8, input)),
        "whole-mc-inputs" => Some(whole::<made::ExtensionInputs>(alloc, input)),
        "whole-ga-inputs" => Some(whole::<used::ExtensionInputs>(alloc, input)),
        "whole-mc-outputs" => Some(whole::<made::SignedExtensionOutputs>(alloc, input)),
        "whole-ga-outputs" => Some(whole::<used::SignedExtensionOutputs>(alloc, input)),
        "whole-mc-unsigned" => Some(whole::<made::UnsignedExtensionOutputs>(alloc, input)),
        "whole-ga-unsigned" => Some(whole::<used::UnsignedExtensionOutputs>(alloc, input)),
        _ => None,
    }
}
