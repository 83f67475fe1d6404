//! Authenticator data and COSE keys as JSON texts of their parts, from which they are read back.
ghost use Rattle.std.specs.Prelude.{◌≤◌, IfOk, string_bytes};
ghost use Rattle.passkey_cbor.specs.Depth.{depth};
ghost use Rattle.passkey_cbor.specs.LeadingItem.{max_depth};
ghost use Rattle.passkey_cbor.specs.View.{item_of};
ghost use Rattle.passkey_cbor_text.specs.values.Exact.{IsJsonOf};
ghost use Rattle.passkey_render.specs.DataParts.{data_item, data_reads_escapes};
ghost use Rattle.passkey_render.specs.KeyParts.{key_item, key_reads_escapes};

use crate::data_parts::{data_item_from_json, flag_bits};
use crate::key_parts::{key_item_from_json, parameters};
use crate::typed_text::push_name;
use json::Value as Json;
use passkey_cbor::Value;
use passkey_cbor_text::values::{
    ItemFault, Reading, StringForm, exact_json, friendly_json, is_json_of, key_name,
};
use passkey_core::{AttestedCredentialData, AuthenticatorData, Flags};
use passkey_cose::CoseError;
use passkey_memory::OutOfMemory;
use std::alloc::Global;

/// The reading of COSE keys, as `key_item_from_json`.
#[derive(Clone, Copy)]
pub struct KeyReading;

impl Reading for KeyReading {
    ghost means = { λ _. key_item };

    ghost reads_escapes = { λ _. key_reads_escapes };

    fn read(&self, alloc: Global, json: &Json<'_>) -> Result<Value, ItemFault> {
        key_item_from_json(alloc, json)
    }
}

/// The reading of authenticator data, as `data_item_from_json`.
#[derive(Clone, Copy)]
pub struct DataReading;

impl Reading for DataReading {
    ghost means = { λ _. data_item };

    ghost reads_escapes = { λ _. data_reads_escapes };

    fn read(&self, alloc: Global, json: &Json<'_>) -> Result<Value, ItemFault> {
        data_item_from_json(alloc, json)
    }
}

/// Returns the number of the key type, of a key whose parameters these are.
fn key_type(pairs: &[(Value, Value)]) -> i128 {
    for (label, value) in pairs {
        if let (Value::Integer(label), Value::Integer(number)) = (label, value) {
            if label.get() == 1 {
                return number.get();
            }
        }
    }
    0
}

/// Whether keys of the type have the parameter of this name and label.
fn has_parameter(key_type: i128, name: &str, label: i64) -> bool {
    label > 0
        || match key_type {
            1 => name == "crv" || name == "x",
            2 => name == "crv" || name == "x" || name == "y",
            3 => name == "n" || name == "e",
            4 => name == "k",
            7 => name == "pub",
            _ => false,
        }
}

/// Returns the name of the parameter with this label, and what a string is that is its value.
fn parameter_of(key_type: i128, label: i128) -> Option<(&'static str, StringForm)> {
    for (name, (own, form)) in parameters() {
        if i128::from(*own) == label && has_parameter(key_type, name, *own) {
            return Some((*name, *form));
        }
    }
    None
}

fn push_parameter(
    out: &mut String,
    alloc: Global,
    index: usize,
    key_type: i128,
    pair: &(Value, Value),
) -> Result<(), OutOfMemory> {
    let found = match &pair.0 {
        Value::Integer(label) => parameter_of(key_type, label.get()),
        _ => None,
    };
    let form = match found {
        Some((name, form)) => {
            push_name(out, alloc, index, name)?;
            form
        }
        None => {
            push_name(out, alloc, index, key_name(alloc, &pair.0)?.as_str())?;
            StringForm::Text
        }
    };
    Ok(out.push_str(friendly_json(alloc, form, &pair.1)?.as_str())?)
}

/// Returns the key as JSON that people read.
fn friendly_key(alloc: Global, value: &Value) -> Result<String, OutOfMemory> {
    let Value::Map(pairs) = value else {
        return friendly_json(alloc, StringForm::Text, value);
    };
    let key_type = key_type(pairs);
    let mut out = String::new(alloc);
    out.push('{')?;
    for (index, pair) in pairs.iter().enumerate() {
        push_parameter(&mut out, alloc, index, key_type, pair)?;
    }
    out.push('}')?;
    Ok(out)
}

/// Appends a member whose value is a byte string.
fn push_bytes(
    out: &mut String,
    alloc: Global,
    index: usize,
    name: &str,
    form: StringForm,
    bytes: &[u8],
) -> Result<(), OutOfMemory> {
    push_name(out, alloc, index, name)?;
    let value = Value::Bytes(Vec::from_slice(alloc, bytes)?);
    Ok(out.push_str(friendly_json(alloc, form, &value)?.as_str())?)
}

fn push_flags(out: &mut String, flags: Flags) -> Result<(), OutOfMemory> {
    out.push_str(",\"flags\":[")?;
    let mut separator = "\"";
    for (name, bit) in flag_bits() {
        if u8::from(flags) & *bit != 0 {
            out.push_str(separator)?;
            out.push_str(name)?;
            out.push('"')?;
            separator = ",\"";
        }
    }
    Ok(out.push(']')?)
}

fn push_attested(
    out: &mut String,
    alloc: Global,
    attested: &AttestedCredentialData,
) -> Result<(), OutOfMemory> {
    out.push_str(",\"attestedCredentialData\":")?;
    let mut inner = String::from_str(alloc, "{")?;
    push_bytes(
        &mut inner,
        alloc,
        0,
        "aaguid",
        StringForm::Aaguid,
        &attested.aaguid.0,
    )?;
    push_bytes(
        &mut inner,
        alloc,
        1,
        "credentialId",
        StringForm::Bytes,
        attested.credential_id(),
    )?;
    push_name(&mut inner, alloc, 1, "credentialPublicKey")?;
    let key = attested.key.to_value(alloc)?;
    let text = friendly_key(alloc, &key);
    drop(key);
    inner.push_str(text?.as_str())?;
    inner.push('}')?;
    Ok(out.push_str(inner.as_str())?)
}

/// Returns the parts as JSON that people read.
fn friendly_parts(alloc: Global, data: &AuthenticatorData) -> Result<String, OutOfMemory> {
    let mut out = String::from_str(alloc, "{")?;
    push_bytes(
        &mut out,
        alloc,
        0,
        "rpIdHash",
        StringForm::Bytes,
        data.rp_id_hash(),
    )?;
    push_flags(&mut out, data.flags)?;
    let counter = data.counter.unwrap_or(0);
    out.push_str(format!(in alloc; ",\"signCount\":{counter}")?.as_str())?;
    if let Some(attested) = &data.attested_credential_data {
        push_attested(&mut out, alloc, attested)?;
    }
    if let Some(extensions) = &data.extensions {
        push_name(&mut out, alloc, 1, "extensions")?;
        out.push_str(friendly_json(alloc, StringForm::Text, extensions)?.as_str())?;
    }
    out.push('}')?;
    Ok(out)
}

/// Returns the parts of the authenticator data that a byte string is, as JSON that people read.
fn parts_of(alloc: Global, value: &Value) -> Result<Option<String>, OutOfMemory> {
    let Value::Bytes(bytes) = value else {
        return Ok(None);
    };
    let data = match AuthenticatorData::from_slice_exact(alloc, bytes) {
        Ok(data) => data,
        Err(CoseError::OutOfMemory) => return Err(OutOfMemory),
        Err(_) => return Ok(None),
    };
    let text = friendly_parts(alloc, &data);
    drop(data);
    Ok(Some(text?))
}

/// Returns the item as JSON that people read: authenticator data by their parts, if these are read back.
pub(crate) fn friendly_data(alloc: Global, value: &Value) -> Result<String, OutOfMemory> {
    if let Some(text) = parts_of(alloc, value)? {
        if is_json_of(alloc, &DataReading, text.as_str(), value)? {
            return Ok(text);
        }
    }
    friendly_json(alloc, StringForm::Bytes, value)
}

/// Returns the data item as a JSON text that `data_item_from_json` makes the same item of: authenticator data
/// by their parts, unless these are encoded in another way than CTAP2's canonical form has it; other byte
/// strings in base64url; and all else as `json_from_item` has it. Returns `OutOfMemory` if an allocation
/// fails.
pub fn json_from_data_item(alloc: Global, value: &Value) -> Result<String, OutOfMemory>
    requires { depth (item_of value.now) ≤ max_depth }
    ensures { IfOk result (λ text. IsJsonOf data_item (item_of value.now) (string_bytes text)) }
{
    let text = friendly_data(alloc, value)?;
    exact_json(alloc, &DataReading, text, value)
}

/// Returns the data item as a JSON text that `key_item_from_json` makes the same item of: the parameters of a
/// COSE key by their names, those that have none by their labels, and what would be lost in escapes. Returns
/// `OutOfMemory` if an allocation fails.
pub fn json_from_key_item(alloc: Global, value: &Value) -> Result<String, OutOfMemory>
    requires { depth (item_of value.now) ≤ max_depth }
    ensures { IfOk result (λ text. IsJsonOf key_item (item_of value.now) (string_bytes text)) }
{
    let text = friendly_key(alloc, value)?;
    exact_json(alloc, &KeyReading, text, value)
}
