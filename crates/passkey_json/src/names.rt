//! Names of enumerations, decoded from JSON values and encoded.
ghost use Rattle.passkey_json.specs.Shape.{leaf};
ghost use Rattle.passkey_json.specs.declared.wanted.WantedJson.TheVariants as want;
ghost use Rattle.std.specs.Prelude.{◌≡◌, false, IfOk, OnOk};
ghost use Rattle.passkey_json.specs.Coded.{credential_type_value, transport_value};
ghost use Rattle.passkey_json.specs.Kind.{Answers, one_named};
ghost use Rattle.passkey_json.specs.Written.{ReadsBack};
ghost use Rattle.passkey_webauthn.specs.Names.{name_in, value_in};
ghost use Rattle.serde_json.specs.Data.{string};
ghost use Rattle.serde_json.specs.View.{view};

use crate::blame::JsonBlame;
use crate::bytes_form::BytesForm;
use crate::dropped::DroppedValue;
use crate::from_json::FromJson;
use crate::json_refusal::JsonRefusal;
use crate::to_json::ToJson;
use crate::wanted::WantedJson;
use passkey_memory::OutOfMemory;
use passkey_webauthn::{AuthenticatorTransport, EnumNames, PublicKeyCredentialType};
use serde_json::Value;
use std::alloc::Global;

/// Decodes the value that a text names. Returns `Refused` if the JSON value isn't a text, or if the
/// text isn't a name.
pub fn read_name<T: EnumNames>(value: &Value) -> Result<T, JsonRefusal>
    ensures { Answers (one_named (value_in T.table)) (λ _. false) (view value.now) result }
{
    match value {
        Value::String(name) => T::from_name(name.as_str()).ok_or(JsonRefusal::Refused),
        _ => Err(JsonRefusal::Refused),
    }
}

/// Encodes the value as its name, which decodes to the value. Returns `OutOfMemory` if an allocation
/// fails.
pub fn written_name<T: EnumNames>(alloc: Global, value: T) -> Result<Value, OutOfMemory>
    ensures written { IfOk result (λ v. view v ≡ string (name_in T.eq T.table value)) }
    ensures reads_back { OnOk result
        (ReadsBack (one_named (value_in T.table)) value (string (name_in T.eq T.table value))) }
{
    Ok(Value::try_from_str(alloc, value.name())?)
}

impl FromJson for PublicKeyCredentialType {
    ghost kind = { credential_type_value.kind };

    ghost shape = { leaf want.Name };

    fn from_value(_alloc: Global, value: &Value) -> Result<PublicKeyCredentialType, JsonRefusal> {
        read_name(value)
    }

    fn blame(alloc: Global, _value: &Value) -> Result<JsonBlame, OutOfMemory> {
        Ok(JsonBlame::wanted(alloc, WantedJson::Name))
    }

    fn dropped(alloc: Global, _value: &Value) -> Result<Vec<DroppedValue>, OutOfMemory> {
        Ok(Vec::new(alloc))
    }
}

impl ToJson for PublicKeyCredentialType {
    ghost json = { credential_type_value.json };

    fn to_json(&self, alloc: Global, _form: BytesForm) -> Result<Value, OutOfMemory> {
        written_name(alloc, *self)
    }
}

impl FromJson for AuthenticatorTransport {
    ghost kind = { transport_value.kind };

    ghost shape = { leaf want.Name };

    fn from_value(_alloc: Global, value: &Value) -> Result<AuthenticatorTransport, JsonRefusal> {
        read_name(value)
    }

    fn blame(alloc: Global, _value: &Value) -> Result<JsonBlame, OutOfMemory> {
        Ok(JsonBlame::wanted(alloc, WantedJson::Name))
    }

    fn dropped(alloc: Global, _value: &Value) -> Result<Vec<DroppedValue>, OutOfMemory> {
        Ok(Vec::new(alloc))
    }
}

impl ToJson for AuthenticatorTransport {
    ghost json = { transport_value.json };

    fn to_json(&self, alloc: Global, _form: BytesForm) -> Result<Value, OutOfMemory> {
        written_name(alloc, *self)
    }
}
