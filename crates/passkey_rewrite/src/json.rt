//! JSON texts, decoded as a kind and encoded again.
ghost use Rattle.std.specs.Prelude.{◌≡◌, ◌⊎◌, IfOk, IfErr, string_bytes, ⊤};
ghost use Rattle.passkey_json.specs.Fault.{Gives};
ghost use Rattle.passkey_json.specs.JsonText.{HasNoJson, IsJson};
ghost use Rattle.passkey_rewrite.specs.RewritesJson.{IsJsonRefusal, RewritesJson, json_rewritten, object_in, record_rewritten, rewritten_as};
ghost use Rattle.passkey_rewrite.specs.declared.fault.RunFault.TheVariants.{BadJson, OutOfMemory};
ghost use Rattle.serde_json.specs.View.{view};

use crate::visiting::visit_json;
use crate::{JsonKind, JsonVisitor, RunFault};
use passkey_json::{
    BytesForm, FromJson, JsonFault, JsonRecord, JsonRefusal, PlainJsonRecord, ToJson,
};
use passkey_webauthn_json::client_data::{ClientDataExtra, CollectedClientData};
use serde_json::Value;
use serde_json::error::Category;
use std::alloc::Global;

/// Returns the value of a JSON text. Returns `BadJson` if the input isn't a JSON text in UTF-8 of at
/// most 127 nesting levels, and `OutOfMemory` if an allocation fails.
pub fn parse_json(alloc: Global, input: &[u8]) -> Result<Value, RunFault>
    ensures ok { IfOk result (λ value. IsJson input.now (view value)) }
    ensures err { IfErr result (λ fault. (fault ≡ OutOfMemory) ⊎ ((fault ≡ BadJson) × HasNoJson input.now)) }
{
    match Value::from_slice(alloc, input) {
        Ok(value) => Ok(value),
        Err(error) if error.classify() == Category::Memory => Err(RunFault::OutOfMemory),
        Err(_) => Err(RunFault::BadJson),
    }
}

/// Decodes the JSON text as the record and encodes it, as `rewrite_json` does.
pub fn rewrite_record<R: JsonRecord + ToJson>(
    alloc: Global,
    input: &[u8],
) -> Result<String, RunFault>
    ensures ok { IfOk result
        (λ text. RewritesJson (record_rewritten R.members R.json) input.now (string_bytes text)) }
    ensures err { IfErr result (IsJsonRefusal (record_rewritten R.members R.json) input.now) }
{
    let value = parse_json(alloc, input)?;
    let record = R::from_json(alloc, &value)?;
    drop(value);
    let written = record.to_json(alloc, BytesForm::Base64Url)?;
    drop(record);
    Ok(written.to_string(alloc)?)
}

/// Decodes an object of this type. Returns `NotAnObject` if the value isn't an object, `Refused` with
/// the name if the type rejects it, and `OutOfMemory` if an allocation fails.
pub fn object_from<T: FromJson>(
    alloc: Global,
    name: &'static str,
    value: &Value,
) -> Result<T, JsonFault>
    ensures { Gives ⊤ (object_in T.kind name.now (view value.now)) result }
{
    if !value.is_object() {
        return Err(JsonFault::NotAnObject);
    }
    match T::from_value(alloc, value) {
        Ok(object) => Ok(object),
        Err(JsonRefusal::Refused) => Err(JsonFault::Refused(name)),
        Err(JsonRefusal::OutOfMemory) => Err(JsonFault::OutOfMemory),
    }
}

/// A JSON text is decoded and encoded again, as `rewrite_json` does.
#[derive(Drop)]
pub struct JsonRewriting<'a> {
    /// Where memory comes from.
    pub alloc: Global,
    /// The JSON text.
    pub input: &'a [u8],
}

impl<'a> JsonVisitor for JsonRewriting<'a> {
    type Output = Result<String, RunFault>;

    ghost Gives = { λ v d result.
        IfOk result (λ text. RewritesJson (rewritten_as d) v.input.now (string_bytes text))
        × IfErr result (IsJsonRefusal (rewritten_as d) v.input.now) };

    fn visit_record<R: PlainJsonRecord>(self) -> Result<String, RunFault> {
        rewrite_record::<R>(self.alloc, self.input)
    }

    fn visit_client_data<E: ClientDataExtra>(self) -> Result<String, RunFault> {
        let client_data = CollectedClientData::<E>::from_slice(self.alloc, self.input)?;
        Ok(String::from(client_data.to_text(self.alloc)?))
    }

    fn visit_object<T: ToJson>(self, name: &'static str) -> Result<String, RunFault> {
        let value = parse_json(self.alloc, self.input)?;
        let object = object_from::<T>(self.alloc, name, &value)?;
        drop(value);
        let written = object.to_json(self.alloc, BytesForm::Base64Url)?;
        drop(object);
        Ok(written.to_string(self.alloc)?)
    }
}

/// Decodes the JSON text as the kind and encodes the result, as compact JSON with bytes in
/// base64url. Returns `BadJson` if the input isn't a JSON text in UTF-8 of at most 127 nesting
/// levels, `JsonRefused` if the kind rejects its value, and `OutOfMemory` if an allocation fails.
#[tactic(auto, unfolding(crate::specs::RewritesJson::json_rewritten))]
pub fn rewrite_json(alloc: Global, kind: JsonKind, input: &[u8]) -> Result<String, RunFault>
    ensures ok { IfOk result (λ text. RewritesJson (json_rewritten kind) input.now (string_bytes text)) }
    ensures err { IfErr result (IsJsonRefusal (json_rewritten kind) input.now) }
{
    visit_json(kind, JsonRewriting { alloc, input })
}
