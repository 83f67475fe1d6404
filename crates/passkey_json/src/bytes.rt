//! Byte strings, decoded from JSON values and encoded.
ghost use Rattle.passkey_json.specs.Shape.{leaf};
ghost use Rattle.passkey_json.specs.declared.wanted.WantedJson.TheVariants as want;
ghost use Rattle.std.specs.Prelude.{◌≡◌, IfOk, OnOk};
ghost use Rattle.passkey_json.specs.Kind.{bytes as byte_string, is_text_or_array};
ghost use Rattle.passkey_json.specs.Written.{ReadsBack, bytes_json};
ghost use Rattle.passkey_json.specs.declared.bytes_form.BytesForm.TheVariants.{Base64Url};
ghost use Rattle.serde_json.specs.View.{view};

use crate::blame::JsonBlame;
use crate::bytes_form::BytesForm;
use crate::dropped::DroppedValue;
use crate::from_json::FromJson;
use crate::json_refusal::JsonRefusal;
use crate::to_json::ToJson;
use crate::wanted::WantedJson;
use crate::written::array;
use passkey_bytes::encoding::base64url;
use passkey_bytes::{Bytes, BytesFault, List};
use passkey_memory::OutOfMemory;
use serde_json::Value;
use std::alloc::Global;

impl FromJson for Bytes {
    ghost kind = { byte_string };

    ghost takes = { is_text_or_array };

    ghost shape = { leaf want.Bytes };

    fn from_value(alloc: Global, value: &Value) -> Result<Bytes, JsonRefusal> {
        match value {
            Value::String(text) => match Bytes::try_from(alloc, text.as_str().trim()) {
                Ok(bytes) => Ok(bytes),
                Err(BytesFault::NotBase64Encoded(_)) => Err(JsonRefusal::Refused),
                Err(BytesFault::OutOfMemory) => Err(JsonRefusal::OutOfMemory),
            },
            Value::Array(_) => {
                let numbers = <List<u8> as FromJson>::from_value(alloc, value)?;
                Ok(Bytes::from(Vec::from(numbers)))
            }
            _ => Err(JsonRefusal::Refused),
        }
    }

    fn blame(alloc: Global, _value: &Value) -> Result<JsonBlame, OutOfMemory> {
        Ok(JsonBlame::wanted(alloc, WantedJson::Bytes))
    }

    fn dropped(alloc: Global, _value: &Value) -> Result<Vec<DroppedValue>, OutOfMemory> {
        Ok(Vec::new(alloc))
    }
}

/// Returns the bytes as a text in base64url.
fn text(alloc: Global, bytes: &[u8]) -> Result<Value, OutOfMemory>
    ensures written { IfOk result (λ v. view v ≡ bytes_json Base64Url bytes.now) }
    ensures reads_back { OnOk result (ReadsBack byte_string bytes.now (bytes_json Base64Url bytes.now)) }
{
    Ok(Value::String(base64url(alloc, bytes)?))
}

impl ToJson for Bytes {
    ghost json = { bytes_json };

    fn to_json(&self, alloc: Global, form: BytesForm) -> Result<Value, OutOfMemory> {
        match form {
            BytesForm::Numbers => array(alloc, form, self.as_slice()),
            BytesForm::Base64Url => text(alloc, self.as_slice()),
        }
    }
}
