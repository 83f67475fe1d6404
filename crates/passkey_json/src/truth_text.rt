//! Booleans that may be encoded as texts.
ghost use Rattle.passkey_json.specs.Shape.{leaf};
ghost use Rattle.passkey_json.specs.declared.wanted.WantedJson.TheVariants as want;
ghost use Rattle.std.specs.Prelude.{◌≡◌, false};
ghost use Rattle.passkey_json.specs.Kind.{truth_named, truth_text};
ghost use Rattle.serde_json.specs.Data.{boolean};

use crate::blame::JsonBlame;
use crate::bytes_form::BytesForm;
use crate::dropped::DroppedValue;
use crate::from_json::FromJson;
use crate::json_refusal::JsonRefusal;
use crate::to_json::ToJson;
use crate::wanted::WantedJson;
use passkey_memory::OutOfMemory;
use serde_json::Value;
use std::alloc::Global;
use std::marker::Model;

/// A boolean that is also decoded from the text `true` or `false`. Contracts see the boolean.
#[derive(Debug, Drop)]
pub struct TruthText(pub bool);

impl Model for TruthText {
    ghost use Rattle.std.specs.Prelude.{Bool};

    ghost Value = { Bool };

    ghost view = { λ t. t.0 };
}

impl TruthText {
    /// Returns the boolean.
    pub fn get(self) -> bool
        ensures { result ≡ self }
    {
        self.0
    }
}

fn truth_named(name: &str) -> Option<bool>
    ensures { result ≡ truth_named name.now }
{
    match name {
        "true" => Some(true),
        "false" => Some(false),
        _ => None,
    }
}

impl FromJson for TruthText {
    ghost kind = { truth_text };

    ghost shape = { leaf want.BooleanText };

    fn from_value(_alloc: Global, value: &Value) -> Result<TruthText, JsonRefusal> {
        let truth = match value {
            Value::Bool(truth) => Some(*truth),
            Value::String(name) => truth_named(name.as_str()),
            _ => None,
        };
        match truth {
            Some(truth) => Ok(TruthText(truth)),
            None => Err(JsonRefusal::Refused),
        }
    }

    fn blame(alloc: Global, _value: &Value) -> Result<JsonBlame, OutOfMemory> {
        Ok(JsonBlame::wanted(alloc, WantedJson::BooleanText))
    }

    fn dropped(alloc: Global, _value: &Value) -> Result<Vec<DroppedValue>, OutOfMemory> {
        Ok(Vec::new(alloc))
    }
}

impl ToJson for TruthText {
    ghost json = { λ _ b. boolean b };

    fn to_json(&self, _alloc: Global, _form: BytesForm) -> Result<Value, OutOfMemory> {
        Ok(Value::Bool(self.0))
    }
}
