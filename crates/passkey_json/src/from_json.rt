//! Values that are decoded from JSON values.
ghost use Rattle.std.specs.Prelude.{◌≡◌, Bool, false, IfOk, Option};
ghost use Rattle.passkey_json.specs.Along.{accepts};
ghost use Rattle.passkey_json.specs.Kind.{Answers, algorithm, truth, text, whole, numeral, byte, word, optional, is_text};
ghost use Rattle.passkey_json.specs.Blame.{Blames};
ghost use Rattle.passkey_json.specs.Dropped.{Drops};
ghost use Rattle.passkey_json.specs.Shape.{Shape, leaf};
ghost use Rattle.passkey_json.specs.declared.wanted.WantedJson.TheVariants as want;
ghost use Rattle.serde_json.specs.Data.{Data};
ghost use Rattle.serde_json.specs.View.{view};

use crate::blame::JsonBlame;
use crate::dropped::DroppedValue;
use crate::json_refusal::JsonRefusal;
use crate::wanted::WantedJson;
use passkey_bytes::Text;
use passkey_iana::{Algorithm, EnumI64};
use passkey_memory::OutOfMemory;
use passkey_webauthn::whole_part;
use serde_json::Value;
use std::alloc::Global;

/// A type whose values are decoded from JSON values.
pub trait FromJson: Drop {
    /// The value that a JSON value decodes to, if there is one.
    ghost kind: { Data → Option Self };

    /// Whether decoding a JSON value may take memory; by default it never does.
    ghost takes: { Data → Bool } = { λ _. false };

    /// Decodes the JSON value. Returns `Refused` exactly if it doesn't decode to a value of this
    /// type, and `OutOfMemory` if an allocation fails, which can only happen for a JSON value that
    /// takes memory (`takes`).
    fn from_value(alloc: Global, value: &Value) -> Result<Self, JsonRefusal>
        ensures { Answers kind takes (view value.now) result };

    /// What it is decoded from, part by part.
    ghost shape: { Shape };

    /// Returns what is to blame if the type refuses the JSON value: the innermost value that is
    /// refused, and why. If the type accepts the value, what is returned is to blame for nothing.
    /// Returns `OutOfMemory` if an allocation fails.
    fn blame(alloc: Global, value: &Value) -> Result<JsonBlame, OutOfMemory>
        ensures { IfOk result (Blames shape (view value.now)) };

    /// Lists the values that are left out of the JSON value where the type tolerates any value: an
    /// element of a `TolerantList`, or the value of a member, that would be refused otherwise. Their
    /// order is that of the elements and of the record's members. Returns `OutOfMemory` if an
    /// allocation fails.
    fn dropped(alloc: Global, value: &Value) -> Result<Vec<DroppedValue>, OutOfMemory>
        ensures { IfOk result (λ v. Drops shape (view value.now) v.items) };
}

/// Returns whether the type accepts the JSON value. Returns `OutOfMemory` if an allocation fails.
pub(crate) fn is_accepted<T: FromJson>(alloc: Global, value: &Value) -> Result<bool, OutOfMemory>
    ensures { IfOk result (λ b. b ≡ accepts T.kind (view value.now)) }
{
    match T::from_value(alloc, value) {
        Ok(_) => Ok(true),
        Err(JsonRefusal::Refused) => Ok(false),
        Err(JsonRefusal::OutOfMemory) => Err(OutOfMemory),
    }
}

/// Returns the integer that the JSON value is, or the number in a text, truncated towards zero.
/// Returns `None` for a float, for any other value, and for a number that doesn't fit in `i64`.
fn numeral(value: &Value) -> Option<i64>
    ensures { result ≡ numeral (view value.now) }
{
    match value {
        Value::String(text) => whole_part(text.as_str()),
        _ => value.as_i64(),
    }
}

impl FromJson for bool {
    ghost kind = { truth };

    ghost shape = { leaf want.Boolean };

    fn from_value(_alloc: Global, value: &Value) -> Result<bool, JsonRefusal> {
        value.as_bool().ok_or(JsonRefusal::Refused)
    }

    fn blame(alloc: Global, _value: &Value) -> Result<JsonBlame, OutOfMemory> {
        Ok(JsonBlame::wanted(alloc, WantedJson::Boolean))
    }

    fn dropped(alloc: Global, _value: &Value) -> Result<Vec<DroppedValue>, OutOfMemory> {
        Ok(Vec::new(alloc))
    }
}

impl FromJson for Text {
    ghost kind = { text };

    ghost shape = { leaf want.Text };

    ghost takes = { is_text };

    fn from_value(alloc: Global, value: &Value) -> Result<Text, JsonRefusal> {
        match value {
            Value::String(text) => Ok(Text::from_str(alloc, text.as_str())?),
            _ => Err(JsonRefusal::Refused),
        }
    }

    fn blame(alloc: Global, _value: &Value) -> Result<JsonBlame, OutOfMemory> {
        Ok(JsonBlame::wanted(alloc, WantedJson::Text))
    }

    fn dropped(alloc: Global, _value: &Value) -> Result<Vec<DroppedValue>, OutOfMemory> {
        Ok(Vec::new(alloc))
    }
}

impl FromJson for u8 {
    ghost kind = { byte };

    ghost shape = { leaf want.Integer };

    fn from_value(_alloc: Global, value: &Value) -> Result<u8, JsonRefusal> {
        match value.as_i64() {
            Some(n) => u8::try_from(n).or(Err(JsonRefusal::Refused)),
            None => Err(JsonRefusal::Refused),
        }
    }

    fn blame(alloc: Global, _value: &Value) -> Result<JsonBlame, OutOfMemory> {
        Ok(JsonBlame::wanted(alloc, WantedJson::Integer))
    }

    fn dropped(alloc: Global, _value: &Value) -> Result<Vec<DroppedValue>, OutOfMemory> {
        Ok(Vec::new(alloc))
    }
}

impl FromJson for u32 {
    ghost kind = { word };

    ghost shape = { leaf want.Word };

    #[tactic(auto, unfolding(crate::specs::Kind::word))]
    fn from_value(_alloc: Global, value: &Value) -> Result<u32, JsonRefusal> {
        match numeral(value) {
            Some(n) => u32::try_from(n).or(Err(JsonRefusal::Refused)),
            None => Err(JsonRefusal::Refused),
        }
    }

    fn blame(alloc: Global, _value: &Value) -> Result<JsonBlame, OutOfMemory> {
        Ok(JsonBlame::wanted(alloc, WantedJson::Word))
    }

    fn dropped(alloc: Global, _value: &Value) -> Result<Vec<DroppedValue>, OutOfMemory> {
        Ok(Vec::new(alloc))
    }
}

impl FromJson for i64 {
    ghost kind = { whole };

    ghost shape = { leaf want.Integer };

    fn from_value(_alloc: Global, value: &Value) -> Result<i64, JsonRefusal> {
        value.as_i64().ok_or(JsonRefusal::Refused)
    }

    fn blame(alloc: Global, _value: &Value) -> Result<JsonBlame, OutOfMemory> {
        Ok(JsonBlame::wanted(alloc, WantedJson::Integer))
    }

    fn dropped(alloc: Global, _value: &Value) -> Result<Vec<DroppedValue>, OutOfMemory> {
        Ok(Vec::new(alloc))
    }
}

impl FromJson for Algorithm {
    ghost kind = { algorithm };

    ghost shape = { leaf want.Algorithm };

    #[tactic(auto, unfolding(crate::specs::Kind::algorithm))]
    fn from_value(_alloc: Global, value: &Value) -> Result<Algorithm, JsonRefusal> {
        match numeral(value) {
            Some(number) => Algorithm::from_i64(number).ok_or(JsonRefusal::Refused),
            None => Err(JsonRefusal::Refused),
        }
    }

    fn blame(alloc: Global, _value: &Value) -> Result<JsonBlame, OutOfMemory> {
        Ok(JsonBlame::wanted(alloc, WantedJson::Algorithm))
    }

    fn dropped(alloc: Global, _value: &Value) -> Result<Vec<DroppedValue>, OutOfMemory> {
        Ok(Vec::new(alloc))
    }
}

impl<T: FromJson> FromJson for Option<T> {
    ghost kind = { optional T.kind };

    ghost takes = { T.takes };

    ghost shape = { T.shape };

    fn from_value(alloc: Global, value: &Value) -> Result<Option<T>, JsonRefusal> {
        match value {
            Value::Null => Ok(None),
            _ => Ok(Some(T::from_value(alloc, value)?)),
        }
    }

    fn blame(alloc: Global, value: &Value) -> Result<JsonBlame, OutOfMemory> {
        T::blame(alloc, value)
    }

    fn dropped(alloc: Global, value: &Value) -> Result<Vec<DroppedValue>, OutOfMemory> {
        T::dropped(alloc, value)
    }
}
