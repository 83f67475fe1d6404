//! Maps from texts, decoded from JSON objects and encoded.
ghost use Rattle.std.specs.Prelude.{◌≡◌, IfOk, map, option_map};
ghost use Rattle.passkey_json.specs.Along.{map_shape};
ghost use Rattle.passkey_json.specs.Dropped.{AreDropped, dropped, dropped_map, told};
ghost use Rattle.passkey_json.specs.Kind.{Answers, is_object};
ghost use Rattle.passkey_json.specs.MapKind.{map_from_texts, map_json};
ghost use Rattle.passkey_json.specs.Shape.{first_member, named, part, tested};
ghost use Rattle.serde_json.specs.Data.{object};
ghost use Rattle.serde_json.specs.View.{members_view, view};

use crate::blame::{JsonBlame, JsonStep};
use crate::bytes_form::BytesForm;
use crate::dropped::{DroppedValue, append_as};
use crate::from_json::{FromJson, is_accepted};
use crate::json_refusal::JsonRefusal;
use crate::to_json::ToJson;
use crate::wanted::WantedJson;
use crate::written::ObjectWriter;
use passkey_bytes::{Map, Text};
use passkey_memory::OutOfMemory;
use serde_json::{Map as Members, Value};
use std::alloc::Global;

fn read_members<T: FromJson>(
    alloc: Global,
    members: &Members<String, Value>,
) -> Result<Map<Text, T>, JsonRefusal>
    ensures { Answers (map_from_texts T.kind) is_object (object (members_view members.now.entries)) result }
{
    let mut read = Map::empty(alloc);
    for (name, member) in members.iter() {
        let value = T::from_value(alloc, member)?;
        read.insert(Text::from_str(alloc, name.as_str())?, value)?;
    }
    Ok(read)
}

/// Returns the first of the members that is refused, and its name.
fn refused_member<'a, T: FromJson>(
    alloc: Global,
    members: &'a Members<String, Value>,
) -> Result<Option<(&'a str, &'a Value)>, OutOfMemory>
    ensures { IfOk result (λ o. option_map (λ m. part (named m.0.now) (view m.1.now) (tested T.kind T.shape)) o
        ≡ first_member (tested T.kind T.shape) (members_view members.now.entries)) }
{
    for (name, member) in members.iter() {
        if !is_accepted::<T>(alloc, member)? {
            return Ok(Some((name.as_str(), member)));
        }
    }
    Ok(None)
}

impl<T: FromJson> FromJson for Map<Text, T> {
    ghost kind = { map_from_texts T.kind };

    ghost takes = { is_object };

    ghost shape = { map_shape T.kind T.shape };

    fn from_value(alloc: Global, value: &Value) -> Result<Map<Text, T>, JsonRefusal> {
        match value {
            Value::Object(members) => read_members(alloc, members),
            _ => Err(JsonRefusal::Refused),
        }
    }

    fn blame(alloc: Global, value: &Value) -> Result<JsonBlame, OutOfMemory> {
        if let Value::Object(members) = value {
            if let Some((name, member)) = refused_member::<T>(alloc, members)? {
                let step = JsonStep::Named(Text::from_str(alloc, name)?);
                return T::blame(alloc, member)?.under(step);
            }
        }
        Ok(JsonBlame::wanted(alloc, WantedJson::Object))
    }

    fn dropped(alloc: Global, value: &Value) -> Result<Vec<DroppedValue>, OutOfMemory> {
        let mut dropped = Vec::new(alloc);
        let Value::Object(members) = value else {
            return Ok(dropped);
        };
        for (name, member) in members.iter() {
            let step = JsonStep::Named(Text::from_str(alloc, name.as_str())?);
            append_as::<T>(alloc, &mut dropped, step, member)?;
        }
        Ok(dropped)
    }
}

impl<T: ToJson> ToJson for Map<Text, T> {
    ghost json = { λ form. map_json (T.json form) };

    fn to_json(&self, alloc: Global, form: BytesForm) -> Result<Value, OutOfMemory> {
        let mut members = ObjectWriter::new(alloc);
        for (name, member) in self {
            members.put(alloc, form, name.as_str(), member)?;
        }
        Ok(members.into_value())
    }
}
