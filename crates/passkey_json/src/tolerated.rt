//! Values that may be rejected.
ghost use Rattle.passkey_json.specs.Along.{tolerant_shape};
ghost use Rattle.passkey_json.specs.Kind.{tolerated};

use crate::blame::JsonBlame;
use crate::dropped::DroppedValue;
use crate::from_json::{FromJson, is_accepted};
use crate::json_refusal::JsonRefusal;
use passkey_memory::OutOfMemory;
use serde_json::Value;
use std::alloc::Global;
use std::marker::Model;

/// A value, or `None` if the JSON value was rejected. Running out of memory is still an error.
/// Contracts see the option.
#[derive(Debug, Drop)]
pub struct Tolerated<T>(pub Option<T>);

impl<T> Model for Tolerated<T> {
    ghost use Rattle.std.specs.Prelude.{Option};

    ghost Value = { Option T };

    ghost view = { λ t. t.0 };
}

impl<T: FromJson> FromJson for Tolerated<T> {
    ghost kind = { tolerated T.kind };

    ghost takes = { T.takes };

    ghost shape = { tolerant_shape T.kind T.shape };

    fn from_value(alloc: Global, value: &Value) -> Result<Tolerated<T>, JsonRefusal> {
        match T::from_value(alloc, value) {
            Ok(read) => Ok(Tolerated(Some(read))),
            Err(JsonRefusal::Refused) => Ok(Tolerated(None)),
            Err(JsonRefusal::OutOfMemory) => Err(JsonRefusal::OutOfMemory),
        }
    }

    fn blame(alloc: Global, value: &Value) -> Result<JsonBlame, OutOfMemory> {
        T::blame(alloc, value)
    }

    fn dropped(alloc: Global, value: &Value) -> Result<Vec<DroppedValue>, OutOfMemory> {
        if is_accepted::<T>(alloc, value)? {
            return T::dropped(alloc, value);
        }
        let blame = T::blame(alloc, value)?;
        let path = Vec::new(alloc);
        let mut dropped = Vec::new(alloc);
        dropped.push(DroppedValue { path, blame })?;
        Ok(dropped)
    }
}
