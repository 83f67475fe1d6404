//! Lists of values.
ghost use Rattle.std.specs.Prelude.{◌≡◌, IfOk, map, option_map};
ghost use Rattle.passkey_json.specs.Along.{accepted_shape, list_shape};
ghost use Rattle.passkey_json.specs.Dropped.{AreDropped, dropped, dropped_list, told};
ghost use Rattle.passkey_json.specs.Kind.{list, accepted, is_array};
ghost use Rattle.passkey_json.specs.Shape.{element, first_element, part, tested};
ghost use Rattle.serde_json.specs.View.{items_view, view};

use crate::blame::{JsonBlame, JsonStep};
use crate::dropped::{DroppedValue, append_as};
use crate::from_json::{FromJson, is_accepted};
use crate::json_refusal::JsonRefusal;
use crate::tolerated::Tolerated;
use crate::wanted::WantedJson;
use passkey_bytes::List;
use passkey_memory::OutOfMemory;
use serde_json::Value;
use std::alloc::Global;
use std::marker::Model;

/// Returns the first of the elements that is refused, and its index.
fn refused_element<'a, T: FromJson>(
    alloc: Global,
    elements: &'a [Value],
) -> Result<Option<(usize, &'a Value)>, OutOfMemory>
    ensures { IfOk result (λ o. option_map (λ e. part (element e.0) (view e.1.now) (tested T.kind T.shape)) o
        ≡ first_element (tested T.kind T.shape) 0 (items_view elements.now)) }
{
    for (index, element) in elements.iter().enumerate() {
        if !is_accepted::<T>(alloc, element)? {
            return Ok(Some((index, element)));
        }
    }
    Ok(None)
}

/// Lists what is left out of the elements if the value is an array.
fn dropped_elements<T: FromJson>(
    alloc: Global,
    value: &Value,
) -> Result<Vec<DroppedValue>, OutOfMemory>
    ensures { IfOk result (λ v. AreDropped (dropped_list (dropped T.shape) (view value.now)) (map told v.items)) }
{
    let mut dropped = Vec::new(alloc);
    let Value::Array(elements) = value else {
        return Ok(dropped);
    };
    for (index, element) in elements.iter().enumerate() {
        append_as::<T>(alloc, &mut dropped, JsonStep::Element(index), element)?;
    }
    Ok(dropped)
}

impl<T: FromJson> FromJson for List<T> {
    ghost kind = { list T.kind };

    ghost takes = { is_array };

    ghost shape = { list_shape T.kind T.shape };

    fn from_value(alloc: Global, value: &Value) -> Result<List<T>, JsonRefusal> {
        let Value::Array(elements) = value else {
            return Err(JsonRefusal::Refused);
        };
        let mut read = Vec::with_capacity(alloc, elements.len())?;
        for element in elements {
            read.push(T::from_value(alloc, element)?)?;
        }
        Ok(List::from(read))
    }

    fn blame(alloc: Global, value: &Value) -> Result<JsonBlame, OutOfMemory> {
        if let Value::Array(elements) = value {
            if let Some((index, element)) = refused_element::<T>(alloc, elements)? {
                return T::blame(alloc, element)?.under(JsonStep::Element(index));
            }
        }
        Ok(JsonBlame::wanted(alloc, WantedJson::Array))
    }

    fn dropped(alloc: Global, value: &Value) -> Result<Vec<DroppedValue>, OutOfMemory> {
        dropped_elements::<T>(alloc, value)
    }
}

/// The values of those elements of an array that can be decoded, in their order; other elements are
/// skipped. Running out of memory is still an error. Contracts see the list of these values.
#[derive(Debug, Drop)]
pub struct TolerantList<T>(pub List<T>);

impl<T> Model for TolerantList<T> {
    ghost use Rattle.std.specs.Prelude.{List as Items};

    ghost Value = { Items T };

    ghost view = { λ l. l.0 };
}

impl<T> TolerantList<T> {
    /// Returns the values.
    pub fn into_list(self) -> List<T>
        ensures { result ≡ self }
    {
        self.0
    }
}

impl<T: FromJson> FromJson for TolerantList<T> {
    ghost kind = { accepted T.kind };

    ghost takes = { is_array };

    ghost shape = { accepted_shape T.kind T.shape };

    fn from_value(alloc: Global, value: &Value) -> Result<TolerantList<T>, JsonRefusal> {
        let Value::Array(elements) = value else {
            return Err(JsonRefusal::Refused);
        };
        let mut read = Vec::new(alloc);
        for element in elements {
            match T::from_value(alloc, element) {
                Ok(accepted) => read.push(accepted)?,
                Err(JsonRefusal::Refused) => {}
                Err(JsonRefusal::OutOfMemory) => return Err(JsonRefusal::OutOfMemory),
            }
        }
        Ok(TolerantList(List::from(read)))
    }

    fn blame(alloc: Global, _value: &Value) -> Result<JsonBlame, OutOfMemory> {
        Ok(JsonBlame::wanted(alloc, WantedJson::Array))
    }

    fn dropped(alloc: Global, value: &Value) -> Result<Vec<DroppedValue>, OutOfMemory> {
        dropped_elements::<Tolerated<T>>(alloc, value)
    }
}
