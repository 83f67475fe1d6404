//! Encoding lists and objects.
ghost use Rattle.std.specs.Prelude.{◌≡◌, ◌++◌, ◌∷◌, [], false, IfOk, IfSome, OnOk, Some, map, option_map};
ghost use Rattle.passkey_json.specs.Kind.{list};
ghost use Rattle.passkey_json.specs.Written.{ReadsBack, ReadsBackIf, list_json, put_if, so_far};
ghost use Rattle.serde_json.specs.Data.{no_members, object, put};
ghost use Rattle.serde_json.specs.View.{items_of, members_view, view};
ghost use Rattle.serde_json.specs.Written.{has_float, items_have_float, members_have_float};

use crate::bytes_form::BytesForm;
use crate::json_encoder::{EncodeResult, JsonEncoder};
use crate::to_json::ToJson;
use passkey_bytes::List;
use passkey_memory::OutOfMemory;
use serde_json::{Map, Value};
use std::alloc::Global;

mod held;

pub use held::ObjectWriter;

/// Adds an element to an array.
#[tactic(auto, using(crate::proofs::FloatFree::pushed_value_free))]
fn push_value(values: &mut Vec<Value>, value: Value) -> Result<(), OutOfMemory>
    ensures written { OnOk result (map view values.new.items ≡ map view values.old.items ++ view value ∷ []) }
    ensures without_floats { has_float (view value) ≡ false → items_have_float (items_of
        (map view values.old.items)) ≡ false → items_have_float (items_of (map view values.new.items)) ≡ false }
{
    values.push(value)?;
    Ok(())
}

/// Encodes the elements as an array.
pub(crate) fn array<T: ToJson>(
    alloc: Global,
    form: BytesForm,
    elements: &[T],
) -> Result<Value, OutOfMemory>
    ensures written { IfOk result (λ v. view v ≡ list_json (T.json form) elements.now) }
    ensures reads_back { OnOk result (ReadsBack (list T.kind) elements.now (list_json (T.json form) elements.now)) }
    ensures without_floats { IfOk result (λ v. has_float (view v) ≡ false) }
{
    let mut values = Vec::with_capacity(alloc, elements.len())?;
    for element in elements {
        push_value(&mut values, element.to_json(alloc, form)?)?;
    }
    Ok(Value::Array(values))
}

impl<T: ToJson> ToJson for List<T> {
    ghost json = { λ form. list_json (T.json form) };

    fn to_json(&self, alloc: Global, form: BytesForm) -> Result<Value, OutOfMemory> {
        array(alloc, form, self.as_slice())
    }
}

/// Adds a member to an object.
#[tactic(auto, using(crate::proofs::FloatFree::entry_free))]
fn put_member(
    alloc: Global,
    members: &mut Map<String, Value>,
    name: &str,
    value: Value,
) -> Result<(), OutOfMemory>
    ensures written { OnOk result
        (members_view members.new.entries ≡ put name.now (view value) (members_view members.old.entries)) }
    ensures without_floats { has_float (view value) ≡ false → members_have_float (members_view members.old.entries)
        ≡ false → members_have_float (members_view members.new.entries) ≡ false }
{
    members.insert(String::from_str(alloc, name)?, value)?;
    Ok(())
}

impl ObjectWriter {
    /// Returns an object without members. Allocates nothing.
    pub fn new(alloc: Global) -> ObjectWriter
        ensures { so_far result ≡ no_members }
    {
        ObjectWriter {
            members: Map::new(alloc),
        }
    }

    /// Adds a member. Returns `OutOfMemory` if an allocation fails.
    pub fn put<T: ToJson>(
        &mut self,
        alloc: Global,
        form: BytesForm,
        name: &str,
        member: &T,
    ) -> Result<(), OutOfMemory>
        ensures written { OnOk result
            (so_far self.new ≡ put_if name.now (Some (T.json form member.now)) (so_far self.old)) }
        ensures reads_back { OnOk result (ReadsBack T.kind member.now (T.json form member.now)) }
    {
        let value = member.to_json(alloc, form)?;
        put_member(alloc, &mut self.members, name, value)
    }

    /// Adds a member if the value is present. Returns `OutOfMemory` if an allocation fails.
    pub fn put_some<T: ToJson>(
        &mut self,
        alloc: Global,
        form: BytesForm,
        name: &str,
        member: &Option<T>,
    ) -> Result<(), OutOfMemory>
        ensures written { OnOk result
            (so_far self.new ≡ put_if name.now (option_map (T.json form) member.now) (so_far self.old)) }
        ensures reads_back { OnOk result (ReadsBackIf T.kind (T.json form) member.now) }
    {
        let member = JsonEncoder { alloc, form }.optional(member)?;
        self.put_value(alloc, name, member)
    }

    /// Adds an encoded member if there is one. Returns `OutOfMemory` if an allocation fails.
    pub(crate) fn put_value(
        &mut self,
        alloc: Global,
        name: &str,
        member: Option<Value>,
    ) -> Result<(), OutOfMemory>
        requires { IfSome member (λ v. has_float (view v) ≡ false) }
        ensures { OnOk result (so_far self.new ≡ put_if name.now (option_map view member) (so_far self.old)) }
    {
        if let Some(member) = member {
            put_member(alloc, &mut self.members, name, member)?;
        }
        Ok(())
    }

    /// Returns the object with these members.
    pub fn into_value(self) -> Value
        ensures value { view result ≡ object (so_far self) }
        ensures without_floats { has_float (view result) ≡ false }
    {
        Value::Object(self.members)
    }
}
