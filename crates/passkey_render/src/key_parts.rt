//! COSE keys (RFC 9052, section 7), whose parameters a JSON object has.
ghost use Rattle.std.specs.Prelude.{◌≡◌, [], IfOk, List as ListOf, map};
ghost use Rattle.json.specs.Value.{value_view};
ghost use Rattle.passkey_cbor.specs.Item.{Item};
ghost use Rattle.passkey_cbor.specs.View.{item_of, pair_of};
ghost use Rattle.passkey_cbor_text.specs.values.Keys as keys;
ghost use Rattle.passkey_cbor_text.specs.values.NoItem.{Reads};
ghost use Rattle.passkey_cbor_text.specs.values.Registries.{named_in as value_named, row_of};
ghost use Rattle.passkey_render.specs.KeyParts.{form_of, key_item, label_of, parameter_item, parameters, with_parameter};
ghost use Rattle.passkey_render.specs.Parts.{named_in, read_all};

use crate::typed::map_of;
use json::Value as Json;
use passkey_cbor::{Integer, Value};
use passkey_cbor_text::values::{
    ItemFault, StringForm, is_escape, item_from_json, named_in, put_member, value_of_hex,
    value_of_number, value_of_text,
};
use passkey_memory::OutOfMemory;
use std::alloc::Global;

/// A parameter's label, and what a string is that is its value.
type Parameter = (i64, StringForm);

/// The parameters by their names (IANA's registries "COSE Key Common Parameters" and "COSE Key Type
/// Parameters").
pub(crate) fn parameters() -> &'static [(&'static str, Parameter)]
    ensures { map row_of result.now ≡ parameters }
{
    &[
        ("kty", (1, StringForm::KeyType)),
        ("kid", (2, StringForm::Bytes)),
        ("alg", (3, StringForm::Algorithm)),
        ("key_ops", (4, StringForm::Text)),
        ("Base IV", (5, StringForm::Bytes)),
        ("crv", (-1, StringForm::Curve)),
        ("x", (-2, StringForm::Bytes)),
        ("y", (-3, StringForm::Bytes)),
        ("n", (-1, StringForm::Bytes)),
        ("e", (-2, StringForm::Bytes)),
        ("k", (-1, StringForm::Bytes)),
        ("pub", (-1, StringForm::Bytes)),
    ]
}

/// Returns the label of the parameter, or its name if it has none.
fn label(alloc: Global, parameter: Option<Parameter>, name: &str) -> Result<Value, OutOfMemory>
    ensures { IfOk result (λ v. item_of v ≡ label_of parameter name.now) }
{
    match parameter {
        Some((label, _)) => Ok(Value::Integer(Integer::new(i128::from(label)).unwrap())),
        None => value_of_text(alloc, name),
    }
}

fn key(alloc: Global, parameter: Option<Parameter>, name: &str) -> Result<Value, ItemFault>
    ensures { Reads item_of (keys.key_item (λ s. Ok (label_of parameter s)) name.now) result }
{
    match name.as_bytes().split_first() {
        Some((b'$', digits)) => value_of_hex(alloc, digits),
        Some((b'#', digits)) => value_of_number(alloc, digits),
        _ => Ok(label(alloc, parameter, name)?),
    }
}

/// Returns what a string is that is the parameter's value.
fn form(parameter: Option<Parameter>) -> StringForm
    ensures { result ≡ form_of parameter }
{
    match parameter {
        Some((_, form)) => form,
        None => StringForm::Text,
    }
}

fn member(alloc: Global, name: &str, json: &Json<'_>) -> Result<(Value, Value), ItemFault>
    ensures { Reads pair_of (parameter_item (name.now, value_view json.now)) result }
{
    let parameter = named_in(name, parameters());
    let key = key(alloc, parameter, name)?;
    Ok((key, item_from_json(alloc, form(parameter), json)?))
}

fn members(alloc: Global, all: &[(&str, Json<'_>)]) -> Result<Vec<(Value, Value)>, ItemFault>
    ensures { Reads (λ v. map pair_of v.items) (read_all with_parameter [] 0 (map named_in all.now)) result }
{
    let mut found = Vec::new(alloc);
    for (index, (name, json)) in all.iter().enumerate() {
        match put_member(alloc, &mut found, member(alloc, name, json)) {
            Ok(()) => {}
            Err(fault) => return Err(fault.under(index)),
        }
    }
    Ok(found)
}

/// Returns the data item that the JSON value is where a COSE key is wanted: an object as a map, whose members
/// are put in CTAP2's order and named after the parameters of keys, such as `kty`, `crv` and `x`, with key
/// types, curves and algorithms by their names or numbers, and byte strings in base64url; and all else as
/// `passkey_cbor_text::values::item_from_json` has it, escapes too. Whether the item is a key isn't said. The
/// errors are those of that call, with where in the JSON it is (RFC 9052, section 7).
pub fn key_item_from_json(alloc: Global, json: &Json<'_>) -> Result<Value, ItemFault>
    ensures { Reads item_of (key_item (value_view json.now)) result }
{
    match json {
        Json::Object(all) => {
            if is_escape(all) {
                return item_from_json(alloc, StringForm::Text, json);
            }
            map_of(members(alloc, all))
        }
        _ => item_from_json(alloc, StringForm::Text, json),
    }
}
