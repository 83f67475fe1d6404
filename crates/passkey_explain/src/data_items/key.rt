//! COSE keys.
ghost use Rattle.std.specs.Prelude.{◌≡◌, IfOk, map, option_map};
ghost use Rattle.passkey_cbor.specs.Item.{text_string};
ghost use Rattle.passkey_cbor.specs.View.{item_of, pair_of};
ghost use Rattle.passkey_cose.specs.KeyLabels.{is_label};
ghost use Rattle.passkey_explain.specs.Described as spec;
ghost use Rattle.passkey_explain.specs.Described.{described_of};
ghost use Rattle.passkey_kinds.specs.declared.wanted.Wanted.TheVariants as wanted;
ghost use Rattle.passkey_explain.specs.DescribedData.{field_of, curve_name, described_key, described_member, described_parameter};
ghost use Rattle.passkey_explain.specs.DescribedData.{first_parameter, has_curve, has_type, is_negative, key_type_name, named_or};
ghost use Rattle.passkey_explain.specs.DescribedData.{parameter_name, second_parameter, type_in, type_of};

use crate::data_items::item::describe_item;
use crate::description::{Description, FieldName};
use passkey_cbor::Value;
use passkey_kinds::Wanted;
use passkey_memory::OutOfMemory;
use std::alloc::Global;

/// Whether the label is this number.
fn is_label(label: &Value, n: u8) -> bool
    ensures { result ≡ is_label n (item_of label.now) }
{
    match label {
        Value::Integer(m) => m.get() == i128::from(n),
        _ => false,
    }
}

/// Whether the label is -1 - n.
fn is_negative(label: &Value, n: u8) -> bool
    ensures { result ≡ is_negative n (item_of label.now) }
{
    match label {
        Value::Integer(m) => m.get() == -1 - i128::from(n),
        _ => false,
    }
}

/// Whether the key has this type.
fn has_type(key_type: Option<&Value>, n: u8) -> bool
    ensures { result ≡ has_type n (type_of key_type.entry) }
{
    match key_type {
        Some(value) => is_label(value, n),
        None => false,
    }
}

/// Whether the key is an octet key pair or a point of an elliptic curve.
fn has_curve(key_type: Option<&Value>) -> bool
    ensures { result ≡ has_curve (type_of key_type.entry) }
{
    has_type(key_type, 1) || has_type(key_type, 2)
}

/// Returns the name of the parameter -1 of a key of this type.
fn first_parameter(key_type: Option<&Value>) -> Option<&'static str>
    ensures { option_map (λ s. s.now) result ≡ first_parameter (type_of key_type.entry) }
{
    if has_curve(key_type) {
        Some("crv")
    } else if has_type(key_type, 3) {
        Some("n")
    } else if has_type(key_type, 4) {
        Some("k")
    } else if has_type(key_type, 5) || has_type(key_type, 7) {
        Some("pub")
    } else {
        None
    }
}

/// Returns the name of the parameter -2 of a key of this type.
fn second_parameter(key_type: Option<&Value>) -> Option<&'static str>
    ensures { option_map (λ s. s.now) result ≡ second_parameter (type_of key_type.entry) }
{
    if has_curve(key_type) {
        Some("x")
    } else if has_type(key_type, 3) {
        Some("e")
    } else {
        None
    }
}

/// Returns the name of a parameter of a COSE key of this type, by the parameter's label; `None` if
/// IANA's registries of COSE key parameters were not known to have one for it (RFC 9052, section 7;
/// RFC 9053, section 7; RFC 8230, section 4; RFC 8778, section 3).
pub fn parameter_name(key_type: Option<&Value>, label: &Value) -> Option<&'static str>
    ensures { option_map (λ s. s.now) result
        ≡ parameter_name (type_of key_type.entry) (item_of label.now) }
{
    if is_label(label, 1) {
        Some("kty")
    } else if is_label(label, 2) {
        Some("kid")
    } else if is_label(label, 3) {
        Some("alg")
    } else if is_label(label, 4) {
        Some("key_ops")
    } else if is_label(label, 5) {
        Some("Base IV")
    } else if is_negative(label, 0) {
        first_parameter(key_type)
    } else if is_negative(label, 1) {
        second_parameter(key_type)
    } else if is_negative(label, 2) && has_type(key_type, 2) {
        Some("y")
    } else {
        None
    }
}

/// Returns the name of a key type, as IANA's registry of COSE key types has it (RFC 9053, section 7;
/// RFC 8230, section 4; RFC 8778, section 3).
fn key_type_name(value: &Value) -> Option<&'static str>
    ensures { option_map (λ s. s.now) result ≡ key_type_name (item_of value.now) }
{
    if is_label(value, 1) {
        Some("OKP")
    } else if is_label(value, 2) {
        Some("EC2")
    } else if is_label(value, 3) {
        Some("RSA")
    } else if is_label(value, 4) {
        Some("Symmetric")
    } else if is_label(value, 5) {
        Some("HSS-LMS")
    } else if is_label(value, 7) {
        Some("AKP")
    } else {
        None
    }
}

/// Returns the name of an elliptic curve (RFC 9053, section 7.1; RFC 8812, section 3.1).
fn curve_name(value: &Value) -> Option<&'static str>
    ensures { option_map (λ s. s.now) result ≡ curve_name (item_of value.now) }
{
    if is_label(value, 1) {
        Some("P-256")
    } else if is_label(value, 2) {
        Some("P-384")
    } else if is_label(value, 3) {
        Some("P-521")
    } else if is_label(value, 4) {
        Some("X25519")
    } else if is_label(value, 5) {
        Some("X448")
    } else if is_label(value, 6) {
        Some("Ed25519")
    } else if is_label(value, 7) {
        Some("Ed448")
    } else if is_label(value, 8) {
        Some("secp256k1")
    } else {
        None
    }
}

pub(crate) fn text_leaf(alloc: Global, text: &str) -> Result<Description, OutOfMemory>
    ensures { IfOk result (λ d. described_of d ≡ spec.leaf wanted.Name (text_string text.now)) }
{
    Ok(Description::Leaf(Wanted::Name, Value::Text(String::from_str(alloc, text)?)))
}

/// Returns the name, or the item where there is none.
fn named_or(
    alloc: Global,
    name: Option<&'static str>,
    value: &Value,
) -> Result<Description, OutOfMemory>
    ensures { IfOk result
        (λ d. described_of d ≡ named_or (option_map (λ s. s.now) name.entry) (item_of value.now)) }
{
    match name {
        Some(name) => text_leaf(alloc, name),
        None => describe_item(alloc, value),
    }
}

fn describe_parameter(
    alloc: Global,
    key_type: Option<&Value>,
    label: &Value,
    value: &Value,
) -> Result<Description, OutOfMemory>
    ensures { IfOk result (λ d. described_of d
        ≡ described_parameter (type_of key_type.entry) (item_of label.now) (item_of value.now)) }
{
    if is_label(label, 1) {
        named_or(alloc, key_type_name(value), value)
    } else if is_label(label, 3) {
        Ok(Description::Leaf(Wanted::Algorithm, value.try_clone(alloc)?))
    } else if is_negative(label, 0) && has_curve(key_type) {
        named_or(alloc, curve_name(value), value)
    } else {
        describe_item(alloc, value)
    }
}

fn describe_member(
    alloc: Global,
    key_type: Option<&Value>,
    label: &Value,
    value: &Value,
) -> Result<(FieldName, Description), OutOfMemory>
    ensures { IfOk result (λ p. field_of p
        ≡ described_member (type_of key_type.entry) (item_of label.now) (item_of value.now)) }
{
    let description = describe_parameter(alloc, key_type, label, value)?;
    let name = match parameter_name(key_type, label) {
        Some(name) => FieldName::Member(0, name),
        None => FieldName::Unknown(label.try_clone(alloc)?),
    };
    Ok((name, description))
}

/// Returns the value of the first parameter 1, which is the key's type.
fn key_type_of(pairs: &[(Value, Value)]) -> Option<&Value>
    ensures { type_of result ≡ type_in (map pair_of pairs.now) }
{
    for (label, value) in pairs {
        if is_label(label, 1) {
            return Some(value);
        }
    }
    None
}

fn describe_members(
    alloc: Global,
    key_type: Option<&Value>,
    pairs: &[(Value, Value)],
) -> Result<Vec<(FieldName, Description)>, OutOfMemory>
    ensures { IfOk result (λ v. map field_of v.items
        ≡ map (λ m. described_member (type_of key_type.entry) m.0 m.1) (map pair_of pairs.now)) }
{
    let mut all = Vec::new(alloc);
    for (label, value) in pairs {
        all.push(describe_member(alloc, key_type, label, value)?)?;
    }
    Ok(all)
}

/// Describes a COSE key (RFC 9052, section 7), which the data item is: its parameters by their names.
/// Another item is described as `describe_item` does. Returns `OutOfMemory` if an allocation fails.
pub fn describe_key(alloc: Global, value: &Value) -> Result<Description, OutOfMemory>
    ensures { IfOk result (λ d. described_of d ≡ described_key (item_of value.now)) }
{
    match value {
        Value::Map(pairs) => Ok(Description::Record(describe_members(
            alloc,
            key_type_of(pairs),
            pairs,
        )?)),
        _ => describe_item(alloc, value),
    }
}
