//! Decoding keys.
ghost use Rattle.std.specs.Prelude.{◌≡◌, ◌<◌, [], length, map, None, IsSome, IsSomeAnd, option_map, unwrap_or, IfOk, OnErr, Ok};
ghost use Rattle.std.specs.List.{filter_map};
ghost use Rattle.std.specs.Option.{option_and_then};
ghost use Rattle.passkey_cbor.specs.View.{item_of, pair_of};
ghost use Rattle.passkey_iana.specs.Iana.{key_type_named, key_operation_named};
ghost use Rattle.passkey_cose.specs.Key.{key_parts};
ghost use Rattle.passkey_cose.specs.KeyChecks.{ReadsPart};
ghost use Rattle.passkey_cose.specs.KeyFaults.{name_fault, first_fault};
ghost use Rattle.passkey_cose.specs.KeyLabels.{is_common};
ghost use Rattle.passkey_cose.specs.KeyParams.{params_of};
ghost use Rattle.passkey_cose.specs.KeyParts.{KeyGrows};
ghost use Rattle.passkey_cose.specs.KeyReading.{name_in, bytes_in, ops_in, under, further, key_from, key_type, key_or_fault, read_key};
ghost use Rattle.passkey_cose.specs.Label.{label_item};
ghost use Rattle.passkey_cose.specs.Pairs.{values_in};
ghost use Rattle.passkey_cose.specs.Registered.{named_of, IsText};

use crate::checking::{check_members, is_common_number, is_label_of, signed_64};
use crate::error::CoseError;
use crate::iana::{EnumI64, KeyOperation, KeyType};
use crate::key::CoseKey;
use crate::label::Label;
use crate::pairs::Pairs;
use crate::registered::Registered;
use passkey_cbor::Value;
use passkey_memory::OutOfMemory;
use std::alloc::Global;

/// The value of the member with this label. The label is compared as a number, without a data item for it.
fn value_under(members: &[(Value, Value)], label: u8) -> Option<&Value>
    ensures { option_map (λ v. item_of v.now) result ≡ under label (map pair_of members.now) }
{
    for (name, value) in members {
        if is_label_of(name, label) {
            return Some(value);
        }
    }
    None
}

/// The registry's value that the data item represents; `None` if it represents none.
fn read_name<T: EnumI64>(alloc: Global, name: &Value) -> Result<Option<Registered<T>>, OutOfMemory>
    ensures same { IfOk result (λ o. option_map named_of o ≡ name_in T.named (item_of name.now)) }
    ensures grows { OnErr result (IsSomeAnd (name_in T.named (item_of name.now)) IsText) }
{
    match name {
        Value::Integer(n) => match signed_64(*n) {
            Some(n) => match T::from_i64(n) {
                Some(value) => Ok(Some(Registered::Assigned(value))),
                None => Ok(Some(Registered::Other(n))),
            },
            None => Ok(None),
        },
        Value::Text(text) => Ok(Some(Registered::Text(String::from_str(alloc, text.as_str())?))),
        _ => Ok(None),
    }
}

fn read_name_under<T: EnumI64>(
    alloc: Global,
    members: &[(Value, Value)],
    label: u8,
) -> Result<Option<Registered<T>>, OutOfMemory>
    ensures same { IfOk result
        (λ o. option_map named_of o ≡ option_and_then (name_in T.named) (under label (map pair_of members.now))) }
    ensures grows { OnErr result
        (IsSomeAnd (option_and_then (name_in T.named) (under label (map pair_of members.now))) IsText) }
{
    match value_under(members, label) {
        Some(name) => read_name(alloc, name),
        None => Ok(None),
    }
}

fn read_bytes_under(
    alloc: Global,
    members: &[(Value, Value)],
    label: u8,
) -> Result<Option<Vec<u8>>, OutOfMemory>
    ensures same { IfOk result
        (λ o. option_map (λ v. v.items) o ≡ option_and_then bytes_in (under label (map pair_of members.now))) }
    ensures grows { OnErr result (IsSome (option_and_then bytes_in (under label (map pair_of members.now)))) }
{
    match value_under(members, label) {
        Some(Value::Bytes(bytes)) => Ok(Some(Vec::from_slice(alloc, bytes)?)),
        _ => Ok(None),
    }
}

fn read_ops(alloc: Global, ops: &[Value]) -> Result<Vec<Registered<KeyOperation>>, OutOfMemory>
    ensures { IfOk result
        (λ v. map named_of v.items ≡ filter_map (name_in key_operation_named) (map item_of ops.now)) }
{
    let mut names = Vec::with_capacity(alloc, ops.len())?;
    for op in ops {
        if let Some(name) = read_name(alloc, op)? {
            names.push(name)?;
        }
    }
    Ok(names)
}

fn read_ops_under(
    alloc: Global,
    members: &[(Value, Value)],
    label: u8,
) -> Result<Option<Vec<Registered<KeyOperation>>>, OutOfMemory>
    ensures same { IfOk result (λ o. map named_of (unwrap_or (option_map (λ v. v.items) o) [])
        ≡ unwrap_or (option_map ops_in (under label (map pair_of members.now))) []) }
    ensures grows { OnErr result (IsSome (under label (map pair_of members.now))) }
{
    match value_under(members, label) {
        Some(Value::Array(ops)) => Ok(Some(read_ops(alloc, ops)?)),
        _ => Ok(None),
    }
}

fn is_common_label_of(label: &Value) -> bool
    ensures { result ≡ is_common (item_of label.now) }
{
    match label {
        Value::Integer(n) => is_common_number(n.get()),
        _ => false,
    }
}

fn label_from(label: Value) -> Label
    requires { name_fault (item_of label) ≡ None }
    ensures { label_item result ≡ item_of label }
{
    match label {
        Value::Integer(n) => Label::Int(signed_64(n).unwrap()),
        Value::Text(text) => Label::Text(text),
        _ => unreachable!(),
    }
}

fn read_params(alloc: Global, mut pairs: Pairs<'_>) -> Result<Vec<(Label, Value)>, OutOfMemory>
    requires { first_fault [] (map pair_of (values_in pairs)) ≡ None }
    ensures same { IfOk result
        (λ ps. params_of ps.items ≡ further (map pair_of (values_in pairs.entry))) }
    ensures grows { OnErr result (0 < length (further (map pair_of (values_in pairs.entry)))) }
{
    let mut params = Vec::new(alloc);
    for i in 0..pairs.as_slice().len() {
        if !is_common_label_of(&pairs.as_slice()[i].0) {
            let (label, value) = pairs.take(alloc, i)?;
            params.push((label_from(label), value))?;
        }
    }
    Ok(params)
}

fn read_kty(alloc: Global, members: &[(Value, Value)]) -> Result<Registered<KeyType>, CoseError>
    ensures { ReadsPart IsText named_of
        (key_type (option_and_then (name_in key_type_named) (under 1 (map pair_of members.now)))) result }
{
    match read_name_under(alloc, members, 1)? {
        None | Some(Registered::Assigned(KeyType::Reserved)) => Err(CoseError::UnexpectedItem),
        Some(kty) => Ok(kty),
    }
}

/// The key of this type, with its other parts from the pairs.
fn read_parts(
    alloc: Global,
    pairs: Pairs<'_>,
    kty: Registered<KeyType>,
) -> Result<CoseKey, OutOfMemory>
    requires good { first_fault [] (map pair_of (values_in pairs)) ≡ None }
    requires typed { let ms = map pair_of (values_in pairs) in
        key_type (option_and_then (name_in key_type_named) (under 1 ms)) ≡ Ok (named_of kty) }
    ensures same { IfOk result
        (λ k. key_parts k ≡ key_from (map pair_of (values_in pairs.entry)) (named_of kty)) }
    ensures grows { OnErr result
        (KeyGrows (key_from (map pair_of (values_in pairs.entry)) (named_of kty))) }
{
    let common = pairs.as_slice();
    let key_id = read_bytes_under(alloc, common, 2)?;
    let alg = read_name_under(alloc, common, 3)?;
    let key_ops = read_ops_under(alloc, common, 4)?;
    let base_iv = read_bytes_under(alloc, common, 5)?;
    let params = read_params(alloc, pairs)?;
    Ok(CoseKey {
        kty,
        key_id,
        alg,
        key_ops,
        base_iv,
        params: Some(params),
    })
}

/// The key from the pairs, none of which is bad.
fn read_pairs(alloc: Global, pairs: Pairs<'_>) -> Result<CoseKey, CoseError>
    requires { first_fault [] (map pair_of (values_in pairs)) ≡ None }
    ensures { ReadsPart KeyGrows key_parts
        (key_or_fault (map pair_of (values_in pairs.entry)) None) result }
{
    let kty = read_kty(alloc, pairs.as_slice())?;
    Ok(read_parts(alloc, pairs, kty)?)
}

fn read_map(alloc: Global, pairs: Pairs<'_>) -> Result<CoseKey, CoseError>
    ensures { let ms = map pair_of (values_in pairs.entry) in
        ReadsPart KeyGrows key_parts (key_or_fault ms (first_fault [] ms)) result }
{
    check_members(alloc, pairs.as_slice())?;
    read_pairs(alloc, pairs)
}

impl CoseKey {
    /// Decodes a key from a data item (RFC 9052, section 7). The map's members are checked in their
    /// order: first the label, then whether it repeats an earlier one, then the value.
    ///
    /// `UnexpectedItem` if the data item is no map; if a label, the type (1), the algorithm (3) or
    /// an operation is neither an integer nor a text; if the key identifier (2) or the Base IV (5)
    /// is empty or no byte string; if the operations (4) are no array, are empty, or repeat one;
    /// or, after all members are checked, if the type is absent or the reserved one.
    /// `OutOfRangeIntegerValue` if one of these integers doesn't fit in 64 signed bits.
    /// `DuplicateMapKey` if a label occurs twice. `OutOfMemory` if an allocation fails, which can
    /// happen only if there is no other error, and can't happen if the type and the algorithm are
    /// numbers and the key has no other part.
    ///
    /// Finding repeated labels and operations takes n log n time for n of them, with the earlier
    /// ones in ordered sets. If an allocation for these sets fails, they are compared with one
    /// another, in quadratic time.
    pub fn from_value(alloc: Global, value: &Value) -> Result<CoseKey, CoseError>
        ensures { ReadsPart KeyGrows key_parts (read_key (item_of value.now)) result }
    {
        match value {
            Value::Map(pairs) => read_map(alloc, Pairs::Lent(pairs)),
            _ => Err(CoseError::UnexpectedItem),
        }
    }

    /// Decodes a key from a data item (RFC 9052, section 7), which it takes. The key, the errors
    /// and when memory may run out are those of `CoseKey::from_value`. But the labels and values of
    /// other parameters are moved into the key rather than copied; the common parts are copied.
    /// What isn't moved is dropped, and all of the data item if there is an error.
    pub fn from_owned_value(alloc: Global, value: Value) -> Result<CoseKey, CoseError>
        ensures { ReadsPart KeyGrows key_parts (read_key (item_of value)) result }
    {
        match value {
            Value::Map(pairs) => read_map(alloc, Pairs::Owned(pairs)),
            _ => Err(CoseError::UnexpectedItem),
        }
    }
}
