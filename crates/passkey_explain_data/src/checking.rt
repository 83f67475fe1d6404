//! What of a map is to blame that isn't a key.
ghost use Rattle.std.specs.Prelude.{◌≡◌, [], ◌∷◌, ◌++◌, List, ℕ, map, None, IfOk};
ghost use Rattle.passkey_cbor.specs.Item.{Item};
ghost use Rattle.passkey_cbor.specs.View.{item_of, pair_of};
ghost use Rattle.passkey_cose.specs.KeyFaults.{name_fault, bytes_fault, first_op_fault, ops_fault, value_fault};
ghost use Rattle.passkey_cose.specs.KeyLabels.{Members, is_label};
ghost use Rattle.passkey_cose.specs.Seen.{labels_of};
ghost use Rattle.passkey_explain_data.specs.Checked.{ChecksName, ChecksPair};
ghost use Rattle.passkey_explain_data.specs.KeyBlame.{number_in, type_number, type_fault, pairs_blame, type_blame};
ghost use Rattle.passkey_explain_data.specs.Names.{Holds};

use crate::key::{KeyBlame, KeyRefusal};
use crate::names::Names;
use passkey_cbor::Value;
use passkey_cose::iana::{EnumI64, KeyType};
use passkey_cose::{CoseError, signed_64};
use passkey_memory::OutOfMemory;
use std::alloc::Global;

/// Whether the label is this number.
fn is_label(label: &Value, n: u8) -> bool
    ensures { result ≡ is_label n (item_of label.now) }
{
    match label {
        Value::Integer(m) => m.get() == i128::from(n),
        _ => false,
    }
}

/// Returns the integer, if it has 64 signed bits.
fn number_in(value: &Value) -> Option<i64>
    ensures { result ≡ number_in (item_of value.now) }
{
    match value {
        Value::Integer(n) => signed_64(*n),
        _ => None,
    }
}

/// Returns the key type, if it is an integer.
pub(crate) fn type_number(members: &[(Value, Value)]) -> Option<i64>
    ensures { result ≡ type_number (map pair_of members.now) }
{
    for (label, value) in members {
        if is_label(label, 1) {
            return number_in(value);
        }
    }
    None
}

/// Returns the error of a label, a key type, an algorithm or an operation.
fn name_fault(name: &Value) -> Option<CoseError>
    ensures { result ≡ name_fault (item_of name.now) }
{
    match name {
        Value::Integer(n) => {
            if signed_64(*n).is_none() {
                return Some(CoseError::OutOfRangeIntegerValue);
            }
            None
        }
        Value::Text(_) => None,
        _ => Some(CoseError::UnexpectedItem),
    }
}

/// Returns the error of a key identifier or a Base IV.
fn bytes_fault(value: &Value) -> Option<CoseError>
    ensures { result ≡ bytes_fault (item_of value.now) }
{
    match value {
        Value::Bytes(bytes) => {
            if bytes.is_empty() {
                return Some(CoseError::UnexpectedItem);
            }
            None
        }
        _ => Some(CoseError::UnexpectedItem),
    }
}

/// Returns the error of a label or an operation: its own, or `repeated` if it is one of those before.
/// Without an error it is added to them.
fn name_fault_after<'a>(
    before: &mut Names<'a>,
    name: &'a Value,
    repeated: CoseError,
) -> Result<Option<CoseError>, OutOfMemory>
    ensures { IfOk result (λ fault. (names : List Item) → Holds before.old names →
        ChecksName repeated names (item_of name.now) before.new fault) }
{
    if let Some(fault) = name_fault(name) {
        return Ok(Some(fault));
    }
    if before.insert(name)? {
        Ok(None)
    } else {
        Ok(Some(repeated))
    }
}

fn first_op_fault(alloc: Global, ops: &[Value]) -> Result<Option<CoseError>, OutOfMemory>
    ensures { IfOk result (λ fault. fault ≡ first_op_fault [] (map item_of ops.now)) }
{
    let mut before = Names::new(alloc);
    for i in 0..ops.len() {
        let fault = name_fault_after(&mut before, &ops[i], CoseError::UnexpectedItem)?;
        if fault.is_some() {
            return Ok(fault);
        }
    }
    Ok(None)
}

fn ops_fault(alloc: Global, value: &Value) -> Result<Option<CoseError>, OutOfMemory>
    ensures { IfOk result (λ fault. fault ≡ ops_fault (item_of value.now)) }
{
    match value {
        Value::Array(ops) => {
            if ops.is_empty() {
                return Ok(Some(CoseError::UnexpectedItem));
            }
            first_op_fault(alloc, ops)
        }
        _ => Ok(Some(CoseError::UnexpectedItem)),
    }
}

fn value_fault(
    alloc: Global,
    label: &Value,
    value: &Value,
) -> Result<Option<CoseError>, OutOfMemory>
    ensures { IfOk result (λ fault. fault ≡ value_fault (item_of label.now) (item_of value.now)) }
{
    if is_label(label, 1) || is_label(label, 3) {
        Ok(name_fault(value))
    } else if is_label(label, 2) || is_label(label, 5) {
        Ok(bytes_fault(value))
    } else if is_label(label, 4) {
        ops_fault(alloc, value)
    } else {
        Ok(None)
    }
}

/// Returns what of the pair at this index is to blame. Without blame its label is added to those
/// before.
fn blame_pair<'a>(
    alloc: Global,
    before: &mut Names<'a>,
    key_type: Option<i64>,
    index: usize,
    pair: &'a (Value, Value),
) -> Result<Option<KeyRefusal>, OutOfMemory>
    ensures { IfOk result (λ blame. (earlier : Members) → Holds before.old (labels_of earlier) →
        ChecksPair key_type index earlier (pair_of pair.now) before.new blame) }
{
    let (label, value) = pair;
    let number = number_in(label);
    if let Some(fault) = name_fault_after(before, label, CoseError::DuplicateMapKey)? {
        let blame = KeyBlame::Label(index, number);
        return Ok(Some(KeyRefusal {
            fault,
            blame,
            key_type,
        }));
    }
    match value_fault(alloc, label, value)? {
        Some(fault) => {
            let blame = KeyBlame::Value(index, number);
            Ok(Some(KeyRefusal {
                fault,
                blame,
                key_type,
            }))
        }
        None => Ok(None),
    }
}

/// Returns what of the first bad pair is to blame.
pub(crate) fn blame_pairs(
    alloc: Global,
    key_type: Option<i64>,
    members: &[(Value, Value)],
) -> Result<Option<KeyRefusal>, OutOfMemory>
    ensures { IfOk result (λ blame. blame ≡ pairs_blame key_type 0 [] (map pair_of members.now)) }
{
    let mut before = Names::new(alloc);
    for i in 0..members.len() {
        let blame = blame_pair(alloc, &mut before, key_type, i, &members[i])?;
        if blame.is_some() {
            return Ok(blame);
        }
    }
    Ok(None)
}

/// Returns the error of a key type.
fn type_fault(value: &Value) -> Option<CoseError>
    ensures { result ≡ type_fault (item_of value.now) }
{
    match value {
        Value::Integer(n) => match signed_64(*n) {
            Some(n) => match KeyType::from_i64(n) {
                Some(KeyType::Reserved) => Some(CoseError::UnexpectedItem),
                _ => None,
            },
            None => Some(CoseError::UnexpectedItem),
        },
        Value::Text(_) => None,
        _ => Some(CoseError::UnexpectedItem),
    }
}

/// Returns the map if it has no key type, or a key type that is to blame.
pub(crate) fn blame_type(key_type: Option<i64>, members: &[(Value, Value)]) -> Option<KeyRefusal>
    ensures { result ≡ type_blame key_type 0 (map pair_of members.now) }
{
    for i in 0..members.len() {
        let (label, value) = &members[i];
        if is_label(label, 1) {
            return match type_fault(value) {
                Some(fault) => Some(KeyRefusal {
                    fault,
                    blame: KeyBlame::Value(i, number_in(label)),
                    key_type,
                }),
                None => None,
            };
        }
    }
    Some(KeyRefusal {
        fault: CoseError::UnexpectedItem,
        blame: KeyBlame::NoType,
        key_type,
    })
}
