//! Finding the first bad member of a map that is decoded as a key.
ghost use Rattle.std.specs.Prelude.{◌≡◌, if◌then◌else◌, [], ◌∷◌, ◌++◌, map, Some, None, OnOk};
ghost use Rattle.std.specs.List.{list_any};
ghost use Rattle.passkey_cbor.specs.Item.{number};
ghost use Rattle.passkey_cbor.specs.Same.{item_eq};
ghost use Rattle.passkey_cbor.specs.View.{item_of, pair_of};
ghost use Rattle.passkey_cose.specs.KeyChecks.{Checks};
ghost use Rattle.passkey_iana.specs.Signed64.{is_signed_64};
ghost use Rattle.passkey_cose.specs.KeyFaults.{name_fault, bytes_fault, op_fault, first_op_fault, ops_fault, value_fault, member_fault, first_fault};
ghost use Rattle.passkey_cose.specs.KeyLabels.{is_label, is_common, has_label};
ghost use Rattle.passkey_cose.specs.Seen.{Holds, labels_of};

use crate::error::CoseError;
use crate::search::find;
use crate::seen::Seen;
use passkey_cbor::{Integer, Value};
use std::alloc::Global;

/// Up to this many labels or operations are compared with one another. If there are more, the
/// earlier ones are kept in an ordered set.
const FEW: usize = 16;

/// Returns the integer as a signed 64-bit number; `None` if it is below -2^63 or above 2^63 - 1.
pub fn signed_64(n: Integer) -> Option<i64>
    ensures { result ≡ (if is_signed_64 n then Some n else None) }
{
    let n = n.get();
    if n < -(1 << 63) || n >= 1 << 63 {
        return None;
    }
    Some(n as i64)
}

/// Whether the number is the label of a common parameter, 1 to 5 (RFC 9052, section 7.1).
pub(super) fn is_common_number(n: i128) -> bool
    ensures { result ≡ is_common (number n) }
{
    n == 1 || n == 2 || n == 3 || n == 4 || n == 5
}

/// Whether the label is this number.
pub(super) fn is_label_of(label: &Value, n: u8) -> bool
    ensures { result ≡ is_label n (item_of label.now) }
{
    match label {
        Value::Integer(m) => m.get() == i128::from(n),
        _ => false,
    }
}

fn check_name(name: &Value) -> Result<(), CoseError>
    ensures { Checks (name_fault (item_of name.now)) result }
{
    match name {
        Value::Integer(n) => {
            if signed_64(*n).is_none() {
                return Err(CoseError::OutOfRangeIntegerValue);
            }
            Ok(())
        }
        Value::Text(_) => Ok(()),
        _ => Err(CoseError::UnexpectedItem),
    }
}

fn check_bytes(value: &Value) -> Result<(), CoseError>
    ensures { Checks (bytes_fault (item_of value.now)) result }
{
    match value {
        Value::Bytes(bytes) => {
            if bytes.is_empty() {
                return Err(CoseError::UnexpectedItem);
            }
            Ok(())
        }
        _ => Err(CoseError::UnexpectedItem),
    }
}

fn stands_in(op: &Value, ops: &[Value]) -> bool
    ensures { result ≡ list_any (item_eq (item_of op.now)) (map item_of ops.now) }
{
    ops.contains(op)
}

/// Whether the operation repeats an earlier one. Adds it to the earlier ones.
fn is_repeated_op<'a>(seen: &mut Seen<'a>, earlier: &[Value], op: &'a Value) -> bool
    requires name { name_fault (item_of op.now) ≡ None }
    requires held { Holds seen.old (map item_of earlier.now) }
    ensures value { result ≡ list_any (item_eq (item_of op.now)) (map item_of earlier.now) }
    ensures held { Holds seen.new (map item_of earlier.now ++ item_of op.now ∷ []) }
{
    match seen.insert(op) {
        Some(is_new) => !is_new,
        None => stands_in(op, earlier),
    }
}

fn check_op<'a>(seen: &mut Seen<'a>, earlier: &[Value], op: &'a Value) -> Result<(), CoseError>
    requires { Holds seen.old (map item_of earlier.now) }
    ensures fault { Checks (op_fault (map item_of earlier.now) (item_of op.now)) result }
    ensures held { OnOk result (Holds seen.new (map item_of earlier.now ++ item_of op.now ∷ [])) }
{
    check_name(op)?;
    if is_repeated_op(seen, earlier, op) {
        return Err(CoseError::UnexpectedItem);
    }
    Ok(())
}

fn check_each_op(alloc: Global, ops: &[Value]) -> Result<(), CoseError>
    ensures { Checks (first_op_fault [] (map item_of ops.now)) result }
{
    let mut seen = Seen::new(alloc, ops.len() > FEW);
    for i in 0..ops.len() {
        check_op(&mut seen, &ops[..i], &ops[i])?;
    }
    Ok(())
}

fn check_ops(alloc: Global, value: &Value) -> Result<(), CoseError>
    ensures { Checks (ops_fault (item_of value.now)) result }
{
    match value {
        Value::Array(ops) => {
            if ops.is_empty() {
                return Err(CoseError::UnexpectedItem);
            }
            check_each_op(alloc, ops)
        }
        _ => Err(CoseError::UnexpectedItem),
    }
}

fn check_value(alloc: Global, label: &Value, value: &Value) -> Result<(), CoseError>
    ensures { Checks (value_fault (item_of label.now) (item_of value.now)) result }
{
    if is_label_of(label, 1) || is_label_of(label, 3) {
        check_name(value)
    } else if is_label_of(label, 2) || is_label_of(label, 5) {
        check_bytes(value)
    } else if is_label_of(label, 4) {
        check_ops(alloc, value)
    } else {
        Ok(())
    }
}

fn is_taken(label: &Value, members: &[(Value, Value)]) -> bool
    ensures { result ≡ has_label (map pair_of members.now) (item_of label.now) }
{
    find(label, members).is_some()
}

/// Whether the label repeats an earlier one. Adds it to the earlier ones.
fn is_repeated_label<'a>(seen: &mut Seen<'a>, earlier: &[(Value, Value)], label: &'a Value) -> bool
    requires name { name_fault (item_of label.now) ≡ None }
    requires held { Holds seen.old (labels_of (map pair_of earlier.now)) }
    ensures value { result ≡ has_label (map pair_of earlier.now) (item_of label.now) }
    ensures held { Holds seen.new (labels_of (map pair_of earlier.now) ++ item_of label.now ∷ []) }
{
    match seen.insert(label) {
        Some(is_new) => !is_new,
        None => is_taken(label, earlier),
    }
}

fn check_member<'a>(
    alloc: Global,
    seen: &mut Seen<'a>,
    earlier: &[(Value, Value)],
    member: &'a (Value, Value),
) -> Result<(), CoseError>
    requires { Holds seen.old (labels_of (map pair_of earlier.now)) }
    ensures fault { Checks (member_fault (map pair_of earlier.now) (pair_of member.now)) result }
    ensures held { let labels = labels_of (map pair_of earlier.now) in
        OnOk result (Holds seen.new (labels ++ item_of member.now.0 ∷ [])) }
{
    let (label, value) = member;
    check_name(label)?;
    if is_repeated_label(seen, earlier, label) {
        return Err(CoseError::DuplicateMapKey);
    }
    check_value(alloc, label, value)
}

/// Returns the error of the first bad member. Never returns `OutOfMemory`: once an allocation
/// fails, labels and operations are compared with one another.
pub(super) fn check_members(alloc: Global, members: &[(Value, Value)]) -> Result<(), CoseError>
    ensures { Checks (first_fault [] (map pair_of members.now)) result }
{
    let mut seen = Seen::new(alloc, members.len() > FEW);
    for i in 0..members.len() {
        check_member(alloc, &mut seen, &members[..i], &members[i])?;
    }
    Ok(())
}
