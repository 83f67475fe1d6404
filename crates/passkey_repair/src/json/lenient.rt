//! JSON values that are repaired, and records that are then decoded.
ghost use Rattle.std.specs.Prelude.{◌≡◌, IfOk, IsSome, IsTrue, OnErr, map, ⊤};
ghost use Rattle.passkey_json.specs.Held.{GivesAs};
ghost use Rattle.passkey_json.specs.Members.{record_kind, takes_in};
ghost use Rattle.passkey_json.specs.Table.{members_in, takes_of};
ghost use Rattle.passkey_repair.specs.json.Edits.{edit_of};
ghost use Rattle.passkey_repair.specs.json.Repairs.{decoded_leniently, decoded_with, edited_by, edits_made, record_and_edits, repaired};
ghost use Rattle.serde_json.specs.View.{view};

use crate::json::repair::Repair;
use crate::json::repairs_json::RepairsJson;
use passkey_json::{FromJson, JsonFault, JsonRecord, JsonRefusal};
use passkey_memory::OutOfMemory;
use serde_json::Value;
use std::alloc::Global;

/// Makes those of the repairs that fit, in turn, and lists them.
fn make_repairs(
    alloc: Global,
    value: Value,
    repairs: &[Repair],
) -> Result<(Value, Vec<Repair>), OutOfMemory>
    ensures value { IfOk result (λ r. view r.0 ≡ edited_by (map edit_of repairs.now) (view value)) }
    ensures list { IfOk result (λ r. map edit_of r.1.items ≡ edits_made (map edit_of repairs.now) (view value)) }
{
    let mut value = value;
    let mut made = Vec::new(alloc);
    for repair in repairs {
        if let Some(repaired) = repair.apply(alloc, &value)? {
            value = repaired;
            made.push(*repair)?;
        }
    }
    Ok((value, made))
}

/// Returns the JSON value as it is, and an empty list, if the record is decoded from it. Else makes
/// those of the record's repairs (`RepairsJson::repairs`) that fit, in turn, and lists them; what
/// is returned may still be rejected. Returns `OutOfMemory` if an allocation fails.
pub fn repair_json<R: RepairsJson>(
    alloc: Global,
    value: Value,
) -> Result<(Value, Vec<Repair>), OutOfMemory>
    ensures value { IfOk result
        (λ r. view r.0 ≡ (repaired (record_kind (members_in R.table)) R.edits (view value)).0) }
    ensures list { IfOk result
        (λ r. map edit_of r.1.items ≡ (repaired (record_kind (members_in R.table)) R.edits (view value)).1) }
    ensures memory { OnErr result (IsSome (record_kind (members_in R.table) (view value))
        → IsTrue (takes_in (takes_of R.table) (view value))) }
{
    match R::from_value(alloc, &value) {
        Ok(_) => Ok((value, Vec::new(alloc))),
        Err(JsonRefusal::Refused) => make_repairs(alloc, value, R::repairs()),
        Err(JsonRefusal::OutOfMemory) => Err(OutOfMemory),
    }
}

/// Decodes the record from the rejected JSON value with its repairs made.
fn from_repaired<R: RepairsJson>(alloc: Global, value: Value) -> Result<(R, Vec<Repair>), JsonFault>
    ensures { GivesAs ⊤ record_and_edits (decoded_with (members_in R.table)
        (edited_by R.edits (view value), edits_made R.edits (view value))) result }
{
    let (value, repairs) = make_repairs(alloc, value, R::repairs())?;
    let record = R::from_json(alloc, &value)?;
    Ok((record, repairs))
}

/// Decodes the record from the JSON value; if it is rejected, from what `repair_json` makes of it.
/// Returns the record with the repairs that were made, or the fault of the repaired value. Returns
/// `OutOfMemory` if an allocation fails; for a value that isn't rejected that can only happen if
/// decoding it takes memory.
pub fn from_json_lenient<R: RepairsJson>(
    alloc: Global,
    value: &Value,
) -> Result<(R, Vec<Repair>), JsonFault>
    ensures { GivesAs (IsSome (record_kind (members_in R.table) (view value.now))
        → IsTrue (takes_in (takes_of R.table) (view value.now))) record_and_edits
        (decoded_leniently (members_in R.table) R.edits (view value.now)) result }
{
    match R::from_value(alloc, value) {
        Ok(record) => Ok((record, Vec::new(alloc))),
        Err(JsonRefusal::Refused) => from_repaired(alloc, value.clone()?),
        Err(JsonRefusal::OutOfMemory) => Err(JsonFault::OutOfMemory),
    }
}
