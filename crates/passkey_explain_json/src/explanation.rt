//! Why a JSON value isn't decoded as a record.
ghost use Rattle.std.specs.Prelude.{IfOk};
ghost use Rattle.passkey_explain_json.specs.Explains.{Explains};
ghost use Rattle.serde_json.specs.View.{view};

use passkey_json::{FromJson, JsonBlame, JsonFault, PlainJsonRecord, find_fault};
use passkey_memory::OutOfMemory;
use serde_json::Value;
use std::alloc::Global;

/// Why a JSON value isn't decoded as a record, and where in it.
#[derive(Debug, Drop)]
pub struct JsonExplanation {
    /// The fault with which the record isn't decoded.
    pub fault: JsonFault,
    /// The innermost value that is refused, and why.
    pub blame: JsonBlame,
}

/// Explains why the record isn't decoded from the JSON value. Returns `None` exactly if it is, as by
/// `JsonRecord::from_json`, and `OutOfMemory` if an allocation fails. A record inside others is
/// decoded once for each of them.
pub fn explain_json<R: PlainJsonRecord>(
    alloc: Global,
    value: &Value,
) -> Result<Option<JsonExplanation>, OutOfMemory>
    ensures { IfOk result (Explains R.table (view value.now)) }
{
    let Some(fault) = find_fault::<R>(alloc, value)? else {
        return Ok(None);
    };
    let blame = R::blame(alloc, value)?;
    Ok(Some(JsonExplanation { fault, blame }))
}
