//! What a record leaves out of a JSON value where it tolerates any value.
ghost use Rattle.std.specs.Prelude.{IfOk};
ghost use Rattle.passkey_explain_json.specs.LeftOut.{AreLeftOut};
ghost use Rattle.serde_json.specs.View.{view};

use passkey_json::{DroppedValue, FromJson, PlainJsonRecord};
use passkey_memory::OutOfMemory;
use serde_json::Value;
use std::alloc::Global;

/// Lists the values that the record leaves out of the JSON value: where it tolerates any value, such
/// as an element of `transports`, and the value isn't one that it keeps. Each is told with the steps
/// to it, and what in it is refused. Of a JSON value that is refused as a whole, which `explain_json`
/// explains, it lists what would be left out beside that. Returns `OutOfMemory` if an allocation
/// fails.
#[tactic(auto, using(crate::proofs::LeftOut::left_out))]
pub fn dropped_json<R: PlainJsonRecord>(
    alloc: Global,
    value: &Value,
) -> Result<Vec<DroppedValue>, OutOfMemory>
    ensures { IfOk result (λ v. AreLeftOut R.table (view value.now) v.items) }
{
    R::dropped(alloc, value)
}
