//! What is left out of a JSON value where any value is tolerated.
ghost use Rattle.std.specs.Fmt.{DisplaysOnOk};
ghost use Rattle.std.specs.Prelude.{◌≡◌, IfOk, List, OnOk, map};
ghost use Rattle.passkey_json.specs.Blame.{step_of};
ghost use Rattle.passkey_json.specs.BlameTexts.{dropped_text, path_within};
ghost use Rattle.passkey_json.specs.Dropped.{Adds, AreDropped, LeftOut, told, under};
ghost use Rattle.passkey_json.specs.Dropped as spec;
ghost use Rattle.serde_json.specs.View.{view};

use crate::blame::{JsonBlame, JsonStep, write_path};
use crate::from_json::FromJson;
use passkey_memory::OutOfMemory;
use serde_json::Value;
use std::alloc::Global;
use std::fmt;

/// A value that is left out, since the type that it would be decoded as refuses it: where any value
/// is tolerated, such as an element of `transports`.
#[derive(Debug, Drop)]
pub struct DroppedValue {
    /// The steps to it, from the outermost value.
    pub path: Vec<JsonStep>,
    /// What in it is refused, and why: the path begins at the value that is left out.
    pub blame: JsonBlame,
}

/// Writes where in a value that is left out the refused one is, if it isn't the former itself.
fn write_path_within<W: fmt::Write>(f: &mut fmt::Formatter<W>, path: &[JsonStep]) -> fmt::Result
    ensures { DisplaysOnOk W.write_str_gives f.old result (path_within path.now) f.new }
{
    if path.is_empty() {
        return Ok(());
    }
    f.write_str("at ")?;
    write_path(f, path)?;
    f.write_str(" ")
}

impl fmt::Display for DroppedValue {
    ghost output = { dropped_text };

    fn fmt<W: fmt::Write>(&self, f: &mut fmt::Formatter<W>) -> fmt::Result {
        write_path(f, self.path.as_slice())?;
        f.write_str(": ")?;
        write_path_within(f, self.blame.path.as_slice())?;
        write!(f, "{}", self.blame.reason)
    }
}

impl JsonStep {
    fn try_clone(&self, alloc: Global) -> Result<JsonStep, OutOfMemory>
        ensures { IfOk result (λ step. step_of step ≡ step_of self.now) }
    {
        match self {
            JsonStep::Member(name) => Ok(JsonStep::Member(name)),
            JsonStep::Named(name) => Ok(JsonStep::Named(name.try_clone(alloc)?)),
            JsonStep::Element(index) => Ok(JsonStep::Element(*index)),
        }
    }
}

/// Appends what is left out of a part, to which the step leads.
pub(crate) fn append_part(
    alloc: Global,
    dropped: &mut Vec<DroppedValue>,
    step: &JsonStep,
    part: Vec<DroppedValue>,
) -> Result<(), OutOfMemory>
    ensures { (os : List LeftOut) → AreDropped os (map told part.items)
        → OnOk result (Adds (map (under (step_of step.now)) os) dropped.old.items dropped.new.items) }
{
    for inner in part {
        let DroppedValue { mut path, blame } = inner;
        path.insert(0, step.try_clone(alloc)?)?;
        dropped.push(DroppedValue { path, blame })?;
    }
    Ok(())
}

/// Appends what the type leaves out of a part, to which the step leads.
pub(crate) fn append_as<T: FromJson>(
    alloc: Global,
    dropped: &mut Vec<DroppedValue>,
    step: JsonStep,
    part: &Value,
) -> Result<(), OutOfMemory>
    ensures { OnOk result (Adds (map (under (step_of step)) (spec.dropped T.shape (view part.now)))
        dropped.old.items dropped.new.items) }
{
    append_part(alloc, dropped, &step, T::dropped(alloc, part)?)
}
