//! What in a JSON value is to blame.
ghost use Rattle.std.specs.Fmt.{DisplaysOnOk};
ghost use Rattle.std.specs.Prelude.{◌≡◌, ◌∷◌, [], IfOk, Some};
ghost use Rattle.passkey_json.specs.Blame.{path_of, step_of};
ghost use Rattle.passkey_json.specs.BlameTexts.{blame_text, path_before, path_text, reason_text, step_text, steps_text};
ghost use Rattle.passkey_json.specs.declared.blame.JsonReason.TheVariants.{Wanted};

use crate::wanted::WantedJson;
use passkey_bytes::Text;
use passkey_memory::OutOfMemory;
use std::alloc::Global;
use std::fmt;

/// A step from a JSON value into it.
#[derive(Debug, Drop)]
pub enum JsonStep {
    /// To a member that the record knows, by the name under which it is present.
    Member(&'static str),
    /// To a member of an object that isn't a record.
    Named(Text),
    /// To an element of an array, counted from 0.
    Element(usize),
}

/// Why a JSON value is to blame.
#[derive(Clone, Copy, Debug, PartialEq, Eq)]
pub enum JsonReason {
    /// It isn't what is wanted.
    Wanted(WantedJson),
    /// It is an object that lacks this required member.
    Missing(&'static str),
    /// It is an object in which this member is present under both of its names.
    Repeated(&'static str),
}

/// What in a JSON value is to blame for a refusal: the innermost value that is refused.
#[derive(Debug, Drop)]
pub struct JsonBlame {
    /// The steps to it, from the outermost.
    pub path: Vec<JsonStep>,
    /// Why it is refused.
    pub reason: JsonReason,
}

impl JsonBlame {
    /// The value itself is to blame, for this reason.
    pub fn whole(alloc: Global, reason: JsonReason) -> JsonBlame
        ensures path { path_of result ≡ [] }
        ensures reason { result.reason ≡ reason }
    {
        JsonBlame {
            path: Vec::new(alloc),
            reason,
        }
    }

    /// The value itself is to blame, of which this is wanted.
    pub fn wanted(alloc: Global, wanted: WantedJson) -> JsonBlame
        ensures path { path_of result ≡ [] }
        ensures reason { result.reason ≡ Wanted wanted }
    {
        JsonBlame::whole(alloc, JsonReason::Wanted(wanted))
    }

    /// The same, as seen from the value around: the step leads from that to this one. Returns
    /// `OutOfMemory` if an allocation fails.
    pub fn under(self, step: JsonStep) -> Result<JsonBlame, OutOfMemory>
        ensures { IfOk result (λ b. (path_of b ≡ step_of step ∷ path_of self) × (b.reason ≡ self.reason)) }
    {
        let JsonBlame { mut path, reason } = self;
        path.insert(0, step)?;
        Ok(JsonBlame { path, reason })
    }
}

/// Writes a step after those before it: a member by its name, and an element by its index.
fn write_step<W: fmt::Write>(
    f: &mut fmt::Formatter<W>,
    is_first: bool,
    step: &JsonStep,
) -> fmt::Result
    ensures { DisplaysOnOk W.write_str_gives f.old result (step_text is_first step.now) f.new }
{
    match step {
        JsonStep::Element(index) => write!(f, "[{index}]"),
        JsonStep::Named(name) => write!(f, "[{name:?}]"),
        JsonStep::Member(name) => {
            if !is_first {
                f.write_str(".")?;
            }
            f.write_str(name)
        }
    }
}

/// Writes steps that follow another one.
fn write_steps<W: fmt::Write>(f: &mut fmt::Formatter<W>, steps: &[JsonStep]) -> fmt::Result
    ensures { DisplaysOnOk W.write_str_gives f.old result (steps_text steps.now) f.new }
{
    for step in steps {
        write_step(f, false, step)?;
    }
    Ok(())
}

/// Writes the steps of a path.
pub(crate) fn write_path<W: fmt::Write>(f: &mut fmt::Formatter<W>, path: &[JsonStep]) -> fmt::Result
    ensures { DisplaysOnOk W.write_str_gives f.old result (path_text path.now) f.new }
{
    match path.split_first() {
        Some((first, rest)) => {
            write_step(f, true, first)?;
            write_steps(f, rest)
        }
        None => Ok(()),
    }
}

/// Writes a path, if there is one, before what is said of the value there.
fn write_path_before<W: fmt::Write>(f: &mut fmt::Formatter<W>, path: &[JsonStep]) -> fmt::Result
    ensures { DisplaysOnOk W.write_str_gives f.old result (path_before path.now) f.new }
{
    if path.is_empty() {
        return Ok(());
    }
    write_path(f, path)?;
    f.write_str(": ")
}

impl fmt::Display for JsonReason {
    ghost output = { λ reason. Some (reason_text reason) };

    fn fmt<W: fmt::Write>(&self, f: &mut fmt::Formatter<W>) -> fmt::Result {
        match self {
            JsonReason::Wanted(wanted) => write!(f, "{wanted} is wanted"),
            JsonReason::Missing(name) => write!(f, "{name} is missing"),
            JsonReason::Repeated(name) => write!(f, "{name} is present under both of its names"),
        }
    }
}

impl fmt::Display for JsonBlame {
    ghost output = { blame_text };

    fn fmt<W: fmt::Write>(&self, f: &mut fmt::Formatter<W>) -> fmt::Result {
        write_path_before(f, self.path.as_slice())?;
        write!(f, "{}", self.reason)
    }
}
