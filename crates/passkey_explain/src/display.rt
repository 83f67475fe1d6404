//! Explanations as a person reads them.
ghost use Rattle.std.specs.Prelude.{Some, false, flat_map, map};
ghost use Rattle.std.specs.Fmt.{WritesOnOk};
ghost use Rattle.passkey_explain.specs.Blame.{blame_of, step_of};
ghost use Rattle.passkey_explain.specs.Texts.{blame_text, dropped_text, explanation_text, extent_text, path_before, path_text};
ghost use Rattle.passkey_explain.specs.Texts.{path_within, reason_text, refused_text, step_text};

use crate::{Blame, DroppedItem, Explanation, Extent, Reason, RefusedItem, Step};
use passkey_kinds::Fault;
use std::fmt;

/// Writes a step after those before it: a member by its name, and an element by its index.
fn write_step<W: fmt::Write>(f: &mut fmt::Formatter<W>, is_first: bool, step: &Step) -> fmt::Result
    ensures { WritesOnOk W.write_str_gives f.old result (step_text is_first (step_of step.now)) f.new }
{
    match step {
        Step::Element(index) => write!(f, "[{index}]"),
        Step::Member(_, _, name) => {
            if !is_first {
                f.write_str(".")?;
            }
            f.write_str(name)
        }
        Step::Value(index) => write!(f, "(value {index})"),
        Step::Key(index) => write!(f, "(key {index})"),
    }
}

/// Writes steps that follow another one.
fn write_steps<W: fmt::Write>(f: &mut fmt::Formatter<W>, steps: &[Step]) -> fmt::Result
    ensures { WritesOnOk W.write_str_gives f.old result
        (flat_map (step_text false) (map step_of steps.now)) f.new }
{
    for step in steps {
        write_step(f, false, step)?;
    }
    Ok(())
}

fn write_path<W: fmt::Write>(f: &mut fmt::Formatter<W>, path: &[Step]) -> fmt::Result
    ensures { WritesOnOk W.write_str_gives f.old result (path_text (map step_of path.now)) f.new }
{
    match path.split_first() {
        Some((first, rest)) => {
            write_step(f, true, first)?;
            write_steps(f, rest)
        }
        None => Ok(()),
    }
}

/// Writes a path, if there is one, before what is said of the item there.
fn write_path_before<W: fmt::Write>(f: &mut fmt::Formatter<W>, path: &[Step]) -> fmt::Result
    ensures { WritesOnOk W.write_str_gives f.old result (path_before (map step_of path.now)) f.new }
{
    if path.is_empty() {
        return Ok(());
    }
    write_path(f, path)?;
    f.write_str(": ")
}

/// Writes where in a dropped item the refused one is, if it isn't the dropped one itself.
fn write_path_within<W: fmt::Write>(f: &mut fmt::Formatter<W>, path: &[Step]) -> fmt::Result
    ensures { WritesOnOk W.write_str_gives f.old result (path_within (map step_of path.now)) f.new }
{
    if path.is_empty() {
        return Ok(());
    }
    f.write_str("at ")?;
    write_path(f, path)?;
    f.write_str(" ")
}

impl fmt::Display for Reason {
    ghost output = { λ reason. Some (reason_text reason) };

    fn fmt<W: fmt::Write>(&self, f: &mut fmt::Formatter<W>) -> fmt::Result {
        match self {
            Reason::Wanted(wanted) => write!(f, "{wanted} is wanted"),
            Reason::Fault(Fault::NotAMap) => f.write_str("a map is wanted"),
            Reason::Fault(Fault::BadKey) => f.write_str("this key names no member"),
            Reason::Fault(Fault::Repeated(number)) => write!(f, "member {number} is repeated"),
            Reason::Fault(Fault::Missing(number)) => write!(f, "member {number} is missing"),
            Reason::Fault(fault) => write!(f, "{fault}"),
        }
    }
}

impl fmt::Display for Blame {
    ghost output = { λ blame. Some (blame_text (blame_of blame)) };

    fn fmt<W: fmt::Write>(&self, f: &mut fmt::Formatter<W>) -> fmt::Result {
        write_path_before(f, self.path.as_slice())?;
        write!(f, "{}", self.reason)
    }
}

impl fmt::Display for Extent {
    ghost output = { λ extent. Some (extent_text extent) };

    fn fmt<W: fmt::Write>(&self, f: &mut fmt::Formatter<W>) -> fmt::Result {
        write!(f, "(offset {}, length {})", self.offset, self.len)
    }
}

impl fmt::Display for RefusedItem {
    ghost output = { λ item. Some (refused_text item) };

    fn fmt<W: fmt::Write>(&self, f: &mut fmt::Formatter<W>) -> fmt::Result {
        write!(f, "{} {}", self.blame, self.extent)
    }
}

impl fmt::Display for DroppedItem {
    ghost output = { λ item. Some (dropped_text item) };

    fn fmt<W: fmt::Write>(&self, f: &mut fmt::Formatter<W>) -> fmt::Result {
        write_path(f, self.path.as_slice())?;
        write!(f, " {}: ", self.extent)?;
        write_path_within(f, self.blame.path.as_slice())?;
        write!(f, "{}", self.blame.reason)
    }
}

impl fmt::Display for Explanation {
    ghost output = { λ explanation. Some (explanation_text explanation) };

    fn fmt<W: fmt::Write>(&self, f: &mut fmt::Formatter<W>) -> fmt::Result {
        match self {
            Explanation::NotWellFormed(malformed) => write!(f, "{malformed}"),
            Explanation::Refused(item) => write!(f, "{item}"),
        }
    }
}
