//! Repairs: a deviation, and what becomes of it.
ghost use Rattle.std.specs.Prelude.{◌≡◌, IfOk, Some, flat_map};
ghost use Rattle.std.specs.Fmt.{WritesOnOk};
ghost use Rattle.passkey_cbor.specs.View.{item_of};
ghost use Rattle.passkey_repair.specs.messages.Edit.{Edits, edited};
ghost use Rattle.passkey_repair.specs.messages.Texts.{added_text, change_text, left_out_text, next_text, place_text, repair_text, replaced_text};
ghost use Rattle.passkey_repair.specs.messages.Views.{edit_of};

use crate::messages::place::change_at;
use crate::messages::{Change, Deviation, Key, Literal};
use passkey_cbor::Value;
use passkey_memory::OutOfMemory;
use std::alloc::Global;
use std::fmt;

/// A repair of a message: the deviation, the place at which it is, and what becomes of it. Displayed
/// as `user.displayName: absent, read as an empty text`, with the deviation in parentheses.
#[derive(Clone, Copy, Debug)]
pub struct Repair {
    /// The deviation.
    pub deviation: Deviation,
    /// The map keys on the way from the message to the data item that is changed.
    pub path: &'static [Key],
    /// What becomes of it.
    pub change: Change,
}

impl Repair {
    /// Repairs the data item of a message, if the repair fits, and returns it with whether it does.
    /// Returns `OutOfMemory` if an allocation fails.
    pub fn make(&self, alloc: Global, value: Value) -> Result<(Value, bool), OutOfMemory>
        ensures { IfOk result (λ r. Edits (edited (edit_of self.now) (item_of value)) (item_of value)
            (item_of r.0) r.1) }
    {
        change_at(alloc, self.path, &self.change, value)
    }
}

/// Writes keys that follow another one.
fn write_keys<W: fmt::Write>(f: &mut fmt::Formatter<W>, keys: &[Key]) -> fmt::Result
    ensures { WritesOnOk W.write_str_gives f.old result (flat_map next_text keys.now) f.new }
{
    for key in keys {
        f.write_str(".")?;
        write!(f, "{key}")?;
    }
    Ok(())
}

fn write_place<W: fmt::Write>(f: &mut fmt::Formatter<W>, path: &[Key]) -> fmt::Result
    ensures { WritesOnOk W.write_str_gives f.old result (place_text path.now) f.new }
{
    match path.split_first() {
        Some((first, rest)) => {
            write!(f, "{first}")?;
            write_keys(f, rest)
        }
        None => Ok(()),
    }
}

fn write_replaced<W: fmt::Write>(
    f: &mut fmt::Formatter<W>,
    from: Literal,
    to: Literal,
) -> fmt::Result
    ensures { WritesOnOk W.write_str_gives f.old result (replaced_text from to) f.new }
{
    write!(f, ": {from}, read as {to}")
}

fn write_added<W: fmt::Write>(f: &mut fmt::Formatter<W>, name: &str, value: Literal) -> fmt::Result
    ensures { WritesOnOk W.write_str_gives f.old result (added_text name.now value) f.new }
{
    write!(f, ".{name}: absent")?;
    write!(f, ", read as {value}")
}

fn write_left_out<W: fmt::Write>(
    f: &mut fmt::Formatter<W>,
    name: &str,
    value: Literal,
) -> fmt::Result
    ensures { WritesOnOk W.write_str_gives f.old result (left_out_text name.now value) f.new }
{
    write!(f, ".{name}: {value}, read as absent")
}

fn write_change<W: fmt::Write>(f: &mut fmt::Formatter<W>, change: Change) -> fmt::Result
    ensures { WritesOnOk W.write_str_gives f.old result (change_text change) f.new }
{
    match change {
        Change::Replace(from, to) => write_replaced(f, from, to),
        Change::Add(name, _, value) => write_added(f, name, value),
        Change::LeaveOut(name, value) => write_left_out(f, name, value),
    }
}

impl fmt::Display for Repair {
    ghost output = { λ repair. Some (repair_text repair) };

    fn fmt<W: fmt::Write>(&self, f: &mut fmt::Formatter<W>) -> fmt::Result {
        write_place(f, self.path)?;
        write_change(f, self.change)?;
        write!(f, " ({})", self.deviation)
    }
}
