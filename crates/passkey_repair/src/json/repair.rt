//! Repairs: a deviation, and the member that may have it.
ghost use Rattle.std.specs.Prelude.{Some};
ghost use Rattle.passkey_repair.specs.json.Texts.{repair_text};

use crate::json::deviation::Deviation;
use std::fmt;

/// A deviation, and the member that may have it.
#[derive(Clone, Copy)]
pub struct Repair {
    /// The deviation.
    pub deviation: Deviation,
    /// The names of the objects around the member, from the outermost.
    pub within: &'static [&'static str],
    /// The member's name.
    pub member: &'static str,
}

impl fmt::Display for Repair {
    ghost output = { λ r. Some (repair_text r) };

    /// Writes the member's place, and the deviation: `publicKey.timeout: null, left out`.
    fn fmt<W: fmt::Write>(&self, f: &mut fmt::Formatter<W>) -> fmt::Result {
        for name in self.within {
            write!(f, "{name}.")?;
        }
        write!(f, "{}: {}", self.member, self.deviation)
    }
}
