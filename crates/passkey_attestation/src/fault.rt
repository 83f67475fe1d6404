//! Why an attestation statement was not decoded.
ghost use Rattle.std.specs.Prelude.{◌≡◌, Some};
ghost use Rattle.passkey_attestation.specs.Fault.{statement_fault, statement_fault_name};
ghost use Rattle.passkey_attestation.specs.declared.fault.StatementFault.TheVariants.{OutOfMemory as NoMemory};

use passkey_kinds::{Fault, OutOfMemory};
use std::{error, fmt};

/// Why an attestation statement was not decoded.
#[derive(Clone, Copy, Debug, PartialEq, Eq)]
pub enum StatementFault {
    /// An allocation failed.
    OutOfMemory,
    /// The map of the statement has this fault, which isn't `OutOfMemory`. It is written as that
    /// fault.
    Member(Fault),
    /// The statement of the format none has members.
    NotEmpty,
    /// The statement of the format compound isn't an array of at least two maps with `fmt` and
    /// `attStmt`, or an element's `fmt` is compound.
    NotCompound,
}

impl From<Fault> for StatementFault {
    ghost from_gives = { λ f e. e ≡ statement_fault f };

    fn from(fault: Fault) -> StatementFault {
        match fault {
            Fault::OutOfMemory => StatementFault::OutOfMemory,
            fault => StatementFault::Member(fault),
        }
    }
}

impl From<OutOfMemory> for StatementFault {
    ghost from_gives = { λ _ e. e ≡ NoMemory };

    fn from(_error: OutOfMemory) -> StatementFault {
        StatementFault::OutOfMemory
    }
}

impl fmt::Display for StatementFault {
    ghost output = { λ e. Some (statement_fault_name e) };

    fn fmt<W: fmt::Write>(&self, f: &mut fmt::Formatter<W>) -> fmt::Result {
        match self {
            StatementFault::OutOfMemory => f.write_str("OutOfMemory"),
            StatementFault::Member(fault) => fault.fmt(f),
            StatementFault::NotEmpty => f.write_str("NotEmpty"),
            StatementFault::NotCompound => f.write_str("NotCompound"),
        }
    }
}

impl error::Error for StatementFault {}
