//! Why a run of the program failed.

use crate::options::Output;
use passkey_memory::OutOfMemory;
use passkey_rewrite::RunFault;
use std::alloc::{AllocError, AllocFailed, Global};
use std::fmt;

/// Why a run failed. Each fault has an exit status and text on standard error.
#[derive(Debug, Drop)]
pub enum InspectFault {
    /// As in `passkey_show`.
    Run(RunFault),
    /// The kind refuses the message. The text has the kind and the fault in a line, and in another
    /// which item, and what is wanted there, where a table tells it; status 1.
    Refused(String),
    /// The same, with what is printed all the same on standard output: a page of HTML that shows it, or
    /// what was asked for of bytes that aren't in canonical form; status 1.
    RefusedPrinted(String, String),
    /// So many lines were refused; status 1.
    RefusedLines(u64),
    /// The input isn't base64; status 1.
    BadBase64,
    /// An argument is none of the program's; status 2.
    BadArguments,
    /// What was to be printed can only be printed of bytes, and the input is JSON; status 2.
    BytesOnly(Output),
    /// A name that should be a kind's isn't; the text says so; status 2.
    NoKind(String),
    /// There is no file of the name, and it is no kind's; the text says so; status 4.
    NoFile(String),
}

fn with_line(mut text: String, line: &str) -> Result<String, OutOfMemory> {
    text.push('\n')?;
    text.push_str(line)?;
    Ok(text)
}

impl InspectFault {
    /// Returns the fault for an input that this kind refuses, for the reason in the text.
    pub fn refused(alloc: Global, kind: &str, text: &str) -> Result<InspectFault, OutOfMemory> {
        Ok(InspectFault::Refused(format!(in alloc; "{kind} refuses it: {text}")?))
    }

    /// Returns the fault with another line.
    pub fn with_line(self, line: &str) -> Result<InspectFault, OutOfMemory> {
        match self {
            InspectFault::Refused(text) => Ok(InspectFault::Refused(with_line(text, line)?)),
            InspectFault::RefusedPrinted(text, printed) => {
                Ok(InspectFault::RefusedPrinted(with_line(text, line)?, printed))
            }
            fault => Ok(fault),
        }
    }

    /// Returns what goes to standard output all the same.
    pub fn output(&self) -> &str {
        match self {
            InspectFault::RefusedPrinted(_, printed) => printed.as_str(),
            _ => "",
        }
    }

    /// Returns the exit status, 1 to 4.
    pub fn status(&self) -> u8 {
        match self {
            InspectFault::Run(fault) => fault.status(),
            InspectFault::Refused(_)
            | InspectFault::RefusedPrinted(_, _)
            | InspectFault::RefusedLines(_)
            | InspectFault::BadBase64 => 1,
            InspectFault::BadArguments | InspectFault::BytesOnly(_) | InspectFault::NoKind(_) => 2,
            InspectFault::NoFile(_) => 4,
        }
    }
}

impl fmt::Display for InspectFault {
    fn fmt<W: fmt::Write>(&self, f: &mut fmt::Formatter<W>) -> fmt::Result {
        match self {
            InspectFault::Run(fault) => write!(f, "{fault}"),
            InspectFault::Refused(text)
            | InspectFault::RefusedPrinted(text, _)
            | InspectFault::NoKind(text)
            | InspectFault::NoFile(text) => f.write_str(text.as_str()),
            InspectFault::RefusedLines(count) => write!(f, "lines refused: {count}"),
            InspectFault::BadBase64 => f.write_str("BadBase64"),
            InspectFault::BadArguments => f.write_str("bad arguments; --help lists them"),
            InspectFault::BytesOnly(output) => {
                let option = output.option();
                write!(f, "{option} is for bytes, and the input is JSON")
            }
        }
    }
}

impl From<RunFault> for InspectFault {
    fn from(fault: RunFault) -> InspectFault {
        InspectFault::Run(fault)
    }
}

impl From<OutOfMemory> for InspectFault {
    fn from(_error: OutOfMemory) -> InspectFault {
        InspectFault::Run(RunFault::OutOfMemory)
    }
}

impl From<AllocError> for InspectFault {
    fn from(_error: AllocError) -> InspectFault {
        InspectFault::Run(RunFault::OutOfMemory)
    }
}

impl<T: Drop> From<AllocFailed<T>> for InspectFault {
    fn from(_error: AllocFailed<T>) -> InspectFault {
        InspectFault::Run(RunFault::OutOfMemory)
    }
}
