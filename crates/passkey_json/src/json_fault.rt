//! Why a record wasn't decoded from a JSON value.
ghost use Rattle.std.specs.Prelude.{◌≡◌};
ghost use Rattle.passkey_json.specs.Names.{json_fault_name};
ghost use Rattle.passkey_json.specs.declared.json_fault.JsonFault.TheVariants.{OutOfMemory as NoMemory};

use passkey_memory::MemoryError;
use std::error::Error;
use std::fmt;

/// Why a record wasn't decoded from a JSON value. A member is given by its name in the record that
/// was asked for, however deeply the fault is nested in it.
#[derive(Clone, Copy, Debug, PartialEq, Eq)]
pub enum JsonFault {
    /// An allocation failed.
    OutOfMemory,
    /// The JSON value isn't an object.
    NotAnObject,
    /// This required member is absent.
    Missing(&'static str),
    /// This member's value is rejected, and contains no float: it has another type, isn't one of
    /// the accepted values, or is an object with a fault of its own.
    Refused(&'static str),
    /// This member's value is rejected, and contains a number that isn't an integer of 64 bits.
    Float(&'static str),
    /// This member has two names, and is present under both of them.
    Repeated(&'static str),
}

impl fmt::Display for JsonFault {
    ghost output = { json_fault_name };

    fn fmt<W: fmt::Write>(&self, f: &mut fmt::Formatter<W>) -> fmt::Result {
        match self {
            JsonFault::OutOfMemory => f.write_str("OutOfMemory"),
            JsonFault::NotAnObject => f.write_str("NotAnObject"),
            JsonFault::Missing(name) => write!(f, "Missing({name:?})"),
            JsonFault::Refused(name) => write!(f, "Refused({name:?})"),
            JsonFault::Float(name) => write!(f, "Float({name:?})"),
            JsonFault::Repeated(name) => write!(f, "Repeated({name:?})"),
        }
    }
}

impl Error for JsonFault {}

impl<E: MemoryError> From<E> for JsonFault {
    ghost from_gives = { λ _ e. e ≡ NoMemory };

    fn from(_error: E) -> JsonFault {
        JsonFault::OutOfMemory
    }
}
