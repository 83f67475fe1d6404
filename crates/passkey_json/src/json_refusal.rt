//! Why a value wasn't decoded from a JSON value.
ghost use Rattle.std.specs.Prelude.{◌≡◌};
ghost use Rattle.passkey_json.specs.Fault.{refusal_of};
ghost use Rattle.passkey_json.specs.declared.json_refusal.JsonRefusal.TheVariants.{OutOfMemory as NoMemory};

use crate::json_fault::JsonFault;
use passkey_memory::OutOfMemory;
use std::alloc::{AllocError, AllocFailed};
use thiserror::Error;

/// Why a value wasn't decoded from a JSON value.
#[derive(Clone, Copy, Debug, Error, PartialEq, Eq)]
pub enum JsonRefusal {
    /// The JSON value doesn't decode to a value of the type.
    #[error("Refused")]
    Refused,
    /// An allocation failed.
    #[error("OutOfMemory")]
    OutOfMemory,
}

impl From<AllocError> for JsonRefusal {
    ghost from_gives = { λ _ e. e ≡ NoMemory };

    fn from(_error: AllocError) -> JsonRefusal {
        JsonRefusal::OutOfMemory
    }
}

impl<T: Drop> From<AllocFailed<T>> for JsonRefusal {
    ghost from_gives = { λ _ e. e ≡ NoMemory };

    fn from(_error: AllocFailed<T>) -> JsonRefusal {
        JsonRefusal::OutOfMemory
    }
}

impl From<OutOfMemory> for JsonRefusal {
    ghost from_gives = { λ _ e. e ≡ NoMemory };

    fn from(_error: OutOfMemory) -> JsonRefusal {
        JsonRefusal::OutOfMemory
    }
}

impl From<JsonFault> for JsonRefusal {
    ghost from_gives = { λ fault e. e ≡ refusal_of fault };

    /// Returns the refusal of a record inside another one: `Refused` for any fault but
    /// `OutOfMemory`.
    fn from(fault: JsonFault) -> JsonRefusal {
        match fault {
            JsonFault::OutOfMemory => JsonRefusal::OutOfMemory,
            _ => JsonRefusal::Refused,
        }
    }
}
