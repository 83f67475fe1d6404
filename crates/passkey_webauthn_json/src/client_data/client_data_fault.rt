//! Why client data wasn't decoded from bytes.
ghost use Rattle.std.specs.Prelude.{◌≡◌};
ghost use Rattle.passkey_webauthn_json.specs.client_data.ClientDataBytes.{client_data_fault_of};
ghost use Rattle.passkey_webauthn_json.specs.declared.client_data.client_data_fault.ClientDataFault.TheVariants.{OutOfMemory as NoMemory};

use passkey_json::JsonFault;
use passkey_memory::OutOfMemory;
use std::alloc::{AllocError, AllocFailed};
use thiserror::Error;

/// Why client data wasn't decoded from bytes.
#[derive(Clone, Copy, Debug, Error, PartialEq, Eq)]
pub enum ClientDataFault {
    /// The bytes aren't UTF-8, or aren't a JSON text of at most 127 nesting levels (RFC 8259).
    #[error("BadJson")]
    BadJson,
    /// The JSON value is rejected with this fault, which is never `OutOfMemory`.
    #[error(transparent)]
    Refused(JsonFault),
    /// An allocation failed.
    #[error("OutOfMemory")]
    OutOfMemory,
}

impl From<JsonFault> for ClientDataFault {
    ghost from_gives = { λ fault e. e ≡ client_data_fault_of fault };

    fn from(fault: JsonFault) -> ClientDataFault {
        match fault {
            JsonFault::OutOfMemory => ClientDataFault::OutOfMemory,
            refusal => ClientDataFault::Refused(refusal),
        }
    }
}

impl From<AllocError> for ClientDataFault {
    ghost from_gives = { λ _ e. e ≡ NoMemory };

    fn from(_error: AllocError) -> ClientDataFault {
        ClientDataFault::OutOfMemory
    }
}

impl<T: Drop> From<AllocFailed<T>> for ClientDataFault {
    ghost from_gives = { λ _ e. e ≡ NoMemory };

    fn from(_error: AllocFailed<T>) -> ClientDataFault {
        ClientDataFault::OutOfMemory
    }
}

impl From<OutOfMemory> for ClientDataFault {
    ghost from_gives = { λ _ e. e ≡ NoMemory };

    fn from(_error: OutOfMemory) -> ClientDataFault {
        ClientDataFault::OutOfMemory
    }
}
