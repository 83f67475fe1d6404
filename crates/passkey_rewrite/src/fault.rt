//! Why a run failed.
ghost use Rattle.std.specs.Prelude.{◌≡◌};
ghost use Rattle.passkey_cose.specs.CoseErrors.{cose_error_of};
ghost use Rattle.passkey_rewrite.specs.Fault.{status_of, line_of, client_data_fault_of, fault_of, json_fault_of, message_fault_of};
ghost use Rattle.passkey_rewrite.specs.declared.fault.RunFault.TheVariants.{OutOfMemory as NoMemory};

use passkey_cbor::CborError;
use passkey_cose::CoseError;
use passkey_json::JsonFault;
use passkey_kinds::Fault;
use passkey_webauthn_json::client_data::ClientDataFault;
use std::alloc::{AllocError, AllocFailed};
use std::error::Error;
use std::fmt;

/// Why a run failed. Each fault has an exit status and a line on standard error.
#[derive(Clone, Copy, Debug, PartialEq, Eq)]
pub enum RunFault {
    /// The bytes aren't a data item, or aren't authenticator data. The line is the error's name;
    /// status 1.
    Refused(CoseError),
    /// The bytes aren't a message of the kind. The line is the fault's name with the member's
    /// number, if it has one, such as `Repeated(1)`; status 1.
    MessageRefused(Fault),
    /// The kind rejects the JSON value. The line is the fault's name with the member's name, if it
    /// has one, such as `Missing("challenge")`; status 1.
    JsonRefused(JsonFault),
    /// The input isn't hexadecimal. The line is `BadHex`; status 1.
    BadHex,
    /// The input isn't a JSON text. The line is `BadJson`; status 1.
    BadJson,
    /// There isn't exactly one argument, or it isn't the name of a kind. The line is `unknown
    /// kind`; status 2.
    UnknownKind,
    /// An allocation failed. The line is `OutOfMemory`; status 3.
    OutOfMemory,
    /// Reading failed, or the input didn't end within 2^32 - 1 reads. The line is `input failed`;
    /// status 4.
    InputFailed,
    /// Writing failed, or a write took no byte. The line is `output failed`; status 4.
    OutputFailed,
}

impl RunFault {
    /// Returns the exit status, 1 to 4.
    pub fn status(&self) -> u8
        ensures { result ≡ status_of self.now }
    {
        match self {
            RunFault::Refused(_)
            | RunFault::MessageRefused(_)
            | RunFault::JsonRefused(_)
            | RunFault::BadHex
            | RunFault::BadJson => 1,
            RunFault::UnknownKind => 2,
            RunFault::OutOfMemory => 3,
            RunFault::InputFailed | RunFault::OutputFailed => 4,
        }
    }
}

/// The line on standard error, without its line feed.
impl fmt::Display for RunFault {
    ghost output = { line_of };

    fn fmt<W: fmt::Write>(&self, f: &mut fmt::Formatter<W>) -> fmt::Result {
        match self {
            RunFault::Refused(refusal) => refusal.fmt(f),
            RunFault::MessageRefused(fault) => fault.fmt(f),
            RunFault::JsonRefused(fault) => fault.fmt(f),
            RunFault::BadHex => f.write_str("BadHex"),
            RunFault::BadJson => f.write_str("BadJson"),
            RunFault::UnknownKind => f.write_str("unknown kind"),
            RunFault::OutOfMemory => f.write_str("OutOfMemory"),
            RunFault::InputFailed => f.write_str("input failed"),
            RunFault::OutputFailed => f.write_str("output failed"),
        }
    }
}

impl Error for RunFault {}

/// Running out of memory isn't a rejection.
impl From<CoseError> for RunFault {
    ghost from_gives = { λ error fault. fault ≡ fault_of error };

    fn from(error: CoseError) -> RunFault {
        match error {
            CoseError::OutOfMemory => RunFault::OutOfMemory,
            refusal => RunFault::Refused(refusal),
        }
    }
}

impl From<CborError> for RunFault {
    ghost from_gives = { λ error fault. fault ≡ fault_of (cose_error_of error) };

    fn from(error: CborError) -> RunFault {
        RunFault::from(CoseError::from(error))
    }
}

impl From<Fault> for RunFault {
    ghost from_gives = { λ error fault. fault ≡ message_fault_of error };

    fn from(error: Fault) -> RunFault {
        match error {
            Fault::OutOfMemory => RunFault::OutOfMemory,
            refusal => RunFault::MessageRefused(refusal),
        }
    }
}

impl From<JsonFault> for RunFault {
    ghost from_gives = { λ error fault. fault ≡ json_fault_of error };

    fn from(error: JsonFault) -> RunFault {
        match error {
            JsonFault::OutOfMemory => RunFault::OutOfMemory,
            refusal => RunFault::JsonRefused(refusal),
        }
    }
}

impl From<ClientDataFault> for RunFault {
    ghost from_gives = { λ error fault. fault ≡ client_data_fault_of error };

    fn from(error: ClientDataFault) -> RunFault {
        match error {
            ClientDataFault::BadJson => RunFault::BadJson,
            ClientDataFault::OutOfMemory => RunFault::OutOfMemory,
            ClientDataFault::Refused(fault) => RunFault::from(fault),
        }
    }
}

impl From<passkey_memory::OutOfMemory> for RunFault {
    ghost from_gives = { λ _ fault. fault ≡ NoMemory };

    fn from(_error: passkey_memory::OutOfMemory) -> RunFault {
        RunFault::OutOfMemory
    }
}

impl From<AllocError> for RunFault {
    ghost from_gives = { λ _ fault. fault ≡ NoMemory };

    fn from(_error: AllocError) -> RunFault {
        RunFault::OutOfMemory
    }
}

impl<T: Drop> From<AllocFailed<T>> for RunFault {
    ghost from_gives = { λ _ fault. fault ≡ NoMemory };

    fn from(_error: AllocFailed<T>) -> RunFault {
        RunFault::OutOfMemory
    }
}
