//! The statuses of calls that decode.
ghost use Rattle.std.specs.Prelude.{◌≡◌, ◌+◌, ◌*◌, ◌<◌};
ghost use Rattle.passkey_c.specs.Statuses.{data_status, denial_status, json_status, message_status, statement_status, status_of, values_status};

use passkey_attestation::StatementFault;
use passkey_catalogue::ValuesFault;
use passkey_cose::CoseError;
use passkey_json::JsonFault;
use passkey_kinds::Fault;
use passkey_malformed::Rule;
use passkey_rewrite::RunFault;

/// Why nothing is written.
#[derive(Clone, Copy, Debug, PartialEq, Eq)]
pub(crate) enum Denial {
    /// The input has this fault.
    Fault(RunFault),
    /// It has none, but isn't as is asked, by this rule.
    NotCanonical(Rule),
}

/// Returns the status of a fault at the member with this number.
fn at_member(status: u32, number: u8) -> u32
    requires { status < 256 }
    ensures { result ≡ status + 256 * number }
{
    status + 256 * u32::from(number)
}

/// Returns the status of a message's fault.
pub(crate) fn message_status(fault: Fault) -> u32
    ensures { result ≡ message_status fault }
{
    match fault {
        Fault::OutOfMemory => 2,
        Fault::DecodeFailed => 16,
        Fault::NotAMap => 17,
        Fault::BadKey => 18,
        Fault::Repeated(number) => at_member(19, number),
        Fault::Refused(number) => at_member(20, number),
        Fault::Missing(number) => at_member(21, number),
    }
}

/// Returns the status of the fault of a data item or of authenticator data.
pub(crate) fn data_status(error: CoseError) -> u32
    ensures { result ≡ data_status error }
{
    match error {
        CoseError::OutOfMemory => 2,
        CoseError::DecodeFailed => 16,
        CoseError::OutOfRangeIntegerValue => 22,
        CoseError::DuplicateMapKey => 23,
        CoseError::UnexpectedItem => 24,
    }
}

/// Returns the status of the fault of an attestation statement.
pub(crate) fn statement_status(fault: StatementFault) -> u32
    ensures { result ≡ statement_status fault }
{
    match fault {
        StatementFault::OutOfMemory => 2,
        StatementFault::Member(fault) => message_status(fault),
        StatementFault::NotEmpty | StatementFault::NotCompound => {
            data_status(CoseError::UnexpectedItem)
        }
    }
}

/// Returns the status of the fault of a JSON value.
pub(crate) fn json_status(fault: JsonFault) -> u32
    ensures { result ≡ json_status fault }
{
    match fault {
        JsonFault::OutOfMemory => 2,
        JsonFault::NotAnObject => 17,
        JsonFault::Repeated(_) => 19,
        JsonFault::Refused(_) => 20,
        JsonFault::Missing(_) => 21,
        JsonFault::Float(_) => 25,
    }
}

/// Returns the status of a fault.
pub(crate) fn status_of(fault: RunFault) -> u32
    ensures { result ≡ status_of fault }
{
    match fault {
        RunFault::Refused(error) => data_status(error),
        RunFault::MessageRefused(fault) => message_status(fault),
        RunFault::JsonRefused(fault) => json_status(fault),
        RunFault::BadJson => 26,
        RunFault::OutOfMemory => 2,
        RunFault::UnknownKind => 3,
        RunFault::BadHex | RunFault::InputFailed | RunFault::OutputFailed => 255,
    }
}

/// Returns the status that says why nothing is written.
pub(crate) fn denial_status(denial: Denial) -> u32
    ensures { result ≡ denial_status denial }
{
    match denial {
        Denial::Fault(fault) => status_of(fault),
        Denial::NotCanonical(rule) => at_member(28, rule.number()),
    }
}

/// Returns the status of values that aren't encoded.
pub(crate) fn values_status(fault: &ValuesFault) -> u32
    ensures { result ≡ values_status fault.now }
{
    match fault {
        ValuesFault::NoItem(_, _) => 27,
        ValuesFault::Run(fault) => status_of(*fault),
    }
}
