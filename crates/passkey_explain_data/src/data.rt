//! Why authenticator data are refused.
ghost use Rattle.std.specs.Prelude.{◌≡◌, IfOk, Ok};
ghost use Rattle.passkey_core.specs.DataParts.{DataParts};
ghost use Rattle.passkey_core.specs.DataReading.{ReadsDataExactly};
ghost use Rattle.passkey_explain_data.specs.DataBlame.{bytes_follow, BlamesData, ExplainsData, Passes};

use crate::part::{DataPart, DataReason, DataRefusal};
use crate::passing::{Stop, extent_in, pass_attested_where, pass_extensions_where, pass_fixed};
use passkey_core::Flags;
use passkey_cose::CoseError;
use passkey_memory::OutOfMemory;
use std::alloc::Global;

fn bytes_follow(whole: &[u8], rest: &[u8]) -> DataRefusal
    ensures { result ≡ bytes_follow whole.now rest.now }
{
    DataRefusal {
        fault: CoseError::DecodeFailed,
        part: DataPart::Trailing,
        extent: extent_in(whole, rest, rest.len()),
        reason: DataReason::BytesFollow,
    }
}

/// Goes through all parts.
fn pass_all(alloc: Global, bytes: &[u8]) -> Result<(), Stop>
    ensures { Passes (λ _. (d : DataParts) × ReadsDataExactly bytes.now (Ok d)) (BlamesData bytes.now) result }
{
    let (flags, rest) = match pass_fixed(bytes) {
        Ok(fixed) => fixed,
        Err(refusal) => return Err(Stop::Refused(refusal)),
    };
    let has_attested = bitflags::Flags::contains(&flags, Flags::AT);
    let following = match pass_attested_where(alloc, has_attested, bytes, rest) {
        Ok(following) => following,
        Err(stop) => return Err(stop),
    };
    let has_extensions = bitflags::Flags::contains(&flags, Flags::ED);
    let last = match pass_extensions_where(alloc, has_extensions, bytes, following) {
        Ok(last) => last,
        Err(stop) => return Err(stop),
    };
    if last.is_empty() {
        Ok(())
    } else {
        Err(Stop::Refused(bytes_follow(bytes, last)))
    }
}

/// Explains why the bytes aren't authenticator data (WebAuthn Level 3, section 6.1). Returns `None`
/// exactly if they are, as by `AuthenticatorData::from_slice_exact`, and `OutOfMemory` if an
/// allocation fails. The first refused part is the one to blame; flags are checked after the
/// lengths of the first three parts, and bytes after the last part come last.
pub fn explain_data(alloc: Global, bytes: &[u8]) -> Result<Option<DataRefusal>, OutOfMemory>
    ensures { IfOk result (ExplainsData bytes.now) }
{
    match pass_all(alloc, bytes) {
        Ok(()) => Ok(None),
        Err(Stop::Refused(refusal)) => Ok(Some(refusal)),
        Err(Stop::OutOfMemory) => Err(OutOfMemory),
    }
}
