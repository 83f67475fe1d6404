//! Bytes in hexadecimal, checked for CTAP2's canonical form.
ghost use Rattle.std.specs.Prelude.{IfOk, IfErr, string_bytes};
ghost use Rattle.passkey_rewrite.specs.Checking.{HasNoBytes, IsChecked, Judges};

use crate::fault::RunFault;
use crate::hexadecimal::decode_hex;
use passkey_cbor::is_canonical;
use std::alloc::Global;

fn judgement(bytes: &[u8]) -> &'static str
    ensures { Judges bytes.now result.now }
{
    if is_canonical(bytes) {
        "canonical"
    } else {
        "not canonical"
    }
}

/// Returns `canonical` if the input's bytes are one data item in CTAP2's canonical form and nothing
/// else, and `not canonical` otherwise. The input is hexadecimal in either case, with tabs, line
/// feeds, carriage returns and spaces allowed at its ends. Returns `BadHex` if it isn't, and
/// `OutOfMemory` if an allocation fails.
pub fn check_hex(alloc: Global, input: &[u8]) -> Result<String, RunFault>
    ensures ok { IfOk result (λ text. IsChecked input.now (string_bytes text)) }
    ensures err { IfErr result (HasNoBytes input.now) }
{
    let bytes = decode_hex(alloc, input)?;
    Ok(String::from_str(alloc, judgement(bytes.as_slice()))?)
}
