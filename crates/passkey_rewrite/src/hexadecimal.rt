//! Bytes in hexadecimal.
ghost use Rattle.std.specs.Prelude.{◌≡◌, ◌⊎◌, IfOk, IfErr, IsErr};
ghost use Rattle.hex.specs.Hex.{decode_of};
ghost use Rattle.passkey_rewrite.specs.Trimmed.{trimmed};
ghost use Rattle.passkey_rewrite.specs.declared.fault.RunFault.TheVariants.{BadHex, OutOfMemory};

use crate::fault::RunFault;
use crate::trim::trim;
use hex::FromHexError;
use std::alloc::Global;

/// Returns the bytes that the input encodes in hexadecimal of either case, with tabs, line feeds,
/// carriage returns and spaces allowed at its ends. Returns `BadHex` if the input isn't
/// hexadecimal, and `OutOfMemory` if an allocation fails.
pub fn decode_hex(alloc: Global, input: &[u8]) -> Result<Vec<u8>, RunFault>
    ensures ok { IfOk result (λ bytes. decode_of (trimmed input.now) ≡ Ok bytes.items) }
    ensures err { IfErr result
        (λ fault. (fault ≡ OutOfMemory) ⊎ ((fault ≡ BadHex) × IsErr (decode_of (trimmed input.now)))) }
{
    match hex::decode(alloc, trim(input)) {
        Ok(bytes) => Ok(bytes),
        Err(FromHexError::OutOfMemory) => Err(RunFault::OutOfMemory),
        Err(_) => Err(RunFault::BadHex),
    }
}
