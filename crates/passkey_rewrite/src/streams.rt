//! Readers and writers: the whole input, and the whole output.
ghost use Rattle.std.specs.Prelude.{◌≡◌, ◌⊎◌, ◌<◌, ◌*◌, vec_len, IfOk, IfErr, OnOk, OnErr, IfSome};
ghost use Rattle.std.specs.Io.KnownBytes.{Appends, IsAtEnd};
ghost use Rattle.passkey_rewrite.specs.Streams.{AppendsBeginning};
ghost use Rattle.passkey_rewrite.specs.declared.fault.RunFault.TheVariants.{OutOfMemory, InputFailed, OutputFailed};

use crate::fault::RunFault;
use std::alloc::Global;
use std::io::{Read, Write};

/// The most bytes of one read.
const BUFFER: usize = 4096;

/// Returns the input to its end. Returns `InputFailed` if reading fails or the input doesn't end
/// within 2^32 - 1 reads, and `OutOfMemory` if an allocation fails.
pub fn read_all<R: Read>(alloc: Global, reader: &mut R) -> Result<Vec<u8>, RunFault>
    ensures whole { IfOk result (λ input. IfSome (R.remaining reader.old) (λ bytes. input.items ≡ bytes)) }
    ensures end { OnOk result (IsAtEnd (R.remaining reader.new)) }
    ensures err { IfErr result (λ fault. (fault ≡ InputFailed) ⊎ (fault ≡ OutOfMemory)) }
{
    read_within(alloc, reader, u32::MAX)
}

/// Returns the input to its end, as `read_all` does, if it ends within this many reads.
pub fn read_within<R: Read>(alloc: Global, reader: &mut R, reads: u32) -> Result<Vec<u8>, RunFault>
    ensures whole { IfOk result (λ input. IfSome (R.remaining reader.old) (λ bytes. input.items ≡ bytes)) }
    ensures end { OnOk result (IsAtEnd (R.remaining reader.new)) }
    ensures within { IfOk result (λ input. vec_len input < BUFFER * reads) }
    ensures err { IfErr result (λ fault. (fault ≡ InputFailed) ⊎ (fault ≡ OutOfMemory)) }
{
    let mut input = Vec::new(alloc);
    let mut buffer = [0u8; BUFFER];
    for _read in 0..reads {
        match reader.read(&mut buffer) {
            Ok(0) => return Ok(input),
            Ok(n) => input.extend_from_slice(&buffer[..n])?,
            Err(_) => return Err(RunFault::InputFailed),
        }
    }
    Err(RunFault::InputFailed)
}

/// Writes all of the bytes. Returns `OutputFailed` if writing fails or a write takes no byte; then
/// not all of them were written.
pub fn write_all<W: Write>(writer: &mut W, bytes: &[u8]) -> Result<(), RunFault>
    ensures ok { OnOk result (Appends (W.contents writer.old) (W.contents writer.new) bytes.now) }
    ensures err { IfErr result (λ fault. fault ≡ OutputFailed) }
    ensures begun { OnErr result (AppendsBeginning (W.contents writer.old) (W.contents writer.new) bytes.now) }
{
    let mut rest = bytes;
    while !rest.is_empty() {
        match writer.write(rest) {
            Ok(0) | Err(_) => return Err(RunFault::OutputFailed),
            Ok(n) => rest = &rest[n..],
        }
    }
    Ok(())
}
