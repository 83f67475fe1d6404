//! Bytes that are written to the caller's memory.
ghost use Rattle.std.specs.Prelude.{◌≡◌, ◌++◌, ◌≤◌, drop, length};
ghost use Rattle.passkey_c.specs.Writing.{WritesResult};

use crate::status::{Denial, denial_status};

/// Copies the bytes to the beginning of the output.
pub(crate) fn put(out: &mut [u8], bytes: &[u8])
    requires { length bytes.now ≤ length out.old }
    ensures { out.new ≡ bytes.now ++ drop (length bytes.now) out.old }
{
    out[..bytes.len()].copy_from_slice(bytes);
}

/// Writes the bytes that were made to the beginning of `out`, their length to `len`, and to `read` how
/// many bytes of the input they were made from. Returns the call's status. If `out` has fewer bytes, it
/// isn't written, and on a denial nothing is.
pub(crate) fn write(
    made: Result<(Vec<u8>, usize), Denial>,
    read: &mut usize,
    out: &mut [u8],
    len: &mut usize,
) -> u32
    ensures { WritesResult (λ v. (v.0.items, v.1)) made
        (record { read = read.old; out = out.old; len = len.old })
        (record { read = read.new; out = out.new; len = len.new }) result }
{
    let (bytes, taken) = match made {
        Ok(made) => made,
        Err(denial) => return denial_status(denial),
    };
    *read = taken;
    *len = bytes.len();
    if bytes.len() > out.len() {
        return 1;
    }
    put(out, bytes.as_slice());
    0
}
