//! Inputs that are decoded and encoded again, for C.
ghost use Rattle.passkey_c.specs.Asked.{demands_in, kind_in};
ghost use Rattle.passkey_c.specs.Rewriting.{Rewrites};

use crate::asked::{admitted, demands_in, is_item, kind_in};
use crate::write::write;
use passkey_catalogue::encode;
use std::alloc::Global;

/// Decodes the input as this kind, encodes the result again, in CTAP2's canonical form or as compact
/// JSON, and writes it to the beginning of `out` and its length to `len`; and to `read` how many bytes
/// of the input were decoded: those of the data item or the message at its beginning, as
/// puffgrit_item_len counts them; those of authenticator data up to the end of their last part; or
/// all of a JSON text or a structure of a TPM. Bytes after these are ignored, unless
/// PUFFGRIT_ALL_BYTES is added to the kind.
///
/// Returns PUFFGRIT_OK then; PUFFGRIT_TOO_SHORT, with the length that is needed in `len`, if the
/// output has fewer bytes; PUFFGRIT_OUT_OF_MEMORY if an allocation fails; PUFFGRIT_UNKNOWN_KIND; or
/// why the input is rejected: its first fault, from PUFFGRIT_FAULT_DECODE_FAILED on, and in the second
/// byte the number of the member that it is about (PUFFGRIT_MEMBER_OF). `out` stays as it was but
/// for PUFFGRIT_OK, and so do `len` and `read` but for PUFFGRIT_OK and PUFFGRIT_TOO_SHORT. All memory
/// that was allocated is freed.
///
/// What is added to the kind asks for more of an input that the kind accepts: PUFFGRIT_CANONICAL_ONLY
/// that its data item is in CTAP2's canonical form; PUFFGRIT_FOUR_LEVELS that arrays, maps and tags are
/// inside one another at no more than four levels; and PUFFGRIT_ALL_BYTES that no bytes follow. Of
/// authenticator data, structures of a TPM and JSON texts, which aren't one data item, only the last
/// is asked. If it isn't so, PUFFGRIT_FAULT_NOT_CANONICAL is returned, with the first rule that is
/// broken in the second byte, as PUFFGRIT_RULE_NO_TAG. (CTAP 2.2, sections 6 and 8; WebAuthn Level 3,
/// sections 5 to 8.)
#[unsafe(no_mangle)]
pub extern "C" fn puffgrit_rewrite(
    alloc: Global,
    kind: u32,
    input: &[u8],
    read: &mut usize,
    out: &mut [u8],
    len: &mut usize,
) -> u32
    ensures { Rewrites (kind_in kind) (demands_in kind) input.now
        (record { read = read.old; out = out.old; len = len.old })
        (record { read = read.new; out = out.new; len = len.new }) result }
{
    let demands = demands_in(kind);
    match kind_in(kind) {
        Some(kind) => {
            let made = encode(alloc, kind, input);
            write(
                admitted(demands, is_item(kind), input, made),
                read,
                out,
                len,
            )
        }
        None => 3,
    }
}
