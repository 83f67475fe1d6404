//! Inputs as values of JSON, for C.
ghost use Rattle.std.specs.Prelude.{IfOk, IfErr};
ghost use Rattle.passkey_c.specs.Asked.{demands_in, kind_in};
ghost use Rattle.passkey_c.specs.Values.{WritesValues};
ghost use Rattle.passkey_catalogue.specs.Catalogue.{definition};
ghost use Rattle.passkey_catalogue.specs.Rewriting.{IsRefusal};
ghost use Rattle.passkey_catalogue.specs.Values.{ShowsValues};

use crate::asked::{admitted, demands_in, is_item, kind_in};
use crate::write::write;
use passkey_catalogue::{Kind, values};
use passkey_rewrite::RunFault;
use std::alloc::Global;

/// Returns the values of the input as JSON, and how many of its bytes they are made from.
fn values_as(alloc: Global, kind: Kind, input: &[u8]) -> Result<(Vec<u8>, usize), RunFault>
    ensures ok { IfOk result (λ made. ShowsValues (definition kind) input.now made.0.items made.1) }
    ensures err { IfErr result (IsRefusal (definition kind) input.now) }
{
    let (text, len) = values(alloc, kind, input)?;
    Ok((text.into_bytes(), len))
}

/// Writes what this kind accepts at the beginning of the input as JSON that stands for it, so that
/// puffgrit_encode encodes it again, changed or not: to the beginning of `out`, and the JSON's length to
/// `len`; and to `read` how many bytes of the input that is. A message's members have their names, and those
/// that its table hasn't stay. Integers, texts, arrays and objects are themselves, and byte strings base64url
/// without padding where the table wants bytes; what JSON can't say otherwise is an object of one member, as
/// {"$bytes": "AQ"} or {"$cbor": "f93e00"}. Authenticator data are an object of their parts, a COSE key one of
/// its parameters by their names, a structure of a TPM is base64url, and a JSON text as puffgrit_rewrite
/// writes it. `passkey_inspect --values` prints the same. puffgrit_json is for people, and drops what this
/// keeps.
///
/// Returns what puffgrit_rewrite returns, with the same faults, and leaves `out`, `len` and `read` as it
/// does. (RFC 8949; RFC 8259; RFC 9052, section 7; WebAuthn Level 3, section 6.1; CTAP 2.1, section 6.)
#[unsafe(no_mangle)]
pub extern "C" fn puffgrit_values(
    alloc: Global,
    kind: u32,
    input: &[u8],
    read: &mut usize,
    out: &mut [u8],
    len: &mut usize,
) -> u32
    ensures { WritesValues (kind_in kind) (demands_in kind) input.now
        (record { read = read.old; out = out.old; len = len.old })
        (record { read = read.new; out = out.new; len = len.new }) result }
{
    let demands = demands_in(kind);
    match kind_in(kind) {
        Some(kind) => {
            let made = values_as(alloc, kind, input);
            write(
                admitted(demands, is_item(kind), input, made),
                read,
                out,
                len,
            )
        }
        None => 3,
    }
}
