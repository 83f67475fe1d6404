//! Inputs of any kind, decoded and encoded again, or checked.
ghost use Rattle.std.specs.Prelude.{IfOk, IfErr, string_bytes};
ghost use Rattle.passkey_rewrite.specs.Rewrite.{HasNoOutput, Shown};

use crate::rewrite_bytes::rewrite_hex;
use crate::{Kind, RunFault, check_hex, rewrite_json};
use std::alloc::Global;

/// Decodes the input as this kind and encodes the result: bytes as lower-case hexadecimal, JSON as
/// compact JSON with bytes in base64url. For `Kind::Check`, returns `canonical` if the input's
/// bytes are one data item in CTAP2's canonical form and nothing else, and `not canonical`
/// otherwise. An input of bytes is hexadecimal in either case, with tabs, line feeds, carriage
/// returns and spaces allowed at its ends. Returns `BadHex` if it isn't hexadecimal; `BadJson` if a
/// JSON input isn't a JSON text in UTF-8 of at most 127 nesting levels; `Refused`, `MessageRefused`
/// or `JsonRefused` if the kind rejects it; and `OutOfMemory` if an allocation fails.
pub fn rewrite(alloc: Global, kind: Kind, input: &[u8]) -> Result<String, RunFault>
    ensures ok { IfOk result (λ text. Shown kind input.now (string_bytes text)) }
    ensures err { IfErr result (HasNoOutput kind input.now) }
{
    match kind {
        Kind::Bytes(kind) => rewrite_hex(alloc, kind, input),
        Kind::Json(kind) => rewrite_json(alloc, kind, input),
        Kind::Check => check_hex(alloc, input),
    }
}
