//! COSE keys, decoded and encoded again.
ghost use Rattle.std.specs.Prelude.{IfOk, IfErr};
ghost use Rattle.passkey_catalogue.specs.Rewriting.{IsKeyRefusal, RewritesKey};
ghost use Rattle.passkey_rewrite.specs.Rewriting.{IsFrontLength};

use passkey_cbor::Value;
use passkey_cose::CoseKey;
use passkey_rewrite::RunFault;
use std::alloc::Global;

/// Decodes the leading data item of the bytes as a key, and encodes it. Returns the encoding, and
/// the item's length. Returns `Refused` if there is no item or it isn't a key, and `OutOfMemory` if
/// an allocation fails.
pub(crate) fn rewrite_key(alloc: Global, bytes: &[u8]) -> Result<(Vec<u8>, usize), RunFault>
    ensures ok { IfOk result
        (λ made. RewritesKey bytes.now made.0.items × IsFrontLength bytes.now made.1) }
    ensures err { IfErr result (IsKeyRefusal bytes.now) }
{
    let (value, len) = Value::from_slice(alloc, bytes)?;
    let key = CoseKey::from_value(alloc, &value)?;
    Ok((key.to_vec(alloc)?, len))
}
