//! Copying keys.
ghost use Rattle.std.specs.Prelude.{◌≡◌, ◌<◌, length, map, IsSome, IsSomeAnd, option_map, IfOk, OnErr};
ghost use Rattle.passkey_cose.specs.Key.{key_parts};
ghost use Rattle.passkey_cose.specs.KeyParams.{params_of};
ghost use Rattle.passkey_cose.specs.KeyParts.{KeyGrows};
ghost use Rattle.passkey_cose.specs.Registered.{named_of, IsText};

use crate::iana::{Algorithm, KeyOperation};
use crate::key::CoseKey;
use crate::label::Label;
use crate::registered::Registered;
use passkey_cbor::Value;
use passkey_memory::OutOfMemory;
use std::alloc::Global;

fn copy_bytes(alloc: Global, bytes: &Option<Vec<u8>>) -> Result<Option<Vec<u8>>, OutOfMemory>
    ensures same { IfOk result (λ o. option_map (λ v. v.items) o ≡ option_map (λ v. v.items) bytes.now) }
    ensures grows { OnErr result (IsSome bytes.now) }
{
    match bytes {
        Some(bytes) => Ok(Some(Vec::from_slice(alloc, bytes)?)),
        None => Ok(None),
    }
}

fn copy_alg(
    alloc: Global,
    alg: &Option<Registered<Algorithm>>,
) -> Result<Option<Registered<Algorithm>>, OutOfMemory>
    ensures same { IfOk result (λ o. option_map named_of o ≡ option_map named_of alg.now) }
    ensures grows { OnErr result (IsSomeAnd (option_map named_of alg.now) IsText) }
{
    match alg {
        Some(alg) => Ok(Some(alg.try_clone(alloc)?)),
        None => Ok(None),
    }
}

fn copy_ops(
    alloc: Global,
    ops: &[Registered<KeyOperation>],
) -> Result<Vec<Registered<KeyOperation>>, OutOfMemory>
    ensures same { IfOk result (λ v. map named_of v.items ≡ map named_of ops.now) }
    ensures grows { OnErr result (0 < length ops.now) }
{
    let mut copies = Vec::with_capacity(alloc, ops.len())?;
    for op in ops {
        copies.push(op.try_clone(alloc)?)?;
    }
    Ok(copies)
}

fn copy_params(alloc: Global, params: &[(Label, Value)]) -> Result<Vec<(Label, Value)>, OutOfMemory>
    ensures same { IfOk result (λ v. params_of v.items ≡ params_of params.now) }
    ensures grows { OnErr result (0 < length params.now) }
{
    let mut copies = Vec::with_capacity(alloc, params.len())?;
    for (label, value) in params {
        copies.push((label.try_clone(alloc)?, value.try_clone(alloc)?))?;
    }
    Ok(copies)
}

impl CoseKey {
    /// Returns an equal key. `OutOfMemory` if an allocation fails, which can't happen for a key
    /// whose type and algorithm are numbers and which has no other part.
    pub fn try_clone(&self, alloc: Global) -> Result<CoseKey, OutOfMemory>
        ensures same { IfOk result (λ k. key_parts k ≡ key_parts self.now) }
        ensures grows { OnErr result (KeyGrows (key_parts self.now)) }
    {
        let key_ops = copy_ops(alloc, self.key_ops())?;
        let params = copy_params(alloc, self.params())?;
        Ok(CoseKey {
            kty: self.kty.try_clone(alloc)?,
            key_id: copy_bytes(alloc, &self.key_id)?,
            alg: copy_alg(alloc, &self.alg)?,
            key_ops: Some(key_ops),
            base_iv: copy_bytes(alloc, &self.base_iv)?,
            params: Some(params),
        })
    }
}
