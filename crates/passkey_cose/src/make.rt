//! Constructing keys.
ghost use Rattle.std.specs.Prelude.{◌≡◌, IfOk};
ghost use Rattle.passkey_cose.specs.Key.{key_parts};
ghost use Rattle.passkey_cose.specs.KeyParams.{params_of};
ghost use Rattle.passkey_cose.specs.KeyParts.{new_key, ec2_members, ec2_key};
ghost use Rattle.passkey_cose.specs.Registered.{named_of};

use crate::iana::KeyType;
use crate::key::CoseKey;
use crate::label::Label;
use crate::names::value_is_name;
use crate::registered::Registered;
use passkey_cbor::Value;
use passkey_memory::OutOfMemory;
use std::alloc::Global;

fn ec2_params(
    alloc: Global,
    curve: i64,
    x: Vec<u8>,
    y: Vec<u8>,
) -> Result<Vec<(Label, Value)>, OutOfMemory>
    ensures { IfOk result (λ ps. params_of ps.items ≡ ec2_members curve x.items y.items) }
{
    let mut params = Vec::with_capacity(alloc, 3)?;
    params.push((Label::Int(-1), Value::from(curve)))?;
    params.push((Label::Int(-2), Value::Bytes(x)))?;
    params.push((Label::Int(-3), Value::Bytes(y)))?;
    Ok(params)
}

impl CoseKey {
    /// Returns a key of this type without any other part.
    pub fn new(kty: Registered<KeyType>) -> CoseKey
        ensures { key_parts result ≡ new_key (named_of kty) }
    {
        value_is_name(&kty);
        CoseKey {
            kty,
            key_id: None,
            alg: None,
            key_ops: None,
            base_iv: None,
            params: None,
        }
    }

    /// Returns the EC2 key with these coordinates of a point on the curve with this number (1 is
    /// P-256; RFC 9053, section 7.1.1). `OutOfMemory` if an allocation fails.
    pub fn new_ec2_pub_key(
        alloc: Global,
        curve: i64,
        x: Vec<u8>,
        y: Vec<u8>,
    ) -> Result<CoseKey, OutOfMemory>
        ensures { IfOk result (λ k. key_parts k ≡ ec2_key curve x.items y.items) }
    {
        let params = ec2_params(alloc, curve, x, y)?;
        Ok(CoseKey {
            kty: Registered::Assigned(KeyType::EC2),
            key_id: None,
            alg: None,
            key_ops: None,
            base_iv: None,
            params: Some(params),
        })
    }
}

impl Default for CoseKey {
    ghost use Rattle.std.specs.Prelude.{◌≡◌};
    ghost use Rattle.passkey_cose.specs.Key.{key_parts};
    ghost use Rattle.passkey_cose.specs.KeyParams.{params_of};
    ghost use Rattle.passkey_cose.specs.KeyParts.{new_key};
    ghost use Rattle.passkey_cose.specs.Registered.{assigned};
    ghost use Rattle.passkey_iana.specs.declared.key_type.KeyType.TheVariants.{Reserved};

    ghost is_default = { λ k. key_parts k ≡ new_key (assigned Reserved) };

    /// A key without any part but the reserved type, 0, which decoding rejects.
    fn default() -> CoseKey {
        CoseKey::new(Registered::Assigned(KeyType::Reserved))
    }
}
