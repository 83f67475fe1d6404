//! Encoding keys.
ghost use Rattle.std.specs.Prelude.{◌≡◌, ◌+◌, ◌++◌, length, map, option_map, string_bytes, IfOk, OnOk};
ghost use Rattle.passkey_cbor.specs.Encoder.{encoding};
ghost use Rattle.passkey_cbor.specs.Item.{byte_string, text_string};
ghost use Rattle.passkey_cbor.specs.View.{item_of, pair_of};
ghost use Rattle.passkey_cbor.specs.Writable.{IsWritable};
ghost use Rattle.passkey_cbor.specs.Written.{written};
ghost use Rattle.passkey_iana.specs.Iana.{algorithm_number};
ghost use Rattle.passkey_cose.specs.Key.{key_parts};
ghost use Rattle.passkey_cose.specs.KeyNormal.{IsKey};
ghost use Rattle.passkey_cose.specs.KeyParams.{params_of};
ghost use Rattle.passkey_cose.specs.KeyParts.{member, key_members, op_item, ops_item, key_item};
ghost use Rattle.passkey_cose.specs.KeyWritten.{Appended};
ghost use Rattle.passkey_cose.specs.Label.{label_item};
ghost use Rattle.passkey_cose.specs.Registered.{named_of, named_item};

use crate::iana::{Algorithm, EnumI64, KeyOperation};
use crate::key::CoseKey;
use crate::label::Label;
use crate::registered::Registered;
use passkey_cbor::{Encoder, Value};
use passkey_memory::OutOfMemory;
use std::alloc::Global;

/// An EC2 key's encoding takes 77 bytes, an octet key pair's 42.
const USUAL: usize = 96;

fn text_value(alloc: Global, text: &String) -> Result<Value, OutOfMemory>
    ensures { IfOk result (λ v. item_of v ≡ text_string (string_bytes text.now)) }
{
    Ok(Value::Text(String::from_str(alloc, text.as_str())?))
}

fn label_value(alloc: Global, label: &Label) -> Result<Value, OutOfMemory>
    ensures { IfOk result (λ v. item_of v ≡ label_item label.now) }
{
    match label {
        Label::Int(n) => Ok(Value::from(*n)),
        Label::Text(text) => text_value(alloc, text),
    }
}

fn name_value<T: EnumI64>(alloc: Global, name: &Registered<T>) -> Result<Value, OutOfMemory>
    ensures { IfOk result (λ v. item_of v ≡ named_item T.number_of (named_of name.now)) }
{
    match name {
        Registered::Assigned(value) => Ok(Value::from(value.to_i64())),
        Registered::Other(n) => Ok(Value::from(*n)),
        Registered::Text(text) => text_value(alloc, text),
    }
}

fn alg_value(
    alloc: Global,
    alg: &Option<Registered<Algorithm>>,
) -> Result<Option<Value>, OutOfMemory>
    ensures { IfOk result
        (λ v. option_map item_of v ≡ option_map (named_item algorithm_number) (option_map named_of alg.now)) }
{
    match alg {
        Some(alg) => Ok(Some(name_value(alloc, alg)?)),
        None => Ok(None),
    }
}

fn string_value(alloc: Global, bytes: &Option<Vec<u8>>) -> Result<Option<Value>, OutOfMemory>
    ensures { IfOk result
        (λ v. option_map item_of v ≡ option_map byte_string (option_map (λ s. s.items) bytes.now)) }
{
    match bytes {
        Some(bytes) => Ok(Some(Value::Bytes(Vec::from_slice(alloc, bytes)?))),
        None => Ok(None),
    }
}

fn op_values(alloc: Global, ops: &[Registered<KeyOperation>]) -> Result<Vec<Value>, OutOfMemory>
    ensures { IfOk result (λ v. map item_of v.items ≡ map op_item (map named_of ops.now)) }
{
    let mut values = Vec::with_capacity(alloc, ops.len())?;
    for op in ops {
        values.push(name_value(alloc, op)?)?;
    }
    Ok(values)
}

fn ops_value(alloc: Global, ops: &[Registered<KeyOperation>]) -> Result<Option<Value>, OutOfMemory>
    ensures { IfOk result (λ v. option_map item_of v ≡ ops_item (map named_of ops.now)) }
{
    if ops.is_empty() {
        return Ok(None);
    }
    Ok(Some(Value::Array(op_values(alloc, ops)?)))
}

fn push_member(
    pairs: &mut Vec<(Value, Value)>,
    label: u8,
    value: Option<Value>,
) -> Result<(), OutOfMemory>
    ensures { OnOk result
        (map pair_of pairs.new.items ≡ map pair_of pairs.old.items ++ member label (option_map item_of value)) }
{
    if let Some(value) = value {
        pairs.push((Value::from(label), value))?;
    }
    Ok(())
}

fn push_params(
    alloc: Global,
    pairs: &mut Vec<(Value, Value)>,
    params: &[(Label, Value)],
) -> Result<(), OutOfMemory>
    ensures { OnOk result (map pair_of pairs.new.items ≡ map pair_of pairs.old.items ++ params_of params.now) }
{
    for (label, value) in params {
        pairs.push((label_value(alloc, label)?, value.try_clone(alloc)?))?;
    }
    Ok(())
}

/// The members under the common labels, 1 to 5.
fn common_values(alloc: Global, key: &CoseKey) -> Result<Vec<(Value, Value)>, OutOfMemory>
    ensures { IfOk result
        (λ v. map pair_of v.items ++ (key_parts key.now).params ≡ key_members (key_parts key.now)) }
{
    let mut pairs = Vec::new(alloc);
    push_member(&mut pairs, 1, Some(name_value(alloc, &key.kty)?))?;
    push_member(&mut pairs, 2, string_value(alloc, &key.key_id)?)?;
    push_member(&mut pairs, 3, alg_value(alloc, &key.alg)?)?;
    push_member(&mut pairs, 4, ops_value(alloc, key.key_ops())?)?;
    push_member(&mut pairs, 5, string_value(alloc, &key.base_iv)?)?;
    Ok(pairs)
}

fn member_values(alloc: Global, key: &CoseKey) -> Result<Vec<(Value, Value)>, OutOfMemory>
    ensures { IfOk result (λ v. map pair_of v.items ≡ key_members (key_parts key.now)) }
{
    let mut pairs = common_values(alloc, key)?;
    push_params(alloc, &mut pairs, key.params())?;
    Ok(pairs)
}

fn members_len(common: &[(Value, Value)], params: &[(Label, Value)]) -> Result<usize, OutOfMemory>
    ensures { IfOk result (λ n. n ≡ length common.now + length params.now) }
{
    match common.len().checked_add(params.len()) {
        Some(len) => Ok(len),
        None => Err(OutOfMemory),
    }
}

fn append_pairs(encoder: &mut Encoder, pairs: &[(Value, Value)]) -> Result<(), OutOfMemory>
    ensures { OnOk result (Appended (map pair_of pairs.now) (encoding encoder.old) (encoding encoder.new)) }
{
    for (label, value) in pairs {
        encoder.item(label)?;
        encoder.item(value)?;
    }
    Ok(())
}

fn append_label(encoder: &mut Encoder, label: &Label) -> Result<(), OutOfMemory>
    ensures written { OnOk result (encoding encoder.new ≡ encoding encoder.old ++ written (label_item label.now)) }
    ensures writable { OnOk result (IsWritable (label_item label.now)) }
{
    match label {
        Label::Int(n) => encoder.item(&Value::from(*n)),
        Label::Text(text) => encoder.text_string(text.as_str()),
    }
}

fn append_params(encoder: &mut Encoder, params: &[(Label, Value)]) -> Result<(), OutOfMemory>
    ensures { OnOk result (Appended (params_of params.now) (encoding encoder.old) (encoding encoder.new)) }
{
    for (label, value) in params {
        append_label(encoder, label)?;
        encoder.item(value)?;
    }
    Ok(())
}

impl CoseKey {
    /// Returns the key as a CBOR map: type, key identifier, algorithm, operations and Base IV under
    /// 1 to 5, each if present, then the other parameters in their order (RFC 9052, section 7).
    /// `OutOfMemory` if an allocation fails.
    pub fn to_value(&self, alloc: Global) -> Result<Value, OutOfMemory>
        ensures { IfOk result (λ v. item_of v ≡ key_item (key_parts self.now)) }
    {
        Ok(Value::Map(member_values(alloc, self)?))
    }

    /// Appends the encoding of the key's map, of which decoding rejects no member. `OutOfMemory` if
    /// an allocation fails; then the encoder's bytes may end within it.
    pub fn append(&self, alloc: Global, encoder: &mut Encoder) -> Result<(), OutOfMemory>
        ensures written { OnOk result
            (encoding encoder.new ≡ encoding encoder.old ++ written (key_item (key_parts self.now))) }
        ensures writable { OnOk result (IsWritable (key_item (key_parts self.now))) }
        ensures valid { IsKey (key_parts self.now) }
    {
        let values = common_values(alloc, self)?;
        let common = values.as_slice();
        let params = self.params();
        encoder.map_head(members_len(common, params)?)?;
        append_pairs(encoder, common)?;
        append_params(encoder, params)?;
        Ok(())
    }

    /// Encodes the key's map, of which decoding rejects no member. `OutOfMemory` if an allocation
    /// fails.
    pub fn to_vec(&self, alloc: Global) -> Result<Vec<u8>, OutOfMemory>
        ensures written { IfOk result (λ bytes. bytes.items ≡ written (key_item (key_parts self.now))) }
        ensures writable { OnOk result (IsWritable (key_item (key_parts self.now))) }
        ensures valid { IsKey (key_parts self.now) }
    {
        let mut encoder = Encoder::from_vec(Vec::with_capacity(alloc, USUAL)?);
        self.append(alloc, &mut encoder)?;
        Ok(encoder.into_vec())
    }
}
