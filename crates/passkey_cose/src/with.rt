//! Adding parts to keys.
ghost use Rattle.std.specs.Prelude.{◌≡◌, ◌||◌, [], ◌∷◌, ◌++◌, Some, map, OnOk, OnErr};
ghost use Rattle.std.specs.List.{list_any};
ghost use Rattle.passkey_cbor.specs.Item.{number};
ghost use Rattle.passkey_cbor.specs.Same.{item_eq};
ghost use Rattle.passkey_cose.specs.Key.{key_parts};
ghost use Rattle.passkey_cose.specs.KeyFaults.{string_fault};
ghost use Rattle.passkey_cose.specs.KeyLabels.{is_common, has_label};
ghost use Rattle.passkey_cose.specs.KeyParams.{param_of, params_of, params_held};
ghost use Rattle.passkey_cose.specs.KeyParts.{op_item};
ghost use Rattle.passkey_cose.specs.KeyWith.{has_repeat, key_ops_fault, param_fault, Becomes, BecomesOrRunsOut};
ghost use Rattle.passkey_cose.specs.Label.{label_item};
ghost use Rattle.passkey_cose.specs.Registered.{named_of, named_item};

use crate::checking::is_common_number;
use crate::error::CoseError;
use crate::iana::{Algorithm, EnumI64, KeyOperation};
use crate::key::CoseKey;
use crate::label::Label;
use crate::names::{label_is_name, ops_are_names, value_is_name};
use crate::refused::RefusedKey;
use crate::registered::Registered;
use crate::search::find;
use passkey_cbor::Value;
use std::alloc::{AllocError, Global};

fn is_number<T: EnumI64>(value: &Registered<T>, n: i64) -> bool
    ensures { result ≡ item_eq (number n) (named_item T.number_of (named_of value.now)) }
{
    match value {
        Registered::Assigned(value) => n == value.to_i64(),
        Registered::Other(m) => n == *m,
        Registered::Text(_) => false,
    }
}

/// Whether both are encoded as the same data item.
fn are_written_alike<T: EnumI64>(a: &Registered<T>, b: &Registered<T>) -> bool
    ensures { result ≡ item_eq (named_item T.number_of (named_of a.now)) (named_item T.number_of (named_of b.now)) }
{
    match (a, b) {
        (Registered::Assigned(a), _) => is_number(b, a.to_i64()),
        (Registered::Other(n), _) => is_number(b, *n),
        (Registered::Text(a), Registered::Text(b)) => a.as_str() == b.as_str(),
        (Registered::Text(_), _) => false,
    }
}

fn is_written_among(op: &Registered<KeyOperation>, ops: &[Registered<KeyOperation>]) -> bool
    ensures { result ≡ list_any (item_eq (op_item (named_of op.now))) (map op_item (map named_of ops.now)) }
{
    for other in ops {
        if are_written_alike(op, other) {
            return true;
        }
    }
    false
}

fn has_repeats(ops: &[Registered<KeyOperation>]) -> bool
    ensures { result ≡ has_repeat (map op_item (map named_of ops.now)) }
{
    let mut rest = ops;
    while let Some((op, following)) = rest.split_first() {
        if is_written_among(op, following) {
            return true;
        }
        rest = following;
    }
    false
}

fn is_common_label(label: &Label) -> bool
    ensures { result ≡ is_common (label_item label.now) }
{
    match label {
        Label::Int(n) => is_common_number(i128::from(*n)),
        Label::Text(_) => false,
    }
}

fn stands_among(label: &Label, params: &[(Label, Value)]) -> bool
    ensures { result ≡ has_label (params_of params.now) (label_item label.now) }
{
    find(label, params).is_some()
}

fn push_param(
    alloc: Global,
    params: &mut Option<Vec<(Label, Value)>>,
    label: Label,
    value: Value,
) -> Result<(), AllocError>
    ensures ok { OnOk result (params_held params.new ≡ params_held params.old ++ param_of (label, value) ∷ []) }
    ensures err { OnErr result (params_held params.new ≡ params_held params.old) }
{
    match params {
        Some(params) => params.push((label, value))?,
        None => {
            let mut first = Vec::with_capacity(alloc, 1)?;
            first.push((label, value))?;
            *params = Some(first);
        }
    }
    Ok(())
}

impl CoseKey {
    /// Returns the key, restricted to this algorithm (`alg`, label 3; RFC 9052, section 7.1).
    pub fn with_algorithm(mut self, alg: Registered<Algorithm>) -> CoseKey
        ensures { key_parts result ≡ record (key_parts self) { alg = Some (named_of alg) } }
    {
        value_is_name(&alg);
        self.alg = Some(alg);
        self
    }

    /// Returns the key with this key identifier (`kid`, label 2; RFC 9052, section 7.1).
    /// `UnexpectedItem` if it is empty.
    pub fn with_key_id(mut self, id: Vec<u8>) -> Result<CoseKey, RefusedKey>
        ensures { Becomes (key_parts self) (string_fault id.items)
            (record (key_parts self) { key_id = Some id.items }) result }
    {
        if id.is_empty() {
            return Err(RefusedKey {
                key: self,
                error: CoseError::UnexpectedItem,
            });
        }
        self.key_id = Some(id);
        Ok(self)
    }

    /// Returns the key with this Base IV (label 5; RFC 9052, section 7.1). `UnexpectedItem` if it
    /// is empty.
    pub fn with_base_iv(mut self, iv: Vec<u8>) -> Result<CoseKey, RefusedKey>
        ensures { Becomes (key_parts self) (string_fault iv.items)
            (record (key_parts self) { base_iv = Some iv.items }) result }
    {
        if iv.is_empty() {
            return Err(RefusedKey {
                key: self,
                error: CoseError::UnexpectedItem,
            });
        }
        self.base_iv = Some(iv);
        Ok(self)
    }

    /// Returns the key, restricted to these operations (`key_ops`, label 4; RFC 9052, section 7.1).
    /// `UnexpectedItem` if there are none, or two are encoded alike.
    pub fn with_key_ops(mut self, ops: Vec<Registered<KeyOperation>>) -> Result<CoseKey, RefusedKey>
        ensures { Becomes (key_parts self) (key_ops_fault (map named_of ops.items))
            (record (key_parts self) { key_ops = map named_of ops.items }) result }
    {
        if ops.is_empty() || has_repeats(&ops) {
            return Err(RefusedKey {
                key: self,
                error: CoseError::UnexpectedItem,
            });
        }
        ops_are_names(&ops);
        self.key_ops = Some(ops);
        Ok(self)
    }

    /// Returns the key with this parameter after its others (RFC 9052, section 7).
    /// `DuplicateMapKey` if the label is 1 to 5 (section 7.1) or the key has it already; otherwise
    /// `OutOfMemory` if an allocation fails.
    pub fn with_param(
        mut self,
        alloc: Global,
        label: Label,
        value: Value,
    ) -> Result<CoseKey, RefusedKey>
        ensures { let fault = param_fault (key_parts self).params (label_item label) in let params =
            (key_parts self).params ++ param_of (label, value)
            ∷ [] in BecomesOrRunsOut (key_parts self) fault (record (key_parts self) { params = params }) result }
    {
        if is_common_label(&label) || stands_among(&label, self.params()) {
            return Err(RefusedKey {
                key: self,
                error: CoseError::DuplicateMapKey,
            });
        }
        label_is_name(&label);
        if push_param(alloc, &mut self.params, label, value).is_err() {
            return Err(RefusedKey {
                key: self,
                error: CoseError::OutOfMemory,
            });
        }
        Ok(self)
    }
}
