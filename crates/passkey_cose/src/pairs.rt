//! The pairs of a map that is decoded as a key.
ghost use Rattle.std.specs.Prelude.{◌≡◌, ◌<◌, ◌∷◌, suc, length, map, drop, IfOk};
ghost use Rattle.passkey_cbor.specs.View.{pair_of};
ghost use Rattle.passkey_cose.specs.Pairs.{values_in};

use passkey_cbor::Value;
use passkey_memory::OutOfMemory;
use std::alloc::Global;
use std::mem::replace;

/// The pairs that a key is decoded from.
#[derive(Drop)]
pub(super) enum Pairs<'a> {
    /// The labels and values of other parameters are copied into the key.
    Lent(&'a [(Value, Value)]),
    /// The labels and values of other parameters are moved into the key.
    Owned(Vec<(Value, Value)>),
}

impl Pairs<'_> {
    /// Returns the pairs in their order.
    pub(super) fn as_slice(&self) -> &[(Value, Value)]
        ensures { result.now ≡ values_in self.now }
    {
        match self {
            Pairs::Lent(pairs) => pairs,
            Pairs::Owned(pairs) => pairs.as_slice(),
        }
    }

    /// Returns the pair at the index: a copy of a lent one, or the owned one itself, which leaves
    /// nulls in its place. The pairs after it stay as they are.
    pub(super) fn take(
        &mut self,
        alloc: Global,
        index: usize,
    ) -> Result<(Value, Value), OutOfMemory>
        requires { index < length (values_in self.old) }
        ensures pair { IfOk result (λ m. map pair_of (drop index (values_in self.old))
            ≡ pair_of m ∷ map pair_of (drop (suc index) (values_in self.old))) }
        ensures as_many { length (values_in self.new) ≡ length (values_in self.old) }
        ensures others { drop (suc index) (values_in self.new)
            ≡ drop (suc index) (values_in self.old) }
    {
        if let Pairs::Owned(pairs) = self {
            return Ok(replace(&mut pairs[index], (Value::Null, Value::Null)));
        }
        let (label, value) = &self.as_slice()[index];
        Ok((label.try_clone(alloc)?, value.try_clone(alloc)?))
    }
}
