//! What the members of a map are put into: a counter, an encoder, or a list of members.
ghost use Rattle.std.specs.Prelude.{◌≡◌, ℕ, suc, true, List, None, Some, if◌then◌else◌, option_map, OnOk};
ghost use Rattle.passkey_kinds.specs.Words.{encoding, Item, boolean, IsWritable, IfPresent, MemberAccepted, count_of, encode_member, put_one};

use crate::{OutOfMemory, ToCbor};
use passkey_cbor::Encoder;
use std::alloc::Global;

/// What the members of a map are put into, one after the other.
pub trait Sink {
    /// What contracts see of a sink.
    ghost State: { Type 0 };

    ghost state: { Self → State };

    /// The state after a member, by the data items of its key and its value.
    ghost step: { Item → Item → State → State };

    /// What holds of a data item that was put.
    ghost Accepts: { Item → Type 0 };

    /// Whether the values that are put are encoded.
    ghost Encodes: { Type 0 };

    /// Puts a member under this key, a name or a number. Returns `OutOfMemory` if an allocation
    /// fails.
    fn put<K: ToCbor + Drop, T: ToCbor>(
        &mut self,
        alloc: Global,
        key: K,
        value: &T,
    ) -> Result<(), OutOfMemory>
        ensures put { OnOk result
            (state self.new ≡ put_one step (state self.old) (K.tree key) (Some (T.tree value.now))) }
        ensures accepts { OnOk result (MemberAccepted Accepts (K.tree key) (Some (T.tree value.now))) }
        ensures fits { OnOk result (Encodes → T.fits value.now) };

    /// Puts a member under this key if the value is present. Returns `OutOfMemory` if an allocation
    /// fails.
    #[tactic(auto, unfolding(crate::specs::Tree::put_one))]
    fn put_some<K: ToCbor + Drop, T: ToCbor>(
        &mut self,
        alloc: Global,
        key: K,
        value: &Option<T>,
    ) -> Result<(), OutOfMemory>
        ensures put { OnOk result
            (state self.new ≡ put_one step (state self.old) (K.tree key) (option_map T.tree value.now)) }
        ensures accepts { OnOk result (MemberAccepted Accepts (K.tree key) (option_map T.tree value.now)) }
        ensures fits { OnOk result (Encodes → IfPresent T.fits value.now) }
    {
        match value {
            Some(value) => self.put(alloc, key, value),
            None => Ok(()),
        }
    }

    /// Puts a member with the value true under this key if the flag is true. Returns `OutOfMemory`
    /// if an allocation fails.
    #[tactic(auto, unfolding(crate::specs::Tree::put_one))]
    fn put_true<K: ToCbor + Drop>(
        &mut self,
        alloc: Global,
        key: K,
        flag: bool,
    ) -> Result<(), OutOfMemory>
        ensures put { OnOk result (state self.new
            ≡ put_one step (state self.old) (K.tree key) (if flag then Some (boolean true) else None)) }
        ensures accepts { OnOk result
            (MemberAccepted Accepts (K.tree key) (if flag then Some (boolean true) else None)) }
    {
        if flag {
            self.put(alloc, key, &true)
        } else {
            Ok(())
        }
    }
}

/// Counts members.
#[derive(Drop)]
pub(crate) struct Counted {
    pub(crate) members: usize,
}

impl Sink for Counted {
    ghost State = { ℕ };

    ghost state = { count_of };

    ghost step = { λ _ _ n. suc n };

    ghost Accepts = { λ _. Unit {0} };

    ghost Encodes = { ⊥ };

    #[tactic(auto, unfolding(crate::specs::Tree::put_one))]
    fn put<K: ToCbor + Drop, T: ToCbor>(
        &mut self,
        _alloc: Global,
        _key: K,
        _value: &T,
    ) -> Result<(), OutOfMemory> {
        self.members = self.members.checked_add(1).ok_or(OutOfMemory)?;
        Ok(())
    }
}

impl Sink for Encoder {
    ghost State = { List ℕ };

    ghost state = { encoding };

    ghost step = { encode_member };

    ghost Accepts = { IsWritable };

    ghost Encodes = { Unit {0} };

    #[tactic(auto, unfolding(crate::specs::Tree::put_one))]
    fn put<K: ToCbor + Drop, T: ToCbor>(
        &mut self,
        alloc: Global,
        key: K,
        value: &T,
    ) -> Result<(), OutOfMemory> {
        key.append(alloc, self)?;
        value.append(alloc, self)
    }
}
