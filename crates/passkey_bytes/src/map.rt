//! Finite maps.
ghost use Rattle.std.specs.Prelude.{◌≡◌, ◌↔◌, ℕ, List, None, map, option_copied, IfErr, IfOk, IsTrue, OnErr, OnOk};
ghost use Rattle.std.specs.FinMap as fin;
ghost use Rattle.passkey_bytes.specs.Map.{ClonesValues, GivesEntries, LendsEntries, map_of, maps_eq};
ghost use Rattle.passkey_bytes.specs.SameMaps.{maps_eq-equivalence, maps_eq-partial};

use crate::bytes::Bytes;
use crate::text::Text;
use passkey_memory::OutOfMemory;
use std::alloc::{AllocError, AllocFailed, Global};
use std::collections::BTreeMap;
use std::collections::btree_map::{IntoIter, Iter};
use std::fmt;
use std::marker::Model;

/// A type of keys for a `Map`: its values are ordered by their bytes, and equal exactly if their
/// bytes are.
pub trait Key: Ord + Clone {
    ghost use Rattle.std.specs.Prelude.{◌≡◌, List, ℕ};
    ghost use Rattle.std.specs.Cmp.Lexicographic.{slice_cmp};
    ghost use Rattle.std.specs.Ordering.{nat_cmp};

    ghost key_bytes: { Self → List ℕ };

    /// The key's bytes.
    fn as_key(&self) -> &[u8]
        ensures { result.now ≡ key_bytes self.now };

    ghost cmp_by_bytes: { (a b : Self) → Self.cmp a b ≡ slice_cmp nat_cmp (key_bytes a) (key_bytes b) };

    ghost clone_keeps_bytes: { (a b : Self) → Self.is_clone a b → key_bytes b ≡ key_bytes a };
}

impl Key for Bytes {
    ghost use Rattle.std.specs.Prelude.{refl};

    ghost key_bytes = { λ bytes. bytes };

    ghost cmp_by_bytes = { λ _ _. refl };

    ghost clone_keeps_bytes = { λ _ _ same. same };

    fn as_key(&self) -> &[u8] {
        self.as_slice()
    }
}

impl Key for Text {
    ghost use Rattle.std.specs.Prelude.{refl};

    ghost key_bytes = { λ text. text };

    ghost cmp_by_bytes = { λ _ _. refl };

    ghost clone_keeps_bytes = { λ _ _ same. same };

    fn as_key(&self) -> &[u8] {
        self.as_str().as_bytes()
    }
}

/// A map with byte strings or texts as keys. Its entries are ordered by the keys' bytes. Contracts
/// see it as the finite map from its keys' bytes to its values.
#[derive(Drop)]
pub struct Map<K: Key, V>(BTreeMap<K, V>);

impl<K: Key, V> Model for Map<K, V> {
    ghost use Rattle.std.specs.Coded.{coded_list, coded_ℕ};
    ghost use Rattle.std.specs.FinMap as fin;
    ghost use Rattle.passkey_bytes.specs.Map.{ByteMap, map_of};

    ghost Value = { ByteMap V };

    ghost coded = { fin.code (coded_list coded_ℕ) V.code };

    ghost view = { λ m. map_of K.key_bytes m.0.entries };
}

impl<K: Key, V> Map<K, V> {
    /// The empty map. Allocates nothing.
    pub fn empty(alloc: Global) -> Map<K, V>
        ensures { result ≡ fin.empty }
    {
        Map(BTreeMap::new(alloc))
    }

    /// The key's value; `None` if the key is absent.
    #[tactic(auto, using(crate::proofs::Maps::readings))]
    pub fn get(&self, key: &K) -> Option<&V>
        ensures { option_copied result ≡ fin.get self.now (K.key_bytes key.now) }
    {
        self.0.get(key)
    }

    /// Whether the key is present.
    #[tactic(auto, using(crate::proofs::Maps::readings))]
    pub fn contains_key(&self, key: &K) -> bool
        ensures { result ≡ fin.contains_key self.now (K.key_bytes key.now) }
    {
        self.0.contains_key(key)
    }

    /// Sets the key's value, and returns the previous one. If an allocation fails, which can happen
    /// only for a new key, the map is unchanged, and the error contains the key and the value.
    #[tactic(auto, using(crate::proofs::MapChanges::changes))]
    pub fn insert(&mut self, key: K, value: V) -> Result<Option<V>, AllocFailed<(K, V)>>
        ensures before { IfOk result (λ before. before ≡ fin.get self.old (K.key_bytes key)) }
        ensures ok { OnOk result (self.new ≡ fin.insert self.old (K.key_bytes key) value) }
        ensures err { OnErr result (self.new ≡ self.old) }
        ensures value_returned { IfErr result (λ failed. failed.value ≡ (key, value)) }
        ensures absent { OnErr result (fin.get self.old (K.key_bytes key) ≡ None) }
    {
        self.0.insert(key, value)
    }

    /// Removes the key and returns its value; `None` if the key is absent.
    #[tactic(auto, using(crate::proofs::MapChanges::changes))]
    pub fn remove(&mut self, key: &K) -> Option<V>
        ensures before { result ≡ fin.get self.old (K.key_bytes key.now) }
        ensures after { self.new ≡ fin.remove self.old (K.key_bytes key.now) }
    {
        self.0.remove(key)
    }

    /// The number of entries.
    #[tactic(auto, using(crate::proofs::Maps::readings))]
    pub fn len(&self) -> usize
        ensures { result ≡ fin.len self.now }
    {
        self.0.len()
    }

    /// Whether the map is empty.
    pub fn is_empty(&self) -> bool
        ensures { IsTrue result ↔ (self.now ≡ fin.empty) }
    {
        self.len() == 0
    }

    /// Iterates over the entries in the order of their keys' bytes.
    #[tactic(auto, using(crate::proofs::Maps::readings))]
    pub fn iter(&self) -> Iter<'_, K, V>
        ensures { LendsEntries K.key_bytes self.now result }
    {
        self.0.iter()
    }
}

impl<K: Key, V: Clone> Map<K, V> {
    /// Returns a map of copies of the keys and values. `OutOfMemory` if an allocation fails, which
    /// can't happen if the map is empty.
    pub fn try_clone(&self, alloc: Global) -> Result<Map<K, V>, OutOfMemory>
        ensures clones { IfOk result (ClonesValues V.is_clone self.now) }
        ensures same { ((x y : V) → V.is_clone x y → y ≡ x) → IfOk result (λ copy. copy ≡ self.now) }
        ensures grows { OnErr result (¬ (self.now ≡ fin.empty)) }
    {
        if self.is_empty() {
            return Ok(Map::empty(alloc));
        }
        Ok(self.clone()?)
    }
}

impl<K: Key, V> From<BTreeMap<K, V>> for Map<K, V> {
    ghost from_gives = { λ tree map. map ≡ map_of K.key_bytes tree.entries };

    fn from(map: BTreeMap<K, V>) -> Map<K, V> {
        Map(map)
    }
}

impl<K: Key, V> From<Map<K, V>> for BTreeMap<K, V> {
    ghost from_gives = { λ map tree. map_of K.key_bytes tree.entries ≡ map };

    fn from(map: Map<K, V>) -> BTreeMap<K, V> {
        map.0
    }
}

impl<K: Key, V: Drop> IntoIterator for Map<K, V> {
    type Item = (K, V);

    type IntoIter = IntoIter<K, V>;

    ghost into_iter_gives = { λ map it. GivesEntries K.key_bytes map it };

    #[tactic(auto, using(crate::proofs::Maps::readings))]
    fn into_iter(self) -> IntoIter<K, V> {
        self.0.into_iter()
    }
}

impl<'a, K: Key, V> IntoIterator for &'a Map<K, V> {
    type Item = (&'a K, &'a V);

    type IntoIter = Iter<'a, K, V>;

    ghost into_iter_gives = { λ map it. LendsEntries K.key_bytes map.now it };

    fn into_iter(self) -> Iter<'a, K, V> {
        self.iter()
    }
}

impl<K: Key, V: Clone> Clone for Map<K, V> {
    ghost is_clone = { ClonesValues V.is_clone };

    fn clone(&self) -> Result<Map<K, V>, AllocError> {
        let copy = self.0.clone()?;
        Ok(Map(copy))
    }
}

impl<K: Key, V: PartialEq> PartialEq for Map<K, V> {
    ghost eq = { maps_eq V.eq };

    ghost laws = { maps_eq-partial V.eq V.laws };

    fn eq(&self, other: &Map<K, V>) -> bool {
        let as_long = self.0.len() == other.0.len();
        as_long && self.0 == other.0
    }
}

impl<K: Key, V: Eq> Eq for Map<K, V> {
    ghost laws = { maps_eq-equivalence V.eq V.Eq.laws };
}

impl<K: Key + fmt::Debug, V: fmt::Debug> fmt::Debug for Map<K, V> {
    fn fmt<W: fmt::Write>(&self, f: &mut fmt::Formatter<W>) -> fmt::Result {
        fmt::Debug::fmt(&self.0, f)
    }
}
