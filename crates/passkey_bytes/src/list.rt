//! Lists.
ghost use Rattle.std.specs.Prelude.{◌≡◌, ◌↔◌, ◌<◌, [], length, IfOk, IsTrue, OnErr};
ghost use Rattle.std.specs.Borrow.{sem};
ghost use Rattle.std.specs.Cmp.Lexicographic.{lists_equiv, lists_per, pointwise};
ghost use Rattle.std.specs.Fmt.{debug_list};
ghost use Rattle.std.specs.Hash as fed;
ghost use Rattle.std.specs.Hash.{items_Alike};
ghost use Rattle.std.specs.List.{AllZip};
ghost use Rattle.passkey_bytes.specs.List.{GivesItems, LendsItems};
ghost use Rattle.passkey_bytes.specs.ListLoan.{LendsVec};

use passkey_memory::OutOfMemory;
use std::alloc::{AllocError, Global};
use std::fmt;
use std::hash::{Hash, Hasher};
use std::marker::Model;
use std::slice::Iter;
use std::vec::IntoIter;

/// A list of items. Contracts see it as the list of these items.
#[derive(Drop)]
pub struct List<T>(Vec<T>);

impl<T> Model for List<T> {
    ghost use Rattle.std.specs.Prelude.{List as Items};

    ghost Value = { Items T };

    ghost view = { λ l. l.0.items };
}

impl<T> List<T> {
    /// The empty list. Allocates nothing.
    pub fn empty(alloc: Global) -> List<T>
        ensures { result ≡ [] }
    {
        List(Vec::new(alloc))
    }

    /// The items.
    pub fn as_slice(&self) -> &[T]
        ensures { result.now ≡ self.now }
    {
        self.0.as_slice()
    }

    /// Borrows the items as a vector that can be changed. The list then has the items that the
    /// vector is left with.
    pub fn as_mut_vec(&mut self) -> &mut Vec<T>
        ensures* writes_back { sem 𝓛 (LendsVec T.row self.entry result) }
        ensures value { result.now.items ≡ self.old }
    {
        &mut self.0
    }

    /// Iterates over the items.
    pub fn iter(&self) -> Iter<'_, T>
        ensures { LendsItems self.now result }
    {
        self.as_slice().iter()
    }

    /// The number of items.
    pub fn len(&self) -> usize
        ensures { result ≡ length self.now }
    {
        self.0.len()
    }

    /// Whether the list is empty.
    pub fn is_empty(&self) -> bool
        ensures { IsTrue result ↔ (self.now ≡ []) }
    {
        self.0.is_empty()
    }
}

impl<T: Clone> List<T> {
    /// Returns a list of copies of the items. `OutOfMemory` if an allocation fails, which can't
    /// happen if the list is empty.
    pub fn try_clone(&self, alloc: Global) -> Result<List<T>, OutOfMemory>
        ensures clones { IfOk result (λ copy. AllZip T.is_clone self.now copy) }
        ensures same { ((x y : T) → T.is_clone x y → y ≡ x) → IfOk result (λ copy. copy ≡ self.now) }
        ensures grows { OnErr result (0 < length self.now) }
    {
        if self.is_empty() {
            return Ok(List::empty(alloc));
        }
        Ok(List(Vec::from_clones(alloc, self.as_slice())?))
    }
}

impl<T> From<Vec<T>> for List<T> {
    ghost from_gives = { λ vec list. list ≡ vec.items };

    fn from(vec: Vec<T>) -> List<T> {
        List(vec)
    }
}

impl<T: Drop> From<List<T>> for Vec<T> {
    ghost from_gives = { λ list vec. vec.items ≡ list };

    fn from(list: List<T>) -> Vec<T> {
        list.0
    }
}

impl<T: Drop> IntoIterator for List<T> {
    type Item = T;

    type IntoIter = IntoIter<T>;

    ghost into_iter_gives = { λ list it. GivesItems list it };

    fn into_iter(self) -> IntoIter<T> {
        self.0.into_iter()
    }
}

impl<'a, T> IntoIterator for &'a List<T> {
    type Item = &'a T;

    type IntoIter = Iter<'a, T>;

    ghost into_iter_gives = { λ list it. LendsItems list.now it };

    fn into_iter(self) -> Iter<'a, T> {
        self.iter()
    }
}

impl<T: Clone> Clone for List<T> {
    ghost is_clone = { AllZip T.is_clone };

    fn clone(&self) -> Result<List<T>, AllocError> {
        Ok(List(self.0.clone()?))
    }
}

impl<T: PartialEq> PartialEq for List<T> {
    ghost eq = { pointwise T.eq };

    ghost laws = { lists_per T.laws };

    fn eq(&self, other: &List<T>) -> bool {
        self.as_slice() == other.as_slice()
    }
}

impl<T: Eq> Eq for List<T> {
    ghost laws = { lists_equiv T.Eq.laws };
}

impl<T: Hash> Hash for List<T> {
    ghost hash_input = { fed.slice T.hash_input };

    ghost respects_eq = { (items_Alike (record { fed = T.respects_eq })).fed };

    fn hash<H: Hasher>(&self, state: &mut H) {
        self.as_slice().hash(state);
    }
}

impl<T: fmt::Debug> fmt::Debug for List<T> {
    ghost debug_output = { debug_list T.debug_output };

    fn fmt<W: fmt::Write>(&self, f: &mut fmt::Formatter<W>) -> fmt::Result {
        fmt::Debug::fmt(&self.0, f)
    }
}
