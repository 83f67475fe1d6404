//! Byte strings.
ghost use Rattle.std.specs.Prelude.{◌≡◌, ◌↔◌, ◌<◌, List, [], Some, length, refl, IfOk, IsTrue, OnErr};
ghost use Rattle.std.specs.Borrow.{sem};
ghost use Rattle.std.specs.Cmp.{partial_equiv_from_equiv};
ghost use Rattle.std.specs.Cmp.Lexicographic.{slice_cmp, texts_po, texts_ties};
ghost use Rattle.std.specs.Cmp.Rules.{hashing};
ghost use Rattle.std.specs.Hash as fed;
ghost use Rattle.std.specs.Iterator.{IsFinite};
ghost use Rattle.std.specs.Iterator.Runs.{WholeRun};
ghost use Rattle.std.specs.Ordering.{nat_cmp};
ghost use Rattle.std.specs.Str.{bytes_eq};
ghost use Rattle.std.specs.String.{string_bytes};
ghost use Rattle.std.proofs.Common.{rules};
ghost use Rattle.std.proofs.lemmas.Cmp.{nat_list_cmp_total, nat_list_eq_equiv};
ghost use Rattle.base64.specs.Engines.{url_safe_no_pad};
ghost use Rattle.base64.specs.GeneralPurpose.{encode_of};
ghost use Rattle.passkey_bytes.specs.declared.bytes.BytesFault.TheVariants.{OutOfMemory as NoMemory};
ghost use Rattle.passkey_bytes.specs.Bytes.{ReadsText};
ghost use Rattle.passkey_bytes.specs.BytesLoan.{LendsVec};
ghost use Rattle.passkey_bytes.specs.List.{GivesItems, LendsItems};

use crate::encoding;
use passkey_memory::{MemoryError, OutOfMemory};
use std::alloc::{AllocError, Global};
use std::cmp::Ordering;
use std::hash::{Hash, Hasher};
use std::marker::Model;
use std::slice::Iter;
use std::vec::IntoIter;
use thiserror::Error;

/// A byte string. Byte strings are in lexicographic order.
#[derive(Debug, Drop)]
pub struct Bytes(Vec<u8>);

impl Model for Bytes {
    ghost use Rattle.std.specs.Prelude.{ℕ, List};

    ghost Value = { List ℕ };

    ghost view = { λ b. b.0.items };
}

impl Bytes {
    /// The empty byte string. Allocates nothing.
    pub fn empty(alloc: Global) -> Bytes
        ensures { result ≡ [] }
    {
        Bytes(Vec::new(alloc))
    }

    /// Returns a copy of the bytes. `OutOfMemory` if the allocation fails, which can't happen if
    /// there are no bytes.
    pub fn from_slice(alloc: Global, bytes: &[u8]) -> Result<Bytes, OutOfMemory>
        ensures same { IfOk result (λ made. made ≡ bytes.now) }
        ensures grows { OnErr result (0 < length bytes.now) }
    {
        let mut copy = Vec::with_capacity(alloc, bytes.len())?;
        copy.extend_from_slice(bytes)?;
        Ok(Bytes(copy))
    }

    /// Collects the iterator's bytes, in their order. `OutOfMemory` if an allocation fails.
    pub fn from_items<I: Iterator<Item = u8> + Drop>(
        alloc: Global,
        items: I,
    ) -> Result<Bytes, OutOfMemory>
        requires can { I.can_next items }
        requires ends { IsFinite (I.remaining items) }
        ensures { IfOk result (λ made. WholeRun I.next_gives items (λ run. made ≡ run.items)) }
    {
        let bytes: Vec<u8> = items.collect(alloc)?;
        Ok(Bytes(bytes))
    }

    /// Decodes base64url or base64, padded or not (RFC 4648, sections 4 and 5): first as
    /// `encoding::try_from_base64url` does, then as base64 whose last symbol has no bit set beyond
    /// the last byte.
    ///
    /// `NotBase64Encoded` if the text is neither: for example, it has 4k + 1 symbols before the `=`
    /// at its end, or a symbol outside both alphabets, such as white space. `OutOfMemory` if an
    /// allocation fails, which can't happen if the text is neither or decodes to no bytes.
    pub fn try_from(alloc: Global, text: &str) -> Result<Bytes, BytesFault>
        ensures { ReadsText text.now result }
    {
        if let Some(bytes) = encoding::try_from_base64url(alloc, text)? {
            return Ok(Bytes(bytes));
        }
        match encoding::try_from_base64(alloc, text)? {
            Some(bytes) => Ok(Bytes(bytes)),
            None => Err(BytesFault::NotBase64Encoded(NotBase64Encoded)),
        }
    }

    /// Encodes the bytes in base64url, without padding (RFC 4648, section 5). `OutOfMemory` if the
    /// allocation fails, which can't happen if there are no bytes.
    pub fn to_base64url(&self, alloc: Global) -> Result<String, OutOfMemory>
        ensures same { IfOk result (λ text. string_bytes text ≡ encode_of url_safe_no_pad self.now) }
        ensures grows { OnErr result (0 < length self.now) }
    {
        encoding::base64url(alloc, self.as_slice())
    }

    /// The bytes.
    pub fn as_slice(&self) -> &[u8]
        ensures { result.now ≡ self.now }
    {
        self.0.as_slice()
    }

    /// Borrows the bytes as a vector that can be changed. The byte string then has the bytes that
    /// the vector is left with.
    pub fn as_mut_vec(&mut self) -> &mut Vec<u8>
        ensures* writes_back { sem 𝓛 (LendsVec self.entry result) }
        ensures value { result.now.items ≡ self.old }
    {
        &mut self.0
    }

    /// Iterates over the bytes.
    pub fn iter(&self) -> Iter<'_, u8>
        ensures { LendsItems self.now result }
    {
        self.as_slice().iter()
    }

    /// The number of bytes.
    pub fn len(&self) -> usize
        ensures { result ≡ length self.now }
    {
        self.0.len()
    }

    /// Whether the byte string is empty.
    pub fn is_empty(&self) -> bool
        ensures { IsTrue result ↔ (self.now ≡ []) }
    {
        self.0.is_empty()
    }

    /// Whether these are the same bytes. (`==` compares two `Bytes`.)
    pub fn eq_slice(&self, bytes: &[u8]) -> bool
        ensures { IsTrue result ↔ (self.now ≡ bytes.now) }
    {
        self.as_slice() == bytes
    }

    /// Returns a copy. `OutOfMemory` if the allocation fails, which can't happen if there are no
    /// bytes.
    pub fn try_clone(&self, alloc: Global) -> Result<Bytes, OutOfMemory>
        ensures same { IfOk result (λ copy. copy ≡ self.now) }
        ensures grows { OnErr result (0 < length self.now) }
    {
        Bytes::from_slice(alloc, self.as_slice())
    }
}

impl From<Vec<u8>> for Bytes {
    ghost from_gives = { λ vec bytes. bytes ≡ vec.items };

    fn from(bytes: Vec<u8>) -> Bytes {
        Bytes(bytes)
    }
}

impl From<Bytes> for Vec<u8> {
    ghost from_gives = { λ bytes vec. vec.items ≡ bytes };

    fn from(bytes: Bytes) -> Vec<u8> {
        bytes.0
    }
}

impl IntoIterator for Bytes {
    type Item = u8;

    type IntoIter = IntoIter<u8>;

    ghost into_iter_gives = { λ bytes it. GivesItems bytes it };

    fn into_iter(self) -> IntoIter<u8> {
        self.0.into_iter()
    }
}

impl<'a> IntoIterator for &'a Bytes {
    type Item = &'a u8;

    type IntoIter = Iter<'a, u8>;

    ghost into_iter_gives = { λ bytes it. LendsItems bytes.now it };

    fn into_iter(self) -> Iter<'a, u8> {
        self.iter()
    }
}

impl Clone for Bytes {
    ghost is_clone = { λ bytes copy. copy ≡ bytes };

    fn clone(&self) -> Result<Bytes, AllocError> {
        Ok(Bytes(self.0.clone()?))
    }
}

impl PartialEq for Bytes {
    ghost eq = { bytes_eq };

    ghost laws = { partial_equiv_from_equiv nat_list_eq_equiv };

    fn eq(&self, other: &Bytes) -> bool
        ensures value { result ≡ bytes_eq self.now other.now }
        ensures same { IsTrue result ↔ (self.now ≡ other.now) }
    {
        self.as_slice() == other.as_slice()
    }
}

impl Eq for Bytes {
    ghost laws = { nat_list_eq_equiv };
}

impl PartialOrd for Bytes {
    ghost partial_cmp = { λ a b. Some (slice_cmp nat_cmp a b) };

    ghost laws = { texts_po };

    fn partial_cmp(&self, other: &Bytes) -> Option<Ordering> {
        Some(self.cmp(other))
    }
}

impl Ord for Bytes {
    ghost cmp = { slice_cmp nat_cmp };

    ghost total = { nat_list_cmp_total };

    ghost matches_partial_cmp = { λ _ _. refl };

    ghost matches_eq = { texts_ties };

    fn cmp(&self, other: &Bytes) -> Ordering {
        self.as_slice().cmp(other.as_slice())
    }
}

impl Hash for Bytes {
    ghost hash_input = { fed.slice fed.u8 };

    ghost respects_eq = { Prim.search (hashing, rules) };

    fn hash<H: Hasher>(&self, state: &mut H) {
        self.as_slice().hash(state);
    }
}

/// Why decoding a text to `Bytes` failed.
#[derive(Clone, Copy, Debug, Error, PartialEq, Eq)]
pub enum BytesFault {
    /// The text is neither base64url nor base64.
    #[error(transparent)]
    NotBase64Encoded(NotBase64Encoded),
    /// An allocation failed.
    #[error("OutOfMemory")]
    OutOfMemory,
}

impl<E: MemoryError> From<E> for BytesFault {
    ghost from_gives = { λ _ fault. fault ≡ NoMemory };

    fn from(_error: E) -> BytesFault {
        BytesFault::OutOfMemory
    }
}

/// A text is neither base64url nor base64 (RFC 4648, sections 4 and 5).
#[derive(Clone, Copy, Debug, Error, PartialEq, Eq)]
#[error("NotBase64Encoded")]
pub struct NotBase64Encoded;
