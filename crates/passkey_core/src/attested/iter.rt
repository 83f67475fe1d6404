//! The bytes of attested credential data.
ghost use Rattle.std.specs.Prelude.{◌≡◌, ◌++◌, IfOk, IfErr, OnOk};
ghost use Rattle.passkey_core.specs.DataNormal.{IsAttested};
ghost use Rattle.passkey_core.specs.DataViews.{attested_parts};
ghost use Rattle.passkey_core.specs.DataWritten.{attested_written};

use crate::attested::AttestedCredentialData;
use crate::given_back::GivenBack;
use passkey_cbor::Encoder;
use passkey_memory::OutOfMemory;
use std::alloc::Global;
use std::iter::FusedIterator;
use std::marker::Model;
use std::vec::IntoIter;

/// The remaining bytes of encoded attested credential data: the AAGUID, the length of the
/// credential id in two bytes, big-endian, the id, and the key (WebAuthn Level 3, section 6.5.1).
#[derive(Drop)]
pub struct AttestedCredentialDataIterator(IntoIter<u8>);

impl Model for AttestedCredentialDataIterator {
    ghost use Rattle.std.specs.Prelude.{ℕ, List};
    ghost use Rattle.std.specs.Vec.Iter.{into_iter_items};

    ghost Value = { List ℕ };

    ghost view = { λ left. into_iter_items left.0 };
}

impl Iterator for AttestedCredentialDataIterator {
    ghost use Rattle.std.specs.Prelude.{length};
    ghost use Rattle.std.specs.Iterator.{at_most};
    ghost use Rattle.passkey_core.specs.DataBytes.{GivesByte};

    type Item = u8;

    ghost next_gives = { GivesByte };

    ghost remaining = { λ left. at_most (length left) };

    /// Returns the next byte; `None` at the end, and on every later call. Allocates nothing.
    fn next(&mut self) -> Option<u8> {
        self.0.next()
    }
}

impl FusedIterator for AttestedCredentialDataIterator {}

impl AttestedCredentialData {
    /// Appends the encoded data to these bytes, and returns them. `OutOfMemory` if an allocation fails.
    pub(crate) fn append_to(
        &self,
        alloc: Global,
        mut bytes: Vec<u8>,
    ) -> Result<Vec<u8>, OutOfMemory>
        ensures written { IfOk result (λ all. all.items ≡ bytes.items ++ attested_written (attested_parts self.now)) }
        ensures valid { OnOk result (IsAttested (attested_parts self.now)) }
    {
        let len = self.credential_id.len() as u16;
        bytes.extend_from_slice(&self.aaguid.0)?;
        bytes.extend_from_slice(&len.to_be_bytes())?;
        bytes.extend_from_slice(&self.credential_id)?;
        let mut encoder = Encoder::from_vec(bytes);
        self.key.append(alloc, &mut encoder)?;
        Ok(encoder.into_vec())
    }

    /// Iterates over the encoded data, without allocating again. If an allocation fails, the
    /// error returns the data unchanged.
    pub fn try_into_iter(
        self,
        alloc: Global,
    ) -> Result<AttestedCredentialDataIterator, GivenBack<AttestedCredentialData>>
        ensures gives { IfOk result (λ left. left ≡ attested_written (attested_parts self)) }
        ensures back { IfErr result (λ e. e.value ≡ self) }
    {
        match self.append_to(alloc, Vec::new(alloc)) {
            Ok(bytes) => Ok(AttestedCredentialDataIterator(bytes.into_iter())),
            Err(OutOfMemory) => Err(GivenBack { value: self }),
        }
    }
}
