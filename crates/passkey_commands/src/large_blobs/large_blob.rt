//! Entries of the large-blob array.
ghost use Rattle.std.specs.Prelude.{None};
ghost use Rattle.passkey_commands.specs.large_blobs.LargeBlob.{large_blob};

use passkey_bytes::Bytes;
use passkey_kinds::{
    Kept, OutOfMemory, Refusal, Row, Sink, Source, TableMessage, TableRecord, set,
};
use std::alloc::Global;

/// An entry of the large-blob array: a compressed blob, encrypted under a credential's largeBlobKey
/// (CTAP 2.1, section 6.10.3).
#[derive(Debug, Drop)]
pub struct LargeBlob {
    /// 0x01: the ciphertext with its authentication tag.
    pub ciphertext: Bytes,
    /// 0x02: the nonce, 12 bytes. The length isn't checked.
    pub nonce: Bytes,
    /// 0x03: `origSize`, the length in bytes of the blob before it was compressed.
    pub orig_size: u64,
}

impl TableRecord for LargeBlob {
    ghost table = { large_blob };

    fn is_numbered() -> bool {
        true
    }

    fn rows() -> &'static [Row] {
        &[
            Row::Required(1, "ciphertext"),
            Row::Required(2, "nonce"),
            Row::Required(3, "origSize"),
        ]
    }

    fn blank(alloc: Global) -> LargeBlob {
        LargeBlob {
            ciphertext: Bytes::empty(alloc),
            nonce: Bytes::empty(alloc),
            orig_size: 0,
        }
    }

    fn put<S: Source>(&mut self, alloc: Global, number: u8, source: &mut S) -> Result<(), Refusal> {
        match number {
            1 => set(&mut self.ciphertext, alloc, source),
            2 => set(&mut self.nonce, alloc, source),
            3 => set(&mut self.orig_size, alloc, source),
            _ => Err(Refusal::Refused),
        }
    }

    fn put_members<S: Sink>(&self, alloc: Global, sink: &mut S) -> Result<(), OutOfMemory> {
        sink.put(alloc, 1_u8, &self.ciphertext)?;
        sink.put(alloc, 2_u8, &self.nonce)?;
        sink.put(alloc, 3_u8, &self.orig_size)?;
        Ok(())
    }

    #[tactic(auto, using(crate::proofs::LargeBlobs::large_blob_law))]
    fn lawful() {}
}

impl TableMessage for LargeBlob {
    ghost cost = { 5 };

    fn kept(&self) -> Option<&Kept> {
        None
    }

    #[tactic(auto, using(crate::proofs::LargeBlobs::large_blob_law))]
    fn is_message() {}
}
