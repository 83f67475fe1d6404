//! Inputs and outputs of the extension largeBlob.
ghost use Rattle.passkey_registered.specs.extensions.LargeBlobs.{IsFlat, blob_get_inputs, blob_get_outputs, blob_make_inputs, blob_make_outputs};

use passkey_bytes::{Bytes, Text};
use passkey_kinds::{OutOfMemory, PlainRecord, Refusal, Row, Sink, Source, set};
use std::alloc::Global;

/// Inputs of the extension largeBlob at a registration (WebAuthn Level 3, section 10.1.5). `None` means
/// that the member is absent; null also decodes to `None`.
#[derive(Debug, Default, Drop, PartialEq, Eq)]
pub struct LargeBlobMakeInputs {
    /// `support`: `required` or `preferred`. Any name is kept.
    pub support: Option<Text>,
}

impl PlainRecord for LargeBlobMakeInputs {
    ghost table = { blob_make_inputs };

    fn rows() -> &'static [Row] {
        &[Row::Optional(1, "support")]
    }

    fn blank(_alloc: Global) -> LargeBlobMakeInputs {
        LargeBlobMakeInputs::default()
    }

    fn put<S: Source>(&mut self, alloc: Global, number: u8, source: &mut S) -> Result<(), Refusal> {
        match number {
            1 => set(&mut self.support, alloc, source),
            _ => Err(Refusal::Refused),
        }
    }

    fn put_members<S: Sink>(&self, alloc: Global, sink: &mut S) -> Result<(), OutOfMemory> {
        sink.put_some(alloc, "support", &self.support)?;
        Ok(())
    }

    #[tactic(auto, using(crate::proofs::ExtensionsLaws::blob_make_inputs_law))]
    fn lawful() {}
}

/// Inputs of the extension largeBlob at an assertion (WebAuthn Level 3, section 10.1.5). `None` means
/// that the member is absent; null also decodes to `None`.
#[derive(Debug, Default, Drop, PartialEq, Eq)]
pub struct LargeBlobGetInputs {
    /// `read`: whether the blob is to be returned.
    pub read: Option<bool>,
    /// `write`: the blob to store, compressed.
    pub write: Option<Bytes>,
    /// `originalSize`: the length of `write` in bytes before it was compressed.
    pub original_size: Option<u64>,
}

impl PlainRecord for LargeBlobGetInputs {
    ghost table = { blob_get_inputs };

    fn rows() -> &'static [Row] {
        &[
            Row::Optional(1, "read"),
            Row::Optional(2, "write"),
            Row::Optional(3, "originalSize"),
        ]
    }

    fn blank(_alloc: Global) -> LargeBlobGetInputs {
        LargeBlobGetInputs::default()
    }

    fn put<S: Source>(&mut self, alloc: Global, number: u8, source: &mut S) -> Result<(), Refusal> {
        match number {
            1 => set(&mut self.read, alloc, source),
            2 => set(&mut self.write, alloc, source),
            3 => set(&mut self.original_size, alloc, source),
            _ => Err(Refusal::Refused),
        }
    }

    fn put_members<S: Sink>(&self, alloc: Global, sink: &mut S) -> Result<(), OutOfMemory> {
        sink.put_some(alloc, "read", &self.read)?;
        sink.put_some(alloc, "write", &self.write)?;
        sink.put_some(alloc, "originalSize", &self.original_size)?;
        Ok(())
    }

    #[tactic(auto, using(crate::proofs::ExtensionsLaws::blob_get_inputs_law))]
    fn lawful() {}
}

/// Outputs of the extension largeBlob, of either command.
pub trait LargeBlobOutputs: PlainRecord {
    /// They decode to themselves, and nothing nests in them. Does nothing.
    fn is_flat()
        ensures { IsFlat Self.table };
}

/// Outputs of the extension largeBlob at a registration (WebAuthn Level 3, section 10.1.5). `None` means
/// that the member is absent; null also decodes to `None`.
#[derive(Debug, Default, Drop, PartialEq, Eq)]
pub struct LargeBlobMakeOutputs {
    /// `supported`: whether the credential can have a blob.
    pub supported: Option<bool>,
}

impl PlainRecord for LargeBlobMakeOutputs {
    ghost table = { blob_make_outputs };

    fn rows() -> &'static [Row] {
        &[Row::Optional(1, "supported")]
    }

    fn blank(_alloc: Global) -> LargeBlobMakeOutputs {
        LargeBlobMakeOutputs::default()
    }

    fn put<S: Source>(&mut self, alloc: Global, number: u8, source: &mut S) -> Result<(), Refusal> {
        match number {
            1 => set(&mut self.supported, alloc, source),
            _ => Err(Refusal::Refused),
        }
    }

    fn put_members<S: Sink>(&self, alloc: Global, sink: &mut S) -> Result<(), OutOfMemory> {
        sink.put_some(alloc, "supported", &self.supported)?;
        Ok(())
    }

    #[tactic(auto, using(crate::proofs::ExtensionsLaws::blob_make_outputs_law))]
    fn lawful() {}
}

impl LargeBlobOutputs for LargeBlobMakeOutputs {
    #[tactic(auto, using(crate::proofs::ExtensionsLaws::blob_make_outputs_flat))]
    fn is_flat() {}
}

/// Outputs of the extension largeBlob at an assertion (WebAuthn Level 3, section 10.1.5). `None` means
/// that the member is absent; null also decodes to `None`.
#[derive(Debug, Default, Drop, PartialEq, Eq)]
pub struct LargeBlobGetOutputs {
    /// `blob`: the stored blob, compressed.
    pub blob: Option<Bytes>,
    /// `written`: whether the blob was stored.
    pub written: Option<bool>,
    /// `originalSize`: the length of `blob` in bytes before it was compressed.
    pub original_size: Option<u64>,
}

impl PlainRecord for LargeBlobGetOutputs {
    ghost table = { blob_get_outputs };

    fn rows() -> &'static [Row] {
        &[
            Row::Optional(1, "blob"),
            Row::Optional(2, "written"),
            Row::Optional(3, "originalSize"),
        ]
    }

    fn blank(_alloc: Global) -> LargeBlobGetOutputs {
        LargeBlobGetOutputs::default()
    }

    fn put<S: Source>(&mut self, alloc: Global, number: u8, source: &mut S) -> Result<(), Refusal> {
        match number {
            1 => set(&mut self.blob, alloc, source),
            2 => set(&mut self.written, alloc, source),
            3 => set(&mut self.original_size, alloc, source),
            _ => Err(Refusal::Refused),
        }
    }

    fn put_members<S: Sink>(&self, alloc: Global, sink: &mut S) -> Result<(), OutOfMemory> {
        sink.put_some(alloc, "blob", &self.blob)?;
        sink.put_some(alloc, "written", &self.written)?;
        sink.put_some(alloc, "originalSize", &self.original_size)?;
        Ok(())
    }

    #[tactic(auto, using(crate::proofs::ExtensionsLaws::blob_get_outputs_law))]
    fn lawful() {}
}

impl LargeBlobOutputs for LargeBlobGetOutputs {
    #[tactic(auto, using(crate::proofs::ExtensionsLaws::blob_get_outputs_flat))]
    fn is_flat() {}
}
