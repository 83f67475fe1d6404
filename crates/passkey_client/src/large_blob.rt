//! Inputs and outputs of the client extension largeBlob.
ghost use Rattle.passkey_client.specs.ClientExtensions.{large_blob_inputs, large_blob_outputs};

use passkey_bytes::{Bytes, Text};
use passkey_json::{EncodeResult, JsonEncoder, JsonFault, Member, PlainJsonRecord, Row, place};
use std::alloc::Global;

/// Inputs of the client extension largeBlob (WebAuthn Level 3, section 10.1.5). `None` means that
/// the member is absent; null also decodes to `None`.
#[derive(Debug, Drop)]
pub struct LargeBlobInputs {
    /// support: `required` or `preferred`, at a registration. Any name is kept.
    pub support: Option<Text>,
    /// read: whether the blob is to be returned, at a sign-in.
    pub read: Option<bool>,
    /// write: the blob to store, at a sign-in.
    pub write: Option<Bytes>,
}

impl PlainJsonRecord for LargeBlobInputs {
    ghost table = { large_blob_inputs };

    fn rows() -> &'static [Row] {
        &[
            Row::Named(1, "support"),
            Row::Named(2, "read"),
            Row::Named(3, "write"),
        ]
    }

    fn blank(_alloc: Global) -> LargeBlobInputs {
        LargeBlobInputs {
            support: None,
            read: None,
            write: None,
        }
    }

    fn put(&mut self, number: u8, member: &mut Member<'_>) -> Result<(), JsonFault> {
        match number {
            1 => place(&mut self.support, member.or_default(None)),
            2 => place(&mut self.read, member.or_default(None)),
            3 => place(&mut self.write, member.or_default(None)),
            _ => Ok(()),
        }
    }

    fn encode(&self, number: u8, encoder: JsonEncoder) -> EncodeResult {
        match number {
            1 => encoder.optional(&self.support),
            2 => encoder.optional(&self.read),
            3 => encoder.optional(&self.write),
            _ => Ok(None),
        }
    }
}

/// Outputs of the client extension largeBlob (WebAuthn Level 3, section 10.1.5). `None` means that
/// the member is absent; null also decodes to `None`.
#[derive(Debug, Drop)]
pub struct LargeBlobOutputs {
    /// supported: whether the credential can have a blob, at a registration.
    pub supported: Option<bool>,
    /// blob: the stored blob, at a sign-in.
    pub blob: Option<Bytes>,
    /// written: whether the blob was stored, at a sign-in.
    pub written: Option<bool>,
}

impl PlainJsonRecord for LargeBlobOutputs {
    ghost table = { large_blob_outputs };

    fn rows() -> &'static [Row] {
        &[
            Row::Named(1, "supported"),
            Row::Named(2, "blob"),
            Row::Named(3, "written"),
        ]
    }

    fn blank(_alloc: Global) -> LargeBlobOutputs {
        LargeBlobOutputs {
            supported: None,
            blob: None,
            written: None,
        }
    }

    fn put(&mut self, number: u8, member: &mut Member<'_>) -> Result<(), JsonFault> {
        match number {
            1 => place(&mut self.supported, member.or_default(None)),
            2 => place(&mut self.blob, member.or_default(None)),
            3 => place(&mut self.written, member.or_default(None)),
            _ => Ok(()),
        }
    }

    fn encode(&self, number: u8, encoder: JsonEncoder) -> EncodeResult {
        match number {
            1 => encoder.optional(&self.supported),
            2 => encoder.optional(&self.blob),
            3 => encoder.optional(&self.written),
            _ => Ok(None),
        }
    }
}
