//! authenticatorLargeBlobs responses.
ghost use Rattle.std.specs.Prelude.{None};
ghost use Rattle.passkey_commands.specs.large_blobs.LbResponse.{lb_response};

use passkey_bytes::Bytes;
use passkey_kinds::{
    Kept, OutOfMemory, Refusal, Row, Sink, Source, TableMessage, TableRecord, set,
};
use std::alloc::Global;

/// An authenticatorLargeBlobs response (CTAP 2.1, section 6.10). `None` means that the member is
/// absent; null also decodes to `None`.
#[derive(Debug, Default, Drop)]
pub struct Response {
    /// 0x01: the fragment that was read of the serialized large-blob array. It is absent after a
    /// write.
    pub config: Option<Bytes>,
}

impl TableRecord for Response {
    ghost table = { lb_response };

    fn is_numbered() -> bool {
        true
    }

    fn rows() -> &'static [Row] {
        &[Row::Optional(1, "config")]
    }

    fn blank(_alloc: Global) -> Response {
        Response::default()
    }

    fn put<S: Source>(&mut self, alloc: Global, number: u8, source: &mut S) -> Result<(), Refusal> {
        match number {
            1 => set(&mut self.config, alloc, source),
            _ => Err(Refusal::Refused),
        }
    }

    fn put_members<S: Sink>(&self, alloc: Global, sink: &mut S) -> Result<(), OutOfMemory> {
        sink.put_some(alloc, 1_u8, &self.config)?;
        Ok(())
    }

    #[tactic(auto, using(crate::proofs::LargeBlobs::lb_response_law))]
    fn lawful() {}
}

impl TableMessage for Response {
    ghost cost = { 5 };

    fn kept(&self) -> Option<&Kept> {
        None
    }

    #[tactic(auto, using(crate::proofs::LargeBlobs::lb_response_law))]
    fn is_message() {}
}
