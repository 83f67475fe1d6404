//! authenticatorLargeBlobs requests.
ghost use Rattle.std.specs.Prelude.{None};
ghost use Rattle.passkey_commands.specs.large_blobs.LbRequest.{lb_request};

use passkey_bytes::Bytes;
use passkey_kinds::{
    Kept, OutOfMemory, Refusal, Row, Sink, Source, TableMessage, TableRecord, set,
};
use std::alloc::Global;

/// An authenticatorLargeBlobs request (CTAP 2.1, section 6.10). Exactly one of `get` and `set` MUST
/// be present, which isn't checked. `None` means that the member is absent; null also decodes to
/// `None`.
#[derive(Debug, Default, Drop)]
pub struct Request {
    /// 0x01: the number of bytes to read.
    pub get: Option<u64>,
    /// 0x02: a fragment to write.
    pub set: Option<Bytes>,
    /// 0x03: the offset in bytes at which to read or write.
    pub offset: u64,
    /// 0x04: the total length in bytes of what is written. It is present exactly with `set` at
    /// offset 0.
    pub length: Option<u64>,
    /// 0x05: `pinUvAuthParam`, which authenticates the request with the pinUvAuthToken. The length
    /// isn't checked.
    pub pin_uv_auth_param: Option<Bytes>,
    /// 0x06: the PIN/UV auth protocol of `pin_uv_auth_param`.
    pub pin_uv_auth_protocol: Option<u8>,
}

impl TableRecord for Request {
    ghost table = { lb_request };

    fn is_numbered() -> bool {
        true
    }

    fn rows() -> &'static [Row] {
        &[
            Row::Optional(1, "get"),
            Row::Optional(2, "set"),
            Row::Required(3, "offset"),
            Row::Optional(4, "length"),
            Row::Optional(5, "pinUvAuthParam"),
            Row::Optional(6, "pinUvAuthProtocol"),
        ]
    }

    fn blank(_alloc: Global) -> Request {
        Request::default()
    }

    fn put<S: Source>(&mut self, alloc: Global, number: u8, source: &mut S) -> Result<(), Refusal> {
        match number {
            1 => set(&mut self.get, alloc, source),
            2 => set(&mut self.set, alloc, source),
            3 => set(&mut self.offset, alloc, source),
            4 => set(&mut self.length, alloc, source),
            5 => set(&mut self.pin_uv_auth_param, alloc, source),
            6 => set(&mut self.pin_uv_auth_protocol, alloc, source),
            _ => Err(Refusal::Refused),
        }
    }

    fn put_members<S: Sink>(&self, alloc: Global, sink: &mut S) -> Result<(), OutOfMemory> {
        sink.put_some(alloc, 1_u8, &self.get)?;
        sink.put_some(alloc, 2_u8, &self.set)?;
        sink.put(alloc, 3_u8, &self.offset)?;
        sink.put_some(alloc, 4_u8, &self.length)?;
        sink.put_some(alloc, 5_u8, &self.pin_uv_auth_param)?;
        sink.put_some(alloc, 6_u8, &self.pin_uv_auth_protocol)?;
        Ok(())
    }

    #[tactic(auto, using(crate::proofs::LargeBlobs::lb_request_law))]
    fn lawful() {}
}

impl TableMessage for Request {
    ghost cost = { 5 };

    fn kept(&self) -> Option<&Kept> {
        None
    }

    #[tactic(auto, using(crate::proofs::LargeBlobs::lb_request_law))]
    fn is_message() {}
}
