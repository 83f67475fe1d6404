//! Options of requests.
ghost use Rattle.passkey_registered.specs.Entities.{request_options};

use crate::exact::set_present;
use passkey_kinds::{OutOfMemory, PlainRecord, Refusal, Row, Sink, Source};
use std::alloc::Global;

/// The options of an authenticatorMakeCredential or authenticatorGetAssertion request (CTAP 2.2,
/// sections 6.1 and 6.2). `None` means that the option is absent, and it is encoded as absent: what
/// counts then is the authenticator's to say.
#[derive(Debug, Default, Drop, PartialEq, Eq)]
pub struct RequestOptions {
    /// `rk`: whether the credential is to be discoverable. An authenticatorGetAssertion request has
    /// none.
    pub rk: Option<bool>,
    /// `up`: whether user presence is asked for.
    pub up: Option<bool>,
    /// `uv`: whether built-in user verification is asked for.
    pub uv: Option<bool>,
}

impl PlainRecord for RequestOptions {
    ghost table = { request_options };

    fn rows() -> &'static [Row] {
        &[
            Row::Optional(1, "rk"),
            Row::Optional(2, "up"),
            Row::Optional(3, "uv"),
        ]
    }

    fn blank(_alloc: Global) -> RequestOptions {
        RequestOptions::default()
    }

    fn put<S: Source>(&mut self, alloc: Global, number: u8, source: &mut S) -> Result<(), Refusal> {
        match number {
            1 => set_present(&mut self.rk, alloc, source),
            2 => set_present(&mut self.up, alloc, source),
            3 => set_present(&mut self.uv, alloc, source),
            _ => Err(Refusal::Refused),
        }
    }

    fn put_members<S: Sink>(&self, alloc: Global, sink: &mut S) -> Result<(), OutOfMemory> {
        sink.put_some(alloc, "rk", &self.rk)?;
        sink.put_some(alloc, "up", &self.up)?;
        sink.put_some(alloc, "uv", &self.uv)?;
        Ok(())
    }

    #[tactic(auto, using(crate::proofs::EntityLaws::request_options_law))]
    fn lawful() {}
}
