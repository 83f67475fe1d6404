//! Attestation statements of the format android-safetynet.
ghost use Rattle.passkey_attestation.specs.Statements.{safety_net};

use passkey_bytes::{Bytes, Text};
use passkey_kinds::{OutOfMemory, PlainRecord, Refusal, Row, Sink, Source, set};
use std::alloc::Global;

/// An attestation statement of the format android-safetynet (WebAuthn Level 3, section 8.5).
#[derive(Debug, Drop, PartialEq, Eq)]
pub struct SafetyNetStatement {
    /// `ver`: the version of Google Play Services.
    pub ver: Text,
    /// `response`: the result of the SafetyNet API, a JWS in compact serialization, as UTF-8.
    pub response: Bytes,
}

impl PlainRecord for SafetyNetStatement {
    ghost table = { safety_net };

    fn rows() -> &'static [Row] {
        &[Row::Required(1, "ver"), Row::Required(2, "response")]
    }

    fn blank(alloc: Global) -> SafetyNetStatement {
        SafetyNetStatement {
            ver: Text::empty(alloc),
            response: Bytes::empty(alloc),
        }
    }

    fn put<S: Source>(&mut self, alloc: Global, number: u8, source: &mut S) -> Result<(), Refusal> {
        match number {
            1 => set(&mut self.ver, alloc, source),
            2 => set(&mut self.response, alloc, source),
            _ => Err(Refusal::Refused),
        }
    }

    fn put_members<S: Sink>(&self, alloc: Global, sink: &mut S) -> Result<(), OutOfMemory> {
        sink.put(alloc, "ver", &self.ver)?;
        sink.put(alloc, "response", &self.response)?;
        Ok(())
    }

    #[tactic(auto, using(crate::proofs::Statements::safety_net_law))]
    fn lawful() {}
}
