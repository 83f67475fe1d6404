//! Attestation statements of the format apple.
ghost use Rattle.passkey_attestation.specs.Statements.{apple};

use crate::AlgorithmIdentifier;
use passkey_bytes::{Bytes, List};
use passkey_kinds::{OutOfMemory, PlainRecord, Refusal, Row, Sink, Source, set};
use std::alloc::Global;

/// An attestation statement of the format apple (WebAuthn Level 3, section 8.8). `None` means that the
/// member is absent; null also decodes to `None`.
#[derive(Debug, Drop, PartialEq, Eq)]
pub struct AppleStatement {
    /// `alg`: an algorithm, which earlier drafts have and devices have sent.
    pub alg: Option<AlgorithmIdentifier>,
    /// `x5c`: the certificate of the credential's key and its chain, each in DER. The number of
    /// certificates isn't checked.
    pub x5c: List<Bytes>,
}

impl PlainRecord for AppleStatement {
    ghost table = { apple };

    fn rows() -> &'static [Row] {
        &[Row::Optional(1, "alg"), Row::Required(2, "x5c")]
    }

    fn blank(alloc: Global) -> AppleStatement {
        AppleStatement {
            alg: None,
            x5c: List::empty(alloc),
        }
    }

    fn put<S: Source>(&mut self, alloc: Global, number: u8, source: &mut S) -> Result<(), Refusal> {
        match number {
            1 => set(&mut self.alg, alloc, source),
            2 => set(&mut self.x5c, alloc, source),
            _ => Err(Refusal::Refused),
        }
    }

    fn put_members<S: Sink>(&self, alloc: Global, sink: &mut S) -> Result<(), OutOfMemory> {
        sink.put_some(alloc, "alg", &self.alg)?;
        sink.put(alloc, "x5c", &self.x5c)?;
        Ok(())
    }

    #[tactic(auto, using(crate::proofs::Statements::apple_law))]
    fn lawful() {}
}
