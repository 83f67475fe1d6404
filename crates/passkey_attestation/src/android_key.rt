//! Attestation statements of the format android-key.
ghost use Rattle.passkey_attestation.specs.Statements.{android_key};

use crate::AlgorithmIdentifier;
use passkey_bytes::{Bytes, List};
use passkey_kinds::{OutOfMemory, PlainRecord, Refusal, Row, Sink, Source, set};
use std::alloc::Global;

/// An attestation statement of the format android-key (WebAuthn Level 3, section 8.4).
#[derive(Debug, Drop, PartialEq, Eq)]
pub struct AndroidKeyStatement {
    /// `alg`: the algorithm of the signature.
    pub alg: AlgorithmIdentifier,
    /// `sig`: the signature.
    pub sig: Bytes,
    /// `x5c`: the certificate of the credential's key and its chain, each in DER. The number of
    /// certificates isn't checked.
    pub x5c: List<Bytes>,
}

impl PlainRecord for AndroidKeyStatement {
    ghost table = { android_key };

    fn rows() -> &'static [Row] {
        &[
            Row::Required(1, "alg"),
            Row::Required(2, "sig"),
            Row::Required(3, "x5c"),
        ]
    }

    fn blank(alloc: Global) -> AndroidKeyStatement {
        AndroidKeyStatement {
            alg: AlgorithmIdentifier(0),
            sig: Bytes::empty(alloc),
            x5c: List::empty(alloc),
        }
    }

    fn put<S: Source>(&mut self, alloc: Global, number: u8, source: &mut S) -> Result<(), Refusal> {
        match number {
            1 => set(&mut self.alg, alloc, source),
            2 => set(&mut self.sig, alloc, source),
            3 => set(&mut self.x5c, alloc, source),
            _ => Err(Refusal::Refused),
        }
    }

    fn put_members<S: Sink>(&self, alloc: Global, sink: &mut S) -> Result<(), OutOfMemory> {
        sink.put(alloc, "alg", &self.alg)?;
        sink.put(alloc, "sig", &self.sig)?;
        sink.put(alloc, "x5c", &self.x5c)?;
        Ok(())
    }

    #[tactic(auto, using(crate::proofs::Statements::android_key_law))]
    fn lawful() {}
}
