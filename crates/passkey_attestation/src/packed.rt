//! Attestation statements of the format packed.
ghost use Rattle.passkey_attestation.specs.Statements.{packed};

use crate::AlgorithmIdentifier;
use passkey_bytes::{Bytes, List};
use passkey_kinds::{OutOfMemory, PlainRecord, Refusal, Row, Sink, Source, set};
use std::alloc::Global;

/// An attestation statement of the format packed (WebAuthn Level 3, section 8.2). `None` means that the
/// member is absent; null also decodes to `None`.
#[derive(Debug, Drop, PartialEq, Eq)]
pub struct PackedStatement {
    /// `alg`: the algorithm of the signature.
    pub alg: AlgorithmIdentifier,
    /// `sig`: the signature.
    pub sig: Bytes,
    /// `x5c`: the attestation certificate and its chain, each in DER. If it is absent, the key of the
    /// credential itself signed: self attestation. The number of certificates isn't checked.
    pub x5c: Option<List<Bytes>>,
    /// `ecdaaKeyId`: the issuer key of ECDAA, which Level 1 alone has.
    pub ecdaa_key_id: Option<Bytes>,
}

impl PlainRecord for PackedStatement {
    ghost table = { packed };

    fn rows() -> &'static [Row] {
        &[
            Row::Required(1, "alg"),
            Row::Required(2, "sig"),
            Row::Optional(3, "x5c"),
            Row::Optional(4, "ecdaaKeyId"),
        ]
    }

    fn blank(alloc: Global) -> PackedStatement {
        PackedStatement {
            alg: AlgorithmIdentifier(0),
            sig: Bytes::empty(alloc),
            x5c: None,
            ecdaa_key_id: None,
        }
    }

    fn put<S: Source>(&mut self, alloc: Global, number: u8, source: &mut S) -> Result<(), Refusal> {
        match number {
            1 => set(&mut self.alg, alloc, source),
            2 => set(&mut self.sig, alloc, source),
            3 => set(&mut self.x5c, alloc, source),
            4 => set(&mut self.ecdaa_key_id, alloc, source),
            _ => Err(Refusal::Refused),
        }
    }

    fn put_members<S: Sink>(&self, alloc: Global, sink: &mut S) -> Result<(), OutOfMemory> {
        sink.put(alloc, "alg", &self.alg)?;
        sink.put(alloc, "sig", &self.sig)?;
        sink.put_some(alloc, "x5c", &self.x5c)?;
        sink.put_some(alloc, "ecdaaKeyId", &self.ecdaa_key_id)?;
        Ok(())
    }

    #[tactic(auto, using(crate::proofs::Statements::packed_law))]
    fn lawful() {}
}
