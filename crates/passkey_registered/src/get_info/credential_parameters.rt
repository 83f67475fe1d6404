//! Credential types with their algorithms.
ghost use Rattle.passkey_registered.specs.get_info.CredentialParameters.{credential_parameters};

use passkey_attestation::AlgorithmIdentifier;
use passkey_bytes::Text;
use passkey_kinds::{OutOfMemory, PlainRecord, Refusal, Row, Sink, Source, set};
use std::alloc::Global;

/// A credential type with an algorithm, registered or not (WebAuthn Level 3, section 5.3).
#[derive(Debug, Drop, PartialEq, Eq)]
pub struct CredentialParameters {
    /// `alg`: the algorithm.
    pub alg: AlgorithmIdentifier,
    /// `type`: the credential type. WebAuthn has `public-key` alone.
    pub ty: Text,
}

impl PlainRecord for CredentialParameters {
    ghost table = { credential_parameters };

    fn rows() -> &'static [Row] {
        &[Row::Required(1, "alg"), Row::Required(2, "type")]
    }

    fn blank(alloc: Global) -> CredentialParameters {
        CredentialParameters {
            alg: AlgorithmIdentifier(0),
            ty: Text::empty(alloc),
        }
    }

    fn put<S: Source>(&mut self, alloc: Global, number: u8, source: &mut S) -> Result<(), Refusal> {
        match number {
            1 => set(&mut self.alg, alloc, source),
            2 => set(&mut self.ty, alloc, source),
            _ => Err(Refusal::Refused),
        }
    }

    fn put_members<S: Sink>(&self, alloc: Global, sink: &mut S) -> Result<(), OutOfMemory> {
        sink.put(alloc, "alg", &self.alg)?;
        sink.put(alloc, "type", &self.ty)?;
        Ok(())
    }

    #[tactic(auto, using(crate::proofs::Information::parameters_law))]
    fn lawful() {}
}
