//! Attestation statements of the format fido-u2f.
ghost use Rattle.passkey_attestation.specs.Statements.{fido_u2f};

use passkey_bytes::{Bytes, List};
use passkey_kinds::{OutOfMemory, PlainRecord, Refusal, Row, Sink, Source, set};
use std::alloc::Global;

/// An attestation statement of the format fido-u2f (WebAuthn Level 3, section 8.6).
#[derive(Debug, Drop, PartialEq, Eq)]
pub struct FidoU2fStatement {
    /// `sig`: the signature.
    pub sig: Bytes,
    /// `x5c`: the attestation certificate in DER. The standard has exactly one, which isn't checked.
    pub x5c: List<Bytes>,
}

impl PlainRecord for FidoU2fStatement {
    ghost table = { fido_u2f };

    fn rows() -> &'static [Row] {
        &[Row::Required(1, "sig"), Row::Required(2, "x5c")]
    }

    fn blank(alloc: Global) -> FidoU2fStatement {
        FidoU2fStatement {
            sig: Bytes::empty(alloc),
            x5c: List::empty(alloc),
        }
    }

    fn put<S: Source>(&mut self, alloc: Global, number: u8, source: &mut S) -> Result<(), Refusal> {
        match number {
            1 => set(&mut self.sig, alloc, source),
            2 => set(&mut self.x5c, alloc, source),
            _ => Err(Refusal::Refused),
        }
    }

    fn put_members<S: Sink>(&self, alloc: Global, sink: &mut S) -> Result<(), OutOfMemory> {
        sink.put(alloc, "sig", &self.sig)?;
        sink.put(alloc, "x5c", &self.x5c)?;
        Ok(())
    }

    #[tactic(auto, using(crate::proofs::Statements::fido_u2f_law))]
    fn lawful() {}
}
