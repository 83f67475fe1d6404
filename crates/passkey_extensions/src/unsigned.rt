//! Unsigned extension outputs.
ghost use Rattle.std.specs.Prelude.{◌≡◌, is_some, None, option_map};
ghost use Rattle.passkey_core.specs.SignedOutputs.{where_some};
ghost use Rattle.passkey_extensions.specs.Prf.{unsigned, normal_unsigned};

use passkey_kinds::{PlainRecord, Refusal, Row, Sink, Source, set};
use passkey_memory::OutOfMemory;
use std::alloc::Global;

/// The extension outputs of a response that are outside its authenticator data (WebAuthn Level 3,
/// section 9), with the command's outputs of prf.
#[derive(Debug, Drop)]
pub struct UnsignedExtensionOutputs<P> {
    /// `prf`: its outputs for the salts, and at a registration whether it is enabled. `None` means
    /// that there are none, and is encoded as null.
    pub prf: Option<P>,
}

impl<P> Default for UnsignedExtensionOutputs<P> {
    ghost is_default = { λ outputs. outputs.prf ≡ None };

    /// Returns no outputs.
    fn default() -> UnsignedExtensionOutputs<P> {
        UnsignedExtensionOutputs { prf: None }
    }
}

impl<P: Drop> UnsignedExtensionOutputs<P> {
    /// Returns the outputs, or `None` if there are none.
    pub fn zip_contents(self) -> Option<UnsignedExtensionOutputs<P>>
        ensures { result ≡ where_some (is_some self.prf) self }
    {
        if self.prf.is_some() { Some(self) } else { None }
    }
}

impl<P: PlainRecord> PlainRecord for UnsignedExtensionOutputs<P> {
    ghost table = { unsigned P.table };

    ghost normal = { normal_unsigned P.normal };

    fn rows() -> &'static [Row] {
        &[Row::Optional(1, "prf")]
    }

    fn blank(_alloc: Global) -> UnsignedExtensionOutputs<P> {
        UnsignedExtensionOutputs::default()
    }

    fn put<S: Source>(&mut self, alloc: Global, number: u8, source: &mut S) -> Result<(), Refusal> {
        match number {
            1 => set(&mut self.prf, alloc, source),
            _ => Err(Refusal::Refused),
        }
    }

    fn put_members<S: Sink>(&self, alloc: Global, sink: &mut S) -> Result<(), OutOfMemory> {
        sink.put(alloc, "prf", &self.prf)?;
        Ok(())
    }

    #[tactic(auto, using(crate::proofs::Extensions::unsigned_back, crate::proofs::Extensions::unsigned_keys))]
    fn lawful() {
        P::lawful();
    }
}
