//! Extension outputs of a response that are outside its authenticator data.
ghost use Rattle.std.specs.Prelude.{◌≡◌, None};
ghost use Rattle.passkey_registered.specs.extensions.Unsigned.{unsigned_outputs};

use crate::extensions::{LargeBlobOutputs, PrfOutputs};
use passkey_kinds::{
    Kept, OutOfMemory, PlainRecord, Refusal, Row, Sink, Source, TableMessage, set,
};
use std::alloc::Global;

/// Extension outputs of a response that are outside its authenticator data, with the command's outputs
/// of largeBlob: member 0x06 of an authenticatorMakeCredential response (CTAP 2.3, section 6.1), and
/// 0x08 of an authenticatorGetAssertion response (section 6.2). `None` means that the member is absent;
/// null also decodes to `None`. `others_of` returns the outputs that aren't here, such as previewSign's,
/// and `with_others` and `with_row` put them back.
#[derive(Debug, Drop)]
pub struct UnsignedExtensionOutputs<L> {
    /// `prf`: its outputs.
    pub prf: Option<PrfOutputs>,
    /// `largeBlob`: its outputs.
    pub large_blob: Option<L>,
}

impl<L> Default for UnsignedExtensionOutputs<L> {
    ghost is_default = { λ outputs. (outputs.prf ≡ None) × (outputs.large_blob ≡ None) };

    /// Returns no outputs.
    fn default() -> UnsignedExtensionOutputs<L> {
        UnsignedExtensionOutputs {
            prf: None,
            large_blob: None,
        }
    }
}

impl<L: LargeBlobOutputs> PlainRecord for UnsignedExtensionOutputs<L> {
    ghost table = { unsigned_outputs L.table };

    fn rows() -> &'static [Row] {
        &[Row::Optional(1, "prf"), Row::Optional(2, "largeBlob")]
    }

    fn blank(_alloc: Global) -> UnsignedExtensionOutputs<L> {
        UnsignedExtensionOutputs::default()
    }

    fn put<S: Source>(&mut self, alloc: Global, number: u8, source: &mut S) -> Result<(), Refusal> {
        match number {
            1 => set(&mut self.prf, alloc, source),
            2 => set(&mut self.large_blob, alloc, source),
            _ => Err(Refusal::Refused),
        }
    }

    fn put_members<S: Sink>(&self, alloc: Global, sink: &mut S) -> Result<(), OutOfMemory> {
        sink.put_some(alloc, "prf", &self.prf)?;
        sink.put_some(alloc, "largeBlob", &self.large_blob)?;
        Ok(())
    }

    #[tactic(auto, using(crate::proofs::ExtensionsLaws::unsigned_outputs_law))]
    fn lawful() {
        L::is_flat();
    }
}

impl<L: LargeBlobOutputs> TableMessage for UnsignedExtensionOutputs<L> {
    ghost cost = { 7 };

    fn kept(&self) -> Option<&Kept> {
        None
    }

    #[tactic(auto, using(crate::proofs::ExtensionsLaws::unsigned_outputs_messages, crate::proofs::ExtensionsLaws::unsigned_outputs_cost))]
    fn is_message() {
        L::is_flat();
    }
}
