//! Extension outputs in the authenticator data of an assertion, decoded from data items and encoded
//! (WebAuthn Level 3, section 9.5).
ghost use Rattle.passkey_kinds.specs.Coded.{get_assertion_signed};

use crate::{OutOfMemory, PlainRecord, Refusal, Row, Sink, Source, set};
use passkey_core::get_assertion::SignedExtensionOutputs;
use std::alloc::Global;

impl PlainRecord for SignedExtensionOutputs {
    ghost table = { get_assertion_signed };

    fn rows() -> &'static [Row] {
        &[Row::Optional(1, "hmac-secret")]
    }

    fn blank(_alloc: Global) -> SignedExtensionOutputs {
        SignedExtensionOutputs { hmac_secret: None }
    }

    fn put<S: Source>(&mut self, alloc: Global, number: u8, source: &mut S) -> Result<(), Refusal> {
        match number {
            1 => set(&mut self.hmac_secret, alloc, source),
            _ => Err(Refusal::Refused),
        }
    }

    fn put_members<S: Sink>(&self, alloc: Global, sink: &mut S) -> Result<(), OutOfMemory> {
        sink.put_some(alloc, "hmac-secret", &self.hmac_secret)
    }

    #[tactic(auto, using(crate::proofs::Lawful::get_assertion_signed_law))]
    fn lawful() {}
}
