//! Extension outputs in the authenticator data of an assertion.
ghost use Rattle.std.specs.Prelude.{None, false};
ghost use Rattle.passkey_registered.specs.extensions.GetAssertionOutputs.{get_assertion_outputs};

use passkey_bytes::{Bytes, List};
use passkey_kinds::{
    Kept, OutOfMemory, Refusal, Row, Sink, Source, TableMessage, TableRecord, set,
};
use std::alloc::Global;

/// Extension outputs in the authenticator data of an assertion (WebAuthn Level 3, section 6.1).
/// `None` means that the member is absent; null also decodes to `None`.
#[derive(Debug, Default, Drop)]
pub struct SignedExtensionOutputs {
    /// `uvm`: the user verification methods, as at a registration.
    pub uvm: Option<List<List<u32>>>,
    /// `credBlob`: what is stored with the credential.
    pub cred_blob: Option<Bytes>,
    /// `hmac-secret`: the outputs for the salts, encrypted.
    pub hmac_secret: Option<Bytes>,
    /// `thirdPartyPayment`: whether the credential is for payments on other sites.
    pub third_party_payment: Option<bool>,
}

impl TableRecord for SignedExtensionOutputs {
    ghost table = { get_assertion_outputs };

    ghost numbered = { false };

    fn is_numbered() -> bool {
        false
    }

    fn rows() -> &'static [Row] {
        &[
            Row::Optional(1, "uvm"),
            Row::Optional(2, "credBlob"),
            Row::Optional(3, "hmac-secret"),
            Row::Optional(4, "thirdPartyPayment"),
        ]
    }

    fn blank(_alloc: Global) -> SignedExtensionOutputs {
        SignedExtensionOutputs::default()
    }

    fn put<S: Source>(&mut self, alloc: Global, number: u8, source: &mut S) -> Result<(), Refusal> {
        match number {
            1 => set(&mut self.uvm, alloc, source),
            2 => set(&mut self.cred_blob, alloc, source),
            3 => set(&mut self.hmac_secret, alloc, source),
            4 => set(&mut self.third_party_payment, alloc, source),
            _ => Err(Refusal::Refused),
        }
    }

    fn put_members<S: Sink>(&self, alloc: Global, sink: &mut S) -> Result<(), OutOfMemory> {
        sink.put_some(alloc, "uvm", &self.uvm)?;
        sink.put_some(alloc, "credBlob", &self.cred_blob)?;
        sink.put_some(alloc, "hmac-secret", &self.hmac_secret)?;
        sink.put_some(alloc, "thirdPartyPayment", &self.third_party_payment)?;
        Ok(())
    }

    #[tactic(auto, using(crate::proofs::ExtensionsLaws::get_assertion_outputs_law))]
    fn lawful() {}
}

impl TableMessage for SignedExtensionOutputs {
    ghost cost = { 5 };

    fn kept(&self) -> Option<&Kept> {
        None
    }

    #[tactic(auto, using(crate::proofs::ExtensionsLaws::get_assertion_outputs_messages))]
    fn is_message() {}
}
