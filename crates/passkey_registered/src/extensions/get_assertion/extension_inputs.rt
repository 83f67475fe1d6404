//! Extension inputs of an authenticatorGetAssertion request.
ghost use Rattle.std.specs.Prelude.{false};
ghost use Rattle.passkey_registered.specs.extensions.GetAssertionInputs.{get_assertion_inputs};

use crate::extensions::{LargeBlobGetInputs, PrfInputs};
use passkey_kinds::{
    Kept, OutOfMemory, Refusal, Row, Sink, Source, TableMessage, TableRecord, set,
};
use std::alloc::Global;

/// Extension inputs of an authenticatorGetAssertion request: member 0x04 (CTAP 2.3, section 6.2).
/// `None` means that the member is absent; null also decodes to `None`.
#[derive(Debug, Default, Drop)]
pub struct ExtensionInputs {
    /// `prf`: the salts.
    pub prf: Option<PrfInputs>,
    /// `uvm`: whether the user verification methods are asked for (WebAuthn Level 2, section 10.3).
    pub uvm: Option<bool>,
    /// `credBlob`: whether what is stored with the credential is asked for (CTAP 2.1, section
    /// 12.2).
    pub cred_blob: Option<bool>,
    /// `largeBlob`: whether the blob is to be returned or written.
    pub large_blob: Option<LargeBlobGetInputs>,
    /// `hmac-secret`: the salts, as a data item that `HmacGetSecretInput::from_value` decodes (CTAP
    /// 2.1, section 12.5).
    pub hmac_secret: Option<Kept>,
    /// `largeBlobKey`: whether the largeBlobKey is asked for (CTAP 2.1, section 12.3).
    pub large_blob_key: Option<bool>,
    /// `thirdPartyPayment`: whether it is asked if the credential is for payments on other sites
    /// (CTAP 2.2).
    pub third_party_payment: Option<bool>,
}

impl TableRecord for ExtensionInputs {
    ghost table = { get_assertion_inputs };

    ghost numbered = { false };

    ghost kept = { λ r. r.hmac_secret };

    fn is_numbered() -> bool {
        false
    }

    fn rows() -> &'static [Row] {
        &[
            Row::Optional(1, "prf"),
            Row::Optional(2, "uvm"),
            Row::Optional(3, "credBlob"),
            Row::Optional(4, "largeBlob"),
            Row::Optional(5, "hmac-secret"),
            Row::Optional(6, "largeBlobKey"),
            Row::Optional(7, "thirdPartyPayment"),
        ]
    }

    fn blank(_alloc: Global) -> ExtensionInputs {
        ExtensionInputs::default()
    }

    fn put<S: Source>(&mut self, alloc: Global, number: u8, source: &mut S) -> Result<(), Refusal> {
        match number {
            1 => set(&mut self.prf, alloc, source),
            2 => set(&mut self.uvm, alloc, source),
            3 => set(&mut self.cred_blob, alloc, source),
            4 => set(&mut self.large_blob, alloc, source),
            5 => set(&mut self.hmac_secret, alloc, source),
            6 => set(&mut self.large_blob_key, alloc, source),
            7 => set(&mut self.third_party_payment, alloc, source),
            _ => Err(Refusal::Refused),
        }
    }

    fn put_members<S: Sink>(&self, alloc: Global, sink: &mut S) -> Result<(), OutOfMemory> {
        sink.put_some(alloc, "prf", &self.prf)?;
        sink.put_some(alloc, "uvm", &self.uvm)?;
        sink.put_some(alloc, "credBlob", &self.cred_blob)?;
        sink.put_some(alloc, "largeBlob", &self.large_blob)?;
        sink.put_some(alloc, "hmac-secret", &self.hmac_secret)?;
        sink.put_some(alloc, "largeBlobKey", &self.large_blob_key)?;
        sink.put_some(alloc, "thirdPartyPayment", &self.third_party_payment)?;
        Ok(())
    }

    #[tactic(auto, using(crate::proofs::ExtensionsLaws::get_assertion_inputs_law))]
    fn lawful() {}
}

impl TableMessage for ExtensionInputs {
    ghost cost = { 8 };

    fn kept(&self) -> Option<&Kept> {
        self.hmac_secret.as_ref()
    }

    #[tactic(auto, using(crate::proofs::ExtensionsLaws::get_assertion_inputs_law))]
    fn is_message() {}
}
