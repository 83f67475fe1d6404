//! Extension outputs in the authenticator data of a registration, decoded from data items and
//! encoded (WebAuthn Level 3, section 9.5).
ghost use Rattle.passkey_kinds.specs.Coded.{make_credential_signed};

use crate::{OutOfMemory, PlainRecord, Refusal, Row, Sink, Source, set};
use passkey_core::make_credential::SignedExtensionOutputs;
use std::alloc::Global;

impl PlainRecord for SignedExtensionOutputs {
    ghost table = { make_credential_signed };

    fn rows() -> &'static [Row] {
        &[
            Row::Optional(1, "hmac-secret"),
            Row::Optional(2, "hmac-secret-mc"),
        ]
    }

    fn blank(_alloc: Global) -> SignedExtensionOutputs {
        SignedExtensionOutputs {
            hmac_secret: None,
            hmac_secret_mc: None,
        }
    }

    fn put<S: Source>(&mut self, alloc: Global, number: u8, source: &mut S) -> Result<(), Refusal> {
        match number {
            1 => set(&mut self.hmac_secret, alloc, source),
            2 => set(&mut self.hmac_secret_mc, alloc, source),
            _ => Err(Refusal::Refused),
        }
    }

    fn put_members<S: Sink>(&self, alloc: Global, sink: &mut S) -> Result<(), OutOfMemory> {
        sink.put_some(alloc, "hmac-secret", &self.hmac_secret)?;
        sink.put_some(alloc, "hmac-secret-mc", &self.hmac_secret_mc)
    }

    #[tactic(auto, using(crate::proofs::Lawful::make_credential_signed_law))]
    fn lawful() {}
}
