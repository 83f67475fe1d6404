//! Extension outputs in the authenticator data of a registration.
ghost use Rattle.std.specs.Prelude.{None, false};
ghost use Rattle.passkey_registered.specs.extensions.MakeCredentialOutputs.{make_credential_outputs, normal_make_credential_outputs};

use crate::extensions::cred_protect::put_level;
use passkey_bytes::{Bytes, List};
use passkey_commands::credential_management::CredProtect;
use passkey_kinds::{
    Kept, OutOfMemory, Refusal, Row, Sink, Source, TableMessage, TableRecord, set, set_some_code,
};
use std::alloc::Global;

/// Extension outputs in the authenticator data of a registration (WebAuthn Level 3, section 6.1).
/// `None` means that the member is absent; null also decodes to `None`.
#[derive(Debug, Default, Drop)]
pub struct SignedExtensionOutputs {
    /// `uvm`: the user verification methods, one to three entries of three numbers: the method, the
    /// key protection and the matcher protection (WebAuthn Level 2, section 10.3). The numbers of
    /// entries and of numbers aren't checked.
    pub uvm: Option<List<List<u32>>>,
    /// `credBlob`: whether it was stored.
    pub cred_blob: Option<bool>,
    /// `credProtect`: the credential protection policy.
    pub cred_protect: Option<CredProtect>,
    /// `hmac-secret`: whether the credential supports the extension.
    pub hmac_secret: Option<bool>,
    /// `minPinLength`: the minimum PIN length, in Unicode code points.
    pub min_pin_length: Option<u32>,
    /// `hmac-secret-mc`: the outputs for the salts, encrypted.
    pub hmac_secret_mc: Option<Bytes>,
    /// `pinComplexityPolicy`: whether the authenticator enforces a PIN complexity policy (CTAP 2.2).
    pub pin_complexity_policy: Option<bool>,
}

impl TableRecord for SignedExtensionOutputs {
    ghost table = { make_credential_outputs };

    ghost numbered = { false };

    ghost normal = { normal_make_credential_outputs };

    fn is_numbered() -> bool {
        false
    }

    fn rows() -> &'static [Row] {
        &[
            Row::Optional(1, "uvm"),
            Row::Optional(2, "credBlob"),
            Row::Optional(3, "credProtect"),
            Row::Optional(4, "hmac-secret"),
            Row::Optional(5, "minPinLength"),
            Row::Optional(6, "hmac-secret-mc"),
            Row::Optional(7, "pinComplexityPolicy"),
        ]
    }

    fn blank(_alloc: Global) -> SignedExtensionOutputs {
        SignedExtensionOutputs::default()
    }

    fn put<S: Source>(&mut self, alloc: Global, number: u8, source: &mut S) -> Result<(), Refusal> {
        match number {
            1 => set(&mut self.uvm, alloc, source),
            2 => set(&mut self.cred_blob, alloc, source),
            3 => set_some_code(&mut self.cred_protect, alloc, source),
            4 => set(&mut self.hmac_secret, alloc, source),
            5 => set(&mut self.min_pin_length, alloc, source),
            6 => set(&mut self.hmac_secret_mc, alloc, source),
            7 => set(&mut self.pin_complexity_policy, alloc, source),
            _ => Err(Refusal::Refused),
        }
    }

    fn put_members<S: Sink>(&self, alloc: Global, sink: &mut S) -> Result<(), OutOfMemory> {
        sink.put_some(alloc, "uvm", &self.uvm)?;
        sink.put_some(alloc, "credBlob", &self.cred_blob)?;
        put_level(sink, alloc, &self.cred_protect)?;
        sink.put_some(alloc, "hmac-secret", &self.hmac_secret)?;
        sink.put_some(alloc, "minPinLength", &self.min_pin_length)?;
        sink.put_some(alloc, "hmac-secret-mc", &self.hmac_secret_mc)?;
        sink.put_some(alloc, "pinComplexityPolicy", &self.pin_complexity_policy)?;
        Ok(())
    }

    #[tactic(auto, using(crate::proofs::ExtensionsLaws::make_credential_outputs_law))]
    fn lawful() {}
}

impl TableMessage for SignedExtensionOutputs {
    ghost cost = { 5 };

    fn kept(&self) -> Option<&Kept> {
        None
    }

    #[tactic(auto, using(crate::proofs::ExtensionsLaws::make_credential_outputs_messages))]
    fn is_message() {}
}
