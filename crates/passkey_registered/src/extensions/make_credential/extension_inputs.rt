//! Extension inputs of an authenticatorMakeCredential request.
ghost use Rattle.std.specs.Prelude.{false};
ghost use Rattle.passkey_registered.specs.extensions.MakeCredentialInputs.{make_credential_inputs, normal_make_credential_inputs};

use crate::extensions::cred_protect::put_level;
use crate::extensions::{LargeBlobMakeInputs, PrfInputs};
use passkey_bytes::Bytes;
use passkey_commands::credential_management::CredProtect;
use passkey_kinds::{
    Kept, OutOfMemory, Refusal, Row, Sink, Source, TableMessage, TableRecord, set, set_some_code,
};
use std::alloc::Global;

/// Extension inputs of an authenticatorMakeCredential request: member 0x06 (CTAP 2.3, section 6.1).
/// `None` means that the member is absent; null also decodes to `None`.
#[derive(Debug, Default, Drop)]
pub struct ExtensionInputs {
    /// `prf`: the salts.
    pub prf: Option<PrfInputs>,
    /// `uvm`: whether the user verification methods are asked for (WebAuthn Level 2, section 10.3).
    pub uvm: Option<bool>,
    /// `credBlob`: what is to be stored with the credential (CTAP 2.1, section 12.2).
    pub cred_blob: Option<Bytes>,
    /// `largeBlob`: whether the credential is to have a blob.
    pub large_blob: Option<LargeBlobMakeInputs>,
    /// `credProtect`: the credential protection policy (CTAP 2.1, section 12.1).
    pub cred_protect: Option<CredProtect>,
    /// `hmac-secret`: whether the credential is to support the extension (CTAP 2.1, section 12.5).
    pub hmac_secret: Option<bool>,
    /// `largeBlobKey`: whether the credential is to have a largeBlobKey (CTAP 2.1, section 12.3).
    pub large_blob_key: Option<bool>,
    /// `minPinLength`: whether the minimum PIN length is asked for (CTAP 2.1, section 12.4).
    pub min_pin_length: Option<bool>,
    /// `hmac-secret-mc`: the salts, as a data item that `HmacGetSecretInput::from_value` decodes
    /// (CTAP 2.2).
    pub hmac_secret_mc: Option<Kept>,
    /// `thirdPartyPayment`: whether the credential is for payments on other sites (CTAP 2.2).
    pub third_party_payment: Option<bool>,
    /// `pinComplexityPolicy`: whether the PIN complexity policy is asked for (CTAP 2.2).
    pub pin_complexity_policy: Option<bool>,
}

impl TableRecord for ExtensionInputs {
    ghost table = { make_credential_inputs };

    ghost numbered = { false };

    ghost kept = { λ r. r.hmac_secret_mc };

    ghost normal = { normal_make_credential_inputs };

    fn is_numbered() -> bool {
        false
    }

    fn rows() -> &'static [Row] {
        &[
            Row::Optional(1, "prf"),
            Row::Optional(2, "uvm"),
            Row::Optional(3, "credBlob"),
            Row::Optional(4, "largeBlob"),
            Row::Optional(5, "credProtect"),
            Row::Optional(6, "hmac-secret"),
            Row::Optional(7, "largeBlobKey"),
            Row::Optional(8, "minPinLength"),
            Row::Optional(9, "hmac-secret-mc"),
            Row::Optional(10, "thirdPartyPayment"),
            Row::Optional(11, "pinComplexityPolicy"),
        ]
    }

    fn blank(_alloc: Global) -> ExtensionInputs {
        ExtensionInputs::default()
    }

    fn put<S: Source>(&mut self, alloc: Global, number: u8, source: &mut S) -> Result<(), Refusal> {
        match number {
            1 => set(&mut self.prf, alloc, source),
            2 => set(&mut self.uvm, alloc, source),
            3 => set(&mut self.cred_blob, alloc, source),
            4 => set(&mut self.large_blob, alloc, source),
            5 => set_some_code(&mut self.cred_protect, alloc, source),
            6 => set(&mut self.hmac_secret, alloc, source),
            7 => set(&mut self.large_blob_key, alloc, source),
            8 => set(&mut self.min_pin_length, alloc, source),
            9 => set(&mut self.hmac_secret_mc, alloc, source),
            10 => set(&mut self.third_party_payment, alloc, source),
            11 => set(&mut self.pin_complexity_policy, alloc, source),
            _ => Err(Refusal::Refused),
        }
    }

    fn put_members<S: Sink>(&self, alloc: Global, sink: &mut S) -> Result<(), OutOfMemory> {
        sink.put_some(alloc, "prf", &self.prf)?;
        sink.put_some(alloc, "uvm", &self.uvm)?;
        sink.put_some(alloc, "credBlob", &self.cred_blob)?;
        sink.put_some(alloc, "largeBlob", &self.large_blob)?;
        put_level(sink, alloc, &self.cred_protect)?;
        sink.put_some(alloc, "hmac-secret", &self.hmac_secret)?;
        sink.put_some(alloc, "largeBlobKey", &self.large_blob_key)?;
        sink.put_some(alloc, "minPinLength", &self.min_pin_length)?;
        sink.put_some(alloc, "hmac-secret-mc", &self.hmac_secret_mc)?;
        sink.put_some(alloc, "thirdPartyPayment", &self.third_party_payment)?;
        sink.put_some(alloc, "pinComplexityPolicy", &self.pin_complexity_policy)?;
        Ok(())
    }

    #[tactic(auto, using(crate::proofs::ExtensionsLaws::make_credential_inputs_law))]
    fn lawful() {}
}

impl TableMessage for ExtensionInputs {
    ghost cost = { 8 };

    fn kept(&self) -> Option<&Kept> {
        self.hmac_secret_mc.as_ref()
    }

    #[tactic(auto, using(crate::proofs::ExtensionsLaws::make_credential_inputs_law))]
    fn is_message() {}
}
