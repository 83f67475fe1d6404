//! Inputs and outputs of client extensions.
ghost use Rattle.passkey_client.specs.ClientExtensions.{client_extension_inputs, client_extension_outputs};

use crate::{
    CredentialProtectionPolicy, HmacGetSecretInputs, HmacGetSecretOutputs, LargeBlobInputs,
    LargeBlobOutputs, PaymentInputs, PaymentOutputs,
};
use passkey_bytes::{Bytes, List, Text};
use passkey_json::{
    AuthenticationExtensionsPrfInputs, CredentialPropertiesOutput, EncodeResult, JsonEncoder,
    JsonFault, Member, PlainJsonRecord, Row, place,
};
use passkey_webauthn::AuthenticationExtensionsPrfOutputs;
use std::alloc::Global;

/// Inputs of client extensions: what a relying party asks for (WebAuthn Level 3, section 9.3). These
/// are the registered ones of Level 2 on, those of CTAP, and payment. `None` means that the member is
/// absent; null also decodes to `None`.
#[derive(Debug, Drop)]
pub struct ClientExtensionInputs {
    /// appid: the AppID of U2F under which credentials may be used, at a sign-in (WebAuthn Level 3,
    /// section 10.1.1).
    pub appid: Option<Text>,
    /// appidExclude: the AppID of U2F whose credentials are excluded, at a registration (section
    /// 10.1.2).
    pub appid_exclude: Option<Text>,
    /// credProps: whether properties of the new credential are asked for (section 10.1.3).
    pub cred_props: Option<bool>,
    /// prf: the salts (section 10.1.4).
    pub prf: Option<AuthenticationExtensionsPrfInputs>,
    /// largeBlob: what is wanted of the blob (section 10.1.5).
    pub large_blob: Option<LargeBlobInputs>,
    /// credBlob: what is to be stored with the new credential (CTAP 2.1, section 12.2).
    pub cred_blob: Option<Bytes>,
    /// getCredBlob: whether what is stored with the credential is asked for (CTAP 2.1, section
    /// 12.2).
    pub get_cred_blob: Option<bool>,
    /// credentialProtectionPolicy: the credential protection policy (CTAP 2.1, section 12.1).
    pub credential_protection_policy: Option<CredentialProtectionPolicy>,
    /// enforceCredentialProtectionPolicy: whether a registration fails where the authenticator
    /// doesn't support the policy. The default is false.
    pub enforce_credential_protection_policy: Option<bool>,
    /// minPinLength: whether the minimum PIN length is asked for (CTAP 2.1, section 12.4).
    pub min_pin_length: Option<bool>,
    /// pinComplexityPolicy: whether the PIN complexity policy is asked for (CTAP 2.2).
    pub pin_complexity_policy: Option<bool>,
    /// hmacCreateSecret: whether the new credential is to support hmac-secret (CTAP 2.1, section
    /// 12.5).
    pub hmac_create_secret: Option<bool>,
    /// hmacGetSecret: the salts of hmac-secret (CTAP 2.1, section 12.5).
    pub hmac_get_secret: Option<HmacGetSecretInputs>,
    /// uvm: whether the user verification methods are asked for (WebAuthn Level 2, section 10.3).
    pub uvm: Option<bool>,
    /// payment: what is paid (W3C Secure Payment Confirmation).
    pub payment: Option<PaymentInputs>,
}

impl PlainJsonRecord for ClientExtensionInputs {
    ghost table = { client_extension_inputs };

    fn rows() -> &'static [Row] {
        &[
            Row::Named(1, "appid"),
            Row::Named(2, "appidExclude"),
            Row::Named(3, "credProps"),
            Row::Named(4, "prf"),
            Row::Named(5, "largeBlob"),
            Row::Named(6, "credBlob"),
            Row::Named(7, "getCredBlob"),
            Row::Named(8, "credentialProtectionPolicy"),
            Row::Named(9, "enforceCredentialProtectionPolicy"),
            Row::Named(10, "minPinLength"),
            Row::Named(11, "pinComplexityPolicy"),
            Row::Named(12, "hmacCreateSecret"),
            Row::Named(13, "hmacGetSecret"),
            Row::Named(14, "uvm"),
            Row::Named(15, "payment"),
        ]
    }

    fn blank(_alloc: Global) -> ClientExtensionInputs {
        ClientExtensionInputs {
            appid: None,
            appid_exclude: None,
            cred_props: None,
            prf: None,
            large_blob: None,
            cred_blob: None,
            get_cred_blob: None,
            credential_protection_policy: None,
            enforce_credential_protection_policy: None,
            min_pin_length: None,
            pin_complexity_policy: None,
            hmac_create_secret: None,
            hmac_get_secret: None,
            uvm: None,
            payment: None,
        }
    }

    fn put(&mut self, number: u8, member: &mut Member<'_>) -> Result<(), JsonFault> {
        match number {
            1 => place(&mut self.appid, member.or_default(None)),
            2 => place(&mut self.appid_exclude, member.or_default(None)),
            3 => place(&mut self.cred_props, member.or_default(None)),
            4 => place(&mut self.prf, member.or_default(None)),
            5 => place(&mut self.large_blob, member.or_default(None)),
            6 => place(&mut self.cred_blob, member.or_default(None)),
            7 => place(&mut self.get_cred_blob, member.or_default(None)),
            8 => place(
                &mut self.credential_protection_policy,
                member.or_default(None),
            ),
            9 => place(
                &mut self.enforce_credential_protection_policy,
                member.or_default(None),
            ),
            10 => place(&mut self.min_pin_length, member.or_default(None)),
            11 => place(&mut self.pin_complexity_policy, member.or_default(None)),
            12 => place(&mut self.hmac_create_secret, member.or_default(None)),
            13 => place(&mut self.hmac_get_secret, member.or_default(None)),
            14 => place(&mut self.uvm, member.or_default(None)),
            15 => place(&mut self.payment, member.or_default(None)),
            _ => Ok(()),
        }
    }

    fn encode(&self, number: u8, encoder: JsonEncoder) -> EncodeResult {
        match number {
            1 => encoder.optional(&self.appid),
            2 => encoder.optional(&self.appid_exclude),
            3 => encoder.optional(&self.cred_props),
            4 => encoder.optional(&self.prf),
            5 => encoder.optional(&self.large_blob),
            6 => encoder.optional(&self.cred_blob),
            7 => encoder.optional(&self.get_cred_blob),
            8 => encoder.optional(&self.credential_protection_policy),
            9 => encoder.optional(&self.enforce_credential_protection_policy),
            10 => encoder.optional(&self.min_pin_length),
            11 => encoder.optional(&self.pin_complexity_policy),
            12 => encoder.optional(&self.hmac_create_secret),
            13 => encoder.optional(&self.hmac_get_secret),
            14 => encoder.optional(&self.uvm),
            15 => encoder.optional(&self.payment),
            _ => Ok(None),
        }
    }
}

/// Outputs of client extensions: what the client returns (WebAuthn Level 3, section 9.4): those of
/// `ClientExtensionInputs`, and what webauthn-rs adds. `None` means that the member is absent; null
/// also decodes to `None`.
#[derive(Debug, Drop)]
pub struct ClientExtensionOutputs {
    /// appid: whether the AppID of U2F was used (WebAuthn Level 3, section 10.1.1).
    pub appid: Option<bool>,
    /// appidExclude: whether the extension was acted upon (section 10.1.2).
    pub appid_exclude: Option<bool>,
    /// credProps: properties of the new credential (section 10.1.3).
    pub cred_props: Option<CredentialPropertiesOutput>,
    /// prf: the outputs of the extension (section 10.1.4).
    pub prf: Option<AuthenticationExtensionsPrfOutputs>,
    /// largeBlob: what became of the blob (section 10.1.5).
    pub large_blob: Option<LargeBlobOutputs>,
    /// credBlob: whether it was stored (CTAP 2.1, section 12.2).
    pub cred_blob: Option<bool>,
    /// getCredBlob: what is stored with the credential (CTAP 2.1, section 12.2).
    pub get_cred_blob: Option<Bytes>,
    /// hmacCreateSecret: whether the new credential supports hmac-secret (CTAP 2.1, section 12.5).
    pub hmac_create_secret: Option<bool>,
    /// hmacGetSecret: the outputs of hmac-secret (CTAP 2.1, section 12.5).
    pub hmac_get_secret: Option<HmacGetSecretOutputs>,
    /// uvm: the user verification methods, one to three entries of three numbers (WebAuthn Level 2,
    /// section 10.3). The numbers of entries and of numbers aren't checked.
    pub uvm: Option<List<List<u32>>>,
    /// payment: the signature of the browser's key (W3C Secure Payment Confirmation).
    pub payment: Option<PaymentOutputs>,
    /// credProtect: the new credential's protection policy, as webauthn-rs names it. Any name is
    /// kept.
    pub cred_protect: Option<Text>,
    /// hmacSecret: whether the new credential supports hmac-secret, as webauthn-rs says it.
    pub hmac_secret: Option<bool>,
    /// minPinLength: the minimum PIN length, as webauthn-rs says it.
    pub min_pin_length: Option<u32>,
}

impl PlainJsonRecord for ClientExtensionOutputs {
    ghost table = { client_extension_outputs };

    fn rows() -> &'static [Row] {
        &[
            Row::Named(1, "appid"),
            Row::Named(2, "appidExclude"),
            Row::Named(3, "credProps"),
            Row::Named(4, "prf"),
            Row::Named(5, "largeBlob"),
            Row::Named(6, "credBlob"),
            Row::Named(7, "getCredBlob"),
            Row::Named(8, "hmacCreateSecret"),
            Row::Named(9, "hmacGetSecret"),
            Row::Named(10, "uvm"),
            Row::Named(11, "payment"),
            Row::Named(12, "credProtect"),
            Row::Named(13, "hmacSecret"),
            Row::Named(14, "minPinLength"),
        ]
    }

    fn blank(_alloc: Global) -> ClientExtensionOutputs {
        ClientExtensionOutputs {
            appid: None,
            appid_exclude: None,
            cred_props: None,
            prf: None,
            large_blob: None,
            cred_blob: None,
            get_cred_blob: None,
            hmac_create_secret: None,
            hmac_get_secret: None,
            uvm: None,
            payment: None,
            cred_protect: None,
            hmac_secret: None,
            min_pin_length: None,
        }
    }

    fn put(&mut self, number: u8, member: &mut Member<'_>) -> Result<(), JsonFault> {
        match number {
            1 => place(&mut self.appid, member.or_default(None)),
            2 => place(&mut self.appid_exclude, member.or_default(None)),
            3 => place(&mut self.cred_props, member.or_default(None)),
            4 => place(&mut self.prf, member.or_default(None)),
            5 => place(&mut self.large_blob, member.or_default(None)),
            6 => place(&mut self.cred_blob, member.or_default(None)),
            7 => place(&mut self.get_cred_blob, member.or_default(None)),
            8 => place(&mut self.hmac_create_secret, member.or_default(None)),
            9 => place(&mut self.hmac_get_secret, member.or_default(None)),
            10 => place(&mut self.uvm, member.or_default(None)),
            11 => place(&mut self.payment, member.or_default(None)),
            12 => place(&mut self.cred_protect, member.or_default(None)),
            13 => place(&mut self.hmac_secret, member.or_default(None)),
            14 => place(&mut self.min_pin_length, member.or_default(None)),
            _ => Ok(()),
        }
    }

    fn encode(&self, number: u8, encoder: JsonEncoder) -> EncodeResult {
        match number {
            1 => encoder.optional(&self.appid),
            2 => encoder.optional(&self.appid_exclude),
            3 => encoder.optional(&self.cred_props),
            4 => encoder.optional(&self.prf),
            5 => encoder.optional(&self.large_blob),
            6 => encoder.optional(&self.cred_blob),
            7 => encoder.optional(&self.get_cred_blob),
            8 => encoder.optional(&self.hmac_create_secret),
            9 => encoder.optional(&self.hmac_get_secret),
            10 => encoder.optional(&self.uvm),
            11 => encoder.optional(&self.payment),
            12 => encoder.optional(&self.cred_protect),
            13 => encoder.optional(&self.hmac_secret),
            14 => encoder.optional(&self.min_pin_length),
            _ => Ok(None),
        }
    }
}
