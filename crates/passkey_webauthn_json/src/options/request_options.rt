//! The options of a sign-in, decoded from JSON objects and encoded.
ghost use Rattle.passkey_webauthn_json.specs.options.Options.{request_options};

use crate::options::preferences::{
    AttestationConveyancePreference, AttestationStatementFormatIdentifiers,
    PublicKeyCredentialHints,
};
use passkey_bytes::{Bytes, List, Text};
use passkey_json::{
    AuthenticationExtensionsClientInputs, EncodeResult, JsonEncoder, JsonFault, Member,
    PlainJsonRecord, Row, UserVerificationRequirement, place,
};
use passkey_webauthn::PublicKeyCredentialDescriptor;
use std::alloc::Global;

/// The options of a sign-in (WebAuthn Level 3, section 5.5).
#[derive(Debug, Drop)]
pub struct PublicKeyCredentialRequestOptions {
    /// The challenge: at least 16 random bytes (WebAuthn Level 3, section 13.4.3). The length isn't
    /// checked.
    pub challenge: Bytes,
    /// How long the client should wait, in milliseconds. It is a hint; `None` means the member is
    /// absent.
    pub timeout: Option<u32>,
    /// The relying party id; `None` means the member is absent, and that the id is the effective
    /// domain of the caller's origin.
    pub rp_id: Option<Text>,
    /// The credentials that are accepted. `None`, which means the member is absent, and an empty
    /// list both accept any discoverable credential. Also decoded from `allowList`; if both members
    /// are present, decoding fails with `Repeated`. Decoding drops rejected elements, and ignores a
    /// value that isn't an array.
    pub allow_credentials: Option<List<PublicKeyCredentialDescriptor>>,
    /// Whether the relying party wants user verification. An absent or unknown value decodes to
    /// `Preferred`.
    pub user_verification: UserVerificationRequirement,
    /// Which kinds of authenticator the user will probably use, the likeliest first; `None` means
    /// the member is absent. Decoding drops unknown hints, and ignores a value that isn't an array.
    pub hints: Option<List<PublicKeyCredentialHints>>,
    /// Which attestation the relying party wants. An absent or unknown value decodes to
    /// `AttestationConveyancePreference::None`.
    pub attestation: AttestationConveyancePreference,
    /// The attestation statement formats that the relying party prefers, the most preferred first;
    /// `None` means the member is absent. Decoding drops unknown formats, and ignores a value that
    /// isn't an array.
    pub attestation_formats: Option<List<AttestationStatementFormatIdentifiers>>,
    /// The client extension inputs; `None` means the member is absent. Decoding ignores a rejected
    /// value.
    pub extensions: Option<AuthenticationExtensionsClientInputs>,
}

impl PlainJsonRecord for PublicKeyCredentialRequestOptions {
    ghost table = { request_options };

    fn rows() -> &'static [Row] {
        &[
            Row::Named(1, "challenge"),
            Row::Named(2, "timeout"),
            Row::Named(3, "rpId"),
            Row::Aliased(4, "allowCredentials", "allowList"),
            Row::Named(5, "userVerification"),
            Row::Named(6, "hints"),
            Row::Named(7, "attestation"),
            Row::Named(8, "attestationFormats"),
            Row::Named(9, "extensions"),
        ]
    }

    fn blank(alloc: Global) -> PublicKeyCredentialRequestOptions {
        PublicKeyCredentialRequestOptions {
            challenge: Bytes::empty(alloc),
            timeout: None,
            rp_id: None,
            allow_credentials: None,
            user_verification: UserVerificationRequirement::Preferred,
            hints: None,
            attestation: AttestationConveyancePreference::None,
            attestation_formats: None,
            extensions: None,
        }
    }

    fn put(&mut self, number: u8, member: &mut Member<'_>) -> Result<(), JsonFault> {
        match number {
            1 => place(&mut self.challenge, member.required()),
            2 => place(&mut self.timeout, member.if_present()),
            3 => place(&mut self.rp_id, member.or_default(None)),
            4 => place(&mut self.allow_credentials, member.accepted_list()),
            5 => place(
                &mut self.user_verification,
                member.tolerated(UserVerificationRequirement::Preferred),
            ),
            6 => place(&mut self.hints, member.accepted_list()),
            7 => place(
                &mut self.attestation,
                member.tolerated(AttestationConveyancePreference::None),
            ),
            8 => place(&mut self.attestation_formats, member.accepted_list()),
            9 => place(&mut self.extensions, member.tolerated(None)),
            _ => Ok(()),
        }
    }

    fn encode(&self, number: u8, encoder: JsonEncoder) -> EncodeResult {
        match number {
            1 => encoder.value(&self.challenge),
            2 => encoder.optional(&self.timeout),
            3 => encoder.optional(&self.rp_id),
            4 => encoder.optional(&self.allow_credentials),
            5 => encoder.value(&self.user_verification),
            6 => encoder.optional(&self.hints),
            7 => encoder.value(&self.attestation),
            8 => encoder.optional(&self.attestation_formats),
            9 => encoder.optional(&self.extensions),
            _ => Ok(None),
        }
    }
}
