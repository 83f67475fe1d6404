//! The options of a registration, decoded from JSON objects and encoded.
ghost use Rattle.passkey_webauthn_json.specs.options.Options.{creation_options};

use crate::options::place_list::place_list;
use crate::options::preferences::{
    AttestationConveyancePreference, AttestationStatementFormatIdentifiers,
    PublicKeyCredentialHints,
};
use passkey_bytes::{Bytes, List};
use passkey_json::{
    AuthenticationExtensionsClientInputs, AuthenticatorSelectionCriteria, EncodeResult,
    JsonEncoder, JsonFault, Member, PlainJsonRecord, Row, place,
};
use passkey_webauthn::{
    PublicKeyCredentialDescriptor, PublicKeyCredentialParameters, PublicKeyCredentialRpEntity,
    PublicKeyCredentialUserEntity,
};
use std::alloc::Global;

/// The options of a registration (WebAuthn Level 3, section 5.4).
#[derive(Debug, Drop)]
pub struct PublicKeyCredentialCreationOptions {
    /// The relying party.
    pub rp: PublicKeyCredentialRpEntity,
    /// The user account that the credential is for.
    pub user: PublicKeyCredentialUserEntity,
    /// The challenge: at least 16 random bytes (WebAuthn Level 3, section 13.4.3). The length isn't
    /// checked.
    pub challenge: Bytes,
    /// The credential types and algorithms that the relying party accepts, the most preferred
    /// first; an empty list means ES256 and RS256 (WebAuthn Level 3, section 5.1.3). Decoding drops
    /// an element without `type` or without a known `alg`, and so also one whose `alg` is a float,
    /// such as -7.0. An unknown `type` decodes to `Unknown`.
    pub pub_key_cred_params: List<PublicKeyCredentialParameters>,
    /// How long the client should wait, in milliseconds. It is a hint; `None` means the member is
    /// absent.
    pub timeout: Option<u32>,
    /// The user's existing credentials: the client fails if an authenticator has one of them.
    /// `None` means the member is absent, and that none is excluded. Decoding drops rejected
    /// elements, and ignores a value that isn't an array.
    pub exclude_credentials: Option<List<PublicKeyCredentialDescriptor>>,
    /// The requirements for the authenticator; `None` means the member is absent, and that any
    /// authenticator is allowed.
    pub authenticator_selection: Option<AuthenticatorSelectionCriteria>,
    /// Which kinds of authenticator the user will probably use, the likeliest first; `None` means
    /// the member is absent. Decoding drops unknown hints, and ignores a value that isn't an array.
    pub hints: Option<List<PublicKeyCredentialHints>>,
    /// Which attestation the relying party wants. An absent or unknown value decodes to
    /// `AttestationConveyancePreference::None`.
    pub attestation: AttestationConveyancePreference,
    /// The attestation statement formats that the relying party prefers, the most preferred first;
    /// `None` means the member is absent. Decoding drops unknown formats, and ignores a value that
    /// isn't an array.
    pub attestation_formats: Option<List<AttestationStatementFormatIdentifiers>>,
    /// The client extension inputs; `None` means the member is absent.
    pub extensions: Option<AuthenticationExtensionsClientInputs>,
}

impl PlainJsonRecord for PublicKeyCredentialCreationOptions {
    ghost table = { creation_options };

    fn rows() -> &'static [Row] {
        &[
            Row::Named(1, "rp"),
            Row::Named(2, "user"),
            Row::Named(3, "challenge"),
            Row::Named(4, "pubKeyCredParams"),
            Row::Named(5, "timeout"),
            Row::Named(6, "excludeCredentials"),
            Row::Named(7, "authenticatorSelection"),
            Row::Named(8, "hints"),
            Row::Named(9, "attestation"),
            Row::Named(10, "attestationFormats"),
            Row::Named(11, "extensions"),
        ]
    }

    fn blank(alloc: Global) -> PublicKeyCredentialCreationOptions {
        PublicKeyCredentialCreationOptions {
            rp: PublicKeyCredentialRpEntity::blank(alloc),
            user: PublicKeyCredentialUserEntity::blank(alloc),
            challenge: Bytes::empty(alloc),
            pub_key_cred_params: List::empty(alloc),
            timeout: None,
            exclude_credentials: None,
            authenticator_selection: None,
            hints: None,
            attestation: AttestationConveyancePreference::None,
            attestation_formats: None,
            extensions: None,
        }
    }

    fn put(&mut self, number: u8, member: &mut Member<'_>) -> Result<(), JsonFault> {
        match number {
            1 => place(&mut self.rp, member.required()),
            2 => place(&mut self.user, member.required()),
            3 => place(&mut self.challenge, member.required()),
            4 => place_list(&mut self.pub_key_cred_params, member.required()),
            5 => place(&mut self.timeout, member.if_present()),
            6 => place(&mut self.exclude_credentials, member.accepted_list()),
            7 => place(&mut self.authenticator_selection, member.or_default(None)),
            8 => place(&mut self.hints, member.accepted_list()),
            9 => place(
                &mut self.attestation,
                member.tolerated(AttestationConveyancePreference::None),
            ),
            10 => place(&mut self.attestation_formats, member.accepted_list()),
            11 => place(&mut self.extensions, member.or_default(None)),
            _ => Ok(()),
        }
    }

    fn encode(&self, number: u8, encoder: JsonEncoder) -> EncodeResult {
        match number {
            1 => encoder.value(&self.rp),
            2 => encoder.value(&self.user),
            3 => encoder.value(&self.challenge),
            4 => encoder.value(&self.pub_key_cred_params),
            5 => encoder.optional(&self.timeout),
            6 => encoder.optional(&self.exclude_credentials),
            7 => encoder.optional(&self.authenticator_selection),
            8 => encoder.optional(&self.hints),
            9 => encoder.value(&self.attestation),
            10 => encoder.optional(&self.attestation_formats),
            11 => encoder.optional(&self.extensions),
            _ => Ok(None),
        }
    }
}
