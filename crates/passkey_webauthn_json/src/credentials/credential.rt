//! Credentials that a browser returns, decoded from JSON objects and encoded.
ghost use Rattle.passkey_webauthn_json.specs.credentials.Credentials.{credential};

use crate::credentials::assertion_response::AuthenticatorAssertionResponse;
use crate::credentials::attestation_response::AuthenticatorAttestationResponse;
use crate::credentials::response::AuthenticatorResponse;
use passkey_bytes::{Bytes, Text};
use passkey_json::{
    AuthenticationExtensionsClientOutputs, AuthenticatorAttachment, EncodeResult, JsonEncoder,
    JsonFault, Member, PlainJsonRecord, Row, place,
};
use passkey_webauthn::PublicKeyCredentialType;
use std::alloc::Global;

/// A credential that a browser returns, with the authenticator's response (WebAuthn Level 3,
/// section 5.1).
#[derive(Debug, Drop)]
pub struct PublicKeyCredential<R: AuthenticatorResponse> {
    /// The credential id in base64url. It isn't checked against `raw_id`.
    pub id: Text,
    /// The credential id: at most 1023 bytes (WebAuthn Level 3, section 7.1). The length isn't
    /// checked.
    pub raw_id: Bytes,
    /// The credential type.
    pub ty: PublicKeyCredentialType,
    /// The authenticator's response.
    pub response: R,
    /// The attachment of the authenticator that was used; `None` means the member is absent.
    pub authenticator_attachment: Option<AuthenticatorAttachment>,
    /// The client extension outputs.
    pub client_extension_results: AuthenticationExtensionsClientOutputs,
}

/// A new credential (WebAuthn Level 3, section 5.1.3). The JSON that `toJSON()` makes of what
/// `navigator.credentials.create()` returns decodes to it (`RegistrationResponseJSON`, section
/// 5.1).
pub type CreatedPublicKeyCredential = PublicKeyCredential<AuthenticatorAttestationResponse>;

/// An assertion (WebAuthn Level 3, section 5.1.4). The JSON that `toJSON()` makes of what
/// `navigator.credentials.get()` returns decodes to it (`AuthenticationResponseJSON`, section 5.1).
pub type AuthenticatedPublicKeyCredential = PublicKeyCredential<AuthenticatorAssertionResponse>;

impl<R: AuthenticatorResponse> PlainJsonRecord for PublicKeyCredential<R> {
    ghost table = { credential R.table };

    fn rows() -> &'static [Row] {
        &[
            Row::Named(1, "id"),
            Row::Named(2, "rawId"),
            Row::Named(3, "type"),
            Row::Named(4, "response"),
            Row::Named(5, "authenticatorAttachment"),
            Row::Named(6, "clientExtensionResults"),
        ]
    }

    fn blank(alloc: Global) -> PublicKeyCredential<R> {
        PublicKeyCredential {
            id: Text::empty(alloc),
            raw_id: Bytes::empty(alloc),
            ty: PublicKeyCredentialType::Unknown,
            response: R::blank(alloc),
            authenticator_attachment: None,
            client_extension_results: AuthenticationExtensionsClientOutputs::empty(),
        }
    }

    #[tactic(auto, unfolding(passkey_json::specs::Members::or_default))]
    fn put(&mut self, number: u8, member: &mut Member<'_>) -> Result<(), JsonFault> {
        match number {
            1 => place(&mut self.id, member.required()),
            2 => place(&mut self.raw_id, member.required()),
            3 => place(&mut self.ty, member.required()),
            4 => place(&mut self.response, member.required()),
            5 => place(&mut self.authenticator_attachment, member.tolerated(None)),
            6 => place(
                &mut self.client_extension_results,
                member.or_default(AuthenticationExtensionsClientOutputs::empty()),
            ),
            _ => Ok(()),
        }
    }

    fn encode(&self, number: u8, encoder: JsonEncoder) -> EncodeResult {
        match number {
            1 => encoder.value(&self.id),
            2 => encoder.value(&self.raw_id),
            3 => encoder.value(&self.ty),
            4 => encoder.value(&self.response),
            5 => encoder.optional(&self.authenticator_attachment),
            6 => encoder.value(&self.client_extension_results),
            _ => Ok(None),
        }
    }
}
