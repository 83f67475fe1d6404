//! The response to a sign-in, decoded from JSON objects and encoded.
ghost use Rattle.passkey_webauthn_json.specs.credentials.Credentials.{assertion_response};

use passkey_bytes::Bytes;
use passkey_json::{EncodeResult, JsonEncoder, JsonFault, Member, PlainJsonRecord, Row, place};
use std::alloc::Global;

/// The response to a sign-in (WebAuthn Level 3, section 5.2.2; as JSON in section 5.1).
#[derive(Debug, Drop)]
pub struct AuthenticatorAssertionResponse {
    /// The client data: the JSON text whose hash the authenticator signed. Verify the signature
    /// over the hash of exactly these bytes.
    pub client_data_json: Bytes,
    /// The authenticator data, which `AuthenticatorData::from_slice` decodes.
    pub authenticator_data: Bytes,
    /// The signature over the authenticator data and the SHA-256 hash of the client data.
    pub signature: Bytes,
    /// The user handle; `None` means the member is absent. It is present in a sign-in without a
    /// list of allowed credentials.
    pub user_handle: Option<Bytes>,
    /// An attestation object in CBOR; `None` means the member is absent.
    pub attestation_object: Option<Bytes>,
}

impl PlainJsonRecord for AuthenticatorAssertionResponse {
    ghost table = { assertion_response };

    fn rows() -> &'static [Row] {
        &[
            Row::Named(1, "clientDataJSON"),
            Row::Named(2, "authenticatorData"),
            Row::Named(3, "signature"),
            Row::Named(4, "userHandle"),
            Row::Named(5, "attestationObject"),
        ]
    }

    fn blank(alloc: Global) -> AuthenticatorAssertionResponse {
        AuthenticatorAssertionResponse {
            client_data_json: Bytes::empty(alloc),
            authenticator_data: Bytes::empty(alloc),
            signature: Bytes::empty(alloc),
            user_handle: None,
            attestation_object: None,
        }
    }

    fn put(&mut self, number: u8, member: &mut Member<'_>) -> Result<(), JsonFault> {
        match number {
            1 => place(&mut self.client_data_json, member.required()),
            2 => place(&mut self.authenticator_data, member.required()),
            3 => place(&mut self.signature, member.required()),
            4 => place(&mut self.user_handle, member.or_default(None)),
            5 => place(&mut self.attestation_object, member.or_default(None)),
            _ => Ok(()),
        }
    }

    fn encode(&self, number: u8, encoder: JsonEncoder) -> EncodeResult {
        match number {
            1 => encoder.value(&self.client_data_json),
            2 => encoder.value(&self.authenticator_data),
            3 => encoder.value(&self.signature),
            4 => encoder.optional(&self.user_handle),
            5 => encoder.optional(&self.attestation_object),
            _ => Ok(None),
        }
    }
}
