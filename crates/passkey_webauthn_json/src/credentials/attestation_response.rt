//! The response to a registration, decoded from JSON objects and encoded.
ghost use Rattle.std.specs.Prelude.{◌≡◌, ◌<◌, ◌⊎◌, length, IfOk, OnErr};
ghost use Rattle.std.specs.Option.{IsSomeAnd};
ghost use Rattle.passkey_webauthn_json.specs.credentials.Credentials.{attestation_response};

use passkey_bytes::{Bytes, List};
use passkey_json::{EncodeResult, JsonEncoder, JsonFault, Member, PlainJsonRecord, Row, place};
use passkey_memory::OutOfMemory;
use passkey_webauthn::AuthenticatorTransport;
use std::alloc::Global;

/// The response to a registration (WebAuthn Level 3, section 5.2.1; as JSON in section 5.1).
#[derive(Debug, Drop)]
pub struct AuthenticatorAttestationResponse {
    /// The client data: a JSON text. If the attestation statement has a signature, it is also over
    /// the SHA-256 hash of exactly these bytes; with the format "none" nothing is signed.
    pub client_data_json: Bytes,
    /// The authenticator data, as in the attestation object. A relying party should take it from
    /// the attestation object: if anything is signed, it is the data there.
    pub authenticator_data: Bytes,
    /// The new public key as a DER SubjectPublicKeyInfo; `None` means the member is absent, because
    /// the client doesn't support the key's algorithm.
    pub public_key: Option<Bytes>,
    /// The COSE algorithm identifier of the key.
    pub public_key_algorithm: i64,
    /// The attestation object in CBOR: a map with `fmt`, `attStmt` and `authData`.
    /// `ctap2::make_credential::Response` decodes it.
    pub attestation_object: Bytes,
    /// The authenticator's transports, as far as the client knows them; `None` means the member is
    /// absent.
    pub transports: Option<List<AuthenticatorTransport>>,
}

impl AuthenticatorAttestationResponse {
    /// Returns an equal value. Returns `OutOfMemory` if an allocation fails, which can't happen if
    /// all byte strings are empty or absent and there are no transports.
    pub fn try_clone(&self, alloc: Global) -> Result<AuthenticatorAttestationResponse, OutOfMemory>
        ensures same { IfOk result (λ copy. copy ≡ self.now) }
        ensures grows { OnErr result ((0 < length self.now.client_data_json)
            ⊎ (0 < length self.now.authenticator_data) ⊎ (0 < length self.now.attestation_object) ⊎ IsSomeAnd
            self.now.public_key (λ key. 0 < length key) ⊎ IsSomeAnd self.now.transports (λ ts. 0 < length ts)) }
    {
        let public_key = match &self.public_key {
            Some(key) => Some(key.try_clone(alloc)?),
            None => None,
        };
        let transports = match &self.transports {
            Some(transports) => Some(transports.try_clone(alloc)?),
            None => None,
        };
        Ok(AuthenticatorAttestationResponse {
            client_data_json: self.client_data_json.try_clone(alloc)?,
            authenticator_data: self.authenticator_data.try_clone(alloc)?,
            public_key,
            public_key_algorithm: self.public_key_algorithm,
            attestation_object: self.attestation_object.try_clone(alloc)?,
            transports,
        })
    }
}

impl PlainJsonRecord for AuthenticatorAttestationResponse {
    ghost table = { attestation_response };

    fn rows() -> &'static [Row] {
        &[
            Row::Named(1, "clientDataJSON"),
            Row::Named(2, "authenticatorData"),
            Row::Named(3, "publicKey"),
            Row::Named(4, "publicKeyAlgorithm"),
            Row::Named(5, "attestationObject"),
            Row::Named(6, "transports"),
        ]
    }

    fn blank(alloc: Global) -> AuthenticatorAttestationResponse {
        AuthenticatorAttestationResponse {
            client_data_json: Bytes::empty(alloc),
            authenticator_data: Bytes::empty(alloc),
            public_key: None,
            public_key_algorithm: 0,
            attestation_object: Bytes::empty(alloc),
            transports: None,
        }
    }

    fn put(&mut self, number: u8, member: &mut Member<'_>) -> Result<(), JsonFault> {
        match number {
            1 => place(&mut self.client_data_json, member.required()),
            2 => place(&mut self.authenticator_data, member.required()),
            3 => place(&mut self.public_key, member.or_default(None)),
            4 => place(&mut self.public_key_algorithm, member.required()),
            5 => place(&mut self.attestation_object, member.required()),
            6 => place(&mut self.transports, member.or_default(None)),
            _ => Ok(()),
        }
    }

    fn encode(&self, number: u8, encoder: JsonEncoder) -> EncodeResult {
        match number {
            1 => encoder.value(&self.client_data_json),
            2 => encoder.value(&self.authenticator_data),
            3 => encoder.optional(&self.public_key),
            4 => encoder.value(&self.public_key_algorithm),
            5 => encoder.value(&self.attestation_object),
            6 => encoder.optional(&self.transports),
            _ => Ok(None),
        }
    }
}
