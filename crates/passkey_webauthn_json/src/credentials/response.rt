//! Authenticator responses.
use crate::credentials::assertion_response::AuthenticatorAssertionResponse;
use crate::credentials::attestation_response::AuthenticatorAttestationResponse;
use passkey_json::PlainJsonRecord;

mod sealed {
    /// The two types of responses.
    pub trait Sealed {}
}

/// An authenticator's response (WebAuthn Level 3, section 5.2), to a registration or to a sign-in.
/// The trait is sealed.
pub trait AuthenticatorResponse: sealed::Sealed + PlainJsonRecord {}

impl sealed::Sealed for AuthenticatorAttestationResponse {}

impl AuthenticatorResponse for AuthenticatorAttestationResponse {}

impl sealed::Sealed for AuthenticatorAssertionResponse {}

impl AuthenticatorResponse for AuthenticatorAssertionResponse {}
