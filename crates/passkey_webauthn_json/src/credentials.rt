//! What a browser returns to a relying party: new credentials, and assertions (WebAuthn Level 3,
//! sections 5.1 and 5.2), decoded from JSON values and encoded.
mod assertion_response;
mod attestation_response;
mod credential;
mod response;

pub use assertion_response::AuthenticatorAssertionResponse;
pub use attestation_response::AuthenticatorAttestationResponse;
pub use credential::{
    AuthenticatedPublicKeyCredential, CreatedPublicKeyCredential, PublicKeyCredential,
};
pub use passkey_memory::OutOfMemory;
pub use response::AuthenticatorResponse;
