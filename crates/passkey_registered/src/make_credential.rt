//! Messages of authenticatorMakeCredential, by the standard alone (CTAP 2.2, section 6.1).
mod attestation_object;
pub mod laws;
mod request;
mod response;

pub use attestation_object::AttestationObject;
pub use request::Request;
pub use response::Response;
