//! The messages of authenticatorMakeCredential (CTAP 2.1, section 6.1).
pub mod laws;
mod options;
mod request;
mod response;

pub use options::Options;
pub use passkey_core::make_credential::SignedExtensionOutputs;
pub use passkey_extensions::make_credential::{ExtensionInputs, UnsignedExtensionOutputs};
pub use passkey_extensions::{
    MissingRpId, PublicKeyCredentialRpEntity, PublicKeyCredentialUserEntity,
};
pub use request::Request;
pub use response::Response;
