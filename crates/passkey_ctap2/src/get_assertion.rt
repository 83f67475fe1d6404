//! The messages of authenticatorGetAssertion (CTAP 2.1, section 6.2).
pub mod laws;
mod options;
mod request;
mod response;

pub use options::Options;
pub use passkey_core::get_assertion::SignedExtensionOutputs;
pub use passkey_extensions::get_assertion::{ExtensionInputs, UnsignedExtensionOutputs};
pub use request::Request;
pub use response::Response;
