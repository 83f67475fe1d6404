//! Messages of authenticatorGetAssertion, by the standard alone (CTAP 2.2, section 6.2).
pub mod laws;
mod request;
mod response;

pub use request::Request;
pub use response::Response;
