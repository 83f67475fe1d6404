//! authenticatorGetInfo responses with the members and names of CTAP 2.1 to 2.3 (section 6.4).
mod credential_parameters;
mod options;
mod response;

pub use credential_parameters::CredentialParameters;
pub use options::Options;
pub use response::Response;
