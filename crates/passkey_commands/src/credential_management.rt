//! The messages of authenticatorCredentialManagement (CTAP 2.1, section 6.8).
mod authenticated;
mod cred_protect;
mod parameters;
mod request;
mod response;
mod sub_command;

pub use cred_protect::CredProtect;
pub use parameters::Parameters;
pub use request::Request;
pub use response::Response;
pub use sub_command::SubCommand;
