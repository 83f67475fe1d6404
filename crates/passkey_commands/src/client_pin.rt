//! The messages of authenticatorClientPIN (CTAP 2.1, section 6.5).
mod authenticated;
mod permissions;
mod request;
mod response;
mod sub_command;

pub use permissions::Permissions;
pub use request::Request;
pub use response::Response;
pub use sub_command::SubCommand;
