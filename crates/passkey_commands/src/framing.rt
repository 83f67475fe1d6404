//! Requests and responses as they are sent: a command byte or a status byte, and a body (CTAP 2.1,
//! section 8).
mod body;
mod command;

pub use body::{from_body, request_of, response_of};
pub use command::Command;
