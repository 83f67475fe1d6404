//! Requests and responses as they are sent: a command byte or a status byte, and a body (CTAP 2.1,
//! section 8).
pub use passkey_commands::framing::{Command, from_body, request_of, response_of};
