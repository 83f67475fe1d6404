//! The messages of authenticatorClientPIN (CTAP 2.1, section 6.5).
pub use passkey_commands::client_pin::{Permissions, Request, Response, SubCommand};
