//! The request of authenticatorConfig (CTAP 2.1, section 6.11).
pub use passkey_commands::config::{MinPinLengthParameters, Request, SubCommand, VendorParameters};
