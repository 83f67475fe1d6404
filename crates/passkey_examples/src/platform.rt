//! A platform that obtains a pinUvAuthToken with the user's PIN, and asks an authenticator for its
//! credentials with it: from authenticatorGetInfo to the request that carries pinUvAuthParam (CTAP
//! 2.1, sections 6.5.5 and 6.8). The cryptography of the PIN/UV auth protocol is the caller's.
mod credentials;
mod exchange;
mod protocol;
mod token;

pub use credentials::credentials_request;
pub use exchange::{Failed, Transport};
pub use protocol::PinUvAuthProtocol;
pub use token::token_by_pin;
