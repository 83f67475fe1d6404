//! WebAuthn's JSON: the options that a relying party sends to a browser, the credentials that the browser
//! returns, and client data (WebAuthn Level 3, section 5).
#![tactic(auto)]

pub mod client_data;
pub mod credentials;
pub mod options;
