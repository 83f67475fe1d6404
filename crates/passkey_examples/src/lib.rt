//! Examples of what users build of these libraries: a relying party, an authenticator and a platform.
#![tactic(auto)]

pub mod authenticator;
pub mod platform;
pub mod relying_party;
