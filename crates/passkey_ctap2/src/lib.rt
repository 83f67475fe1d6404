//! The messages of authenticatorMakeCredential, authenticatorGetAssertion and authenticatorGetInfo
//! (CTAP 2.1, section 6), in one module for each command.
#![tactic(auto)]

pub mod get_assertion;
pub mod get_info;
pub mod make_credential;
