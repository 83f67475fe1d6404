//! CTAP2's other commands, and how requests and responses are framed (CTAP 2.1, sections 6 and 8).
#![tactic(auto)]

pub mod bio_enrollment;
pub mod client_pin;
pub mod config;
pub mod credential_management;
pub mod framing;
pub mod large_blobs;
