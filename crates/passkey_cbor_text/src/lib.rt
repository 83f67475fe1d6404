//! CBOR data items as text: for people in diagnostic notation (RFC 8949, section 8) and head by head, and as JSON (RFC 8259), from
//! which they are read back.
#![tactic(auto)]

pub mod diagnose;
pub mod dump;
pub mod values;
