//! Messages and JSON that known programs send and that the tables refuse, repaired and then decoded. Decoding
//! itself stays strict.
#![tactic(auto)]

pub mod json;
pub mod messages;
