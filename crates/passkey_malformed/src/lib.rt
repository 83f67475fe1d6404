//! Where and why bytes don't begin with a well-formed data item (RFC 8949, section 3), and where they aren't
//! in CTAP2's canonical form (CTAP 2.2, section 8).
#![tactic(auto)]

mod canonical;
mod demands;
mod first_fault;
mod heads;
mod items;
mod rule;
mod strings;
mod why;

pub use canonical::{CTAP2_DEPTH, not_canonical};
pub use demands::{Demands, unmet};
pub use first_fault::malformed;
pub use rule::{NotCanonical, Rule};
pub use why::{Malformed, Why};
