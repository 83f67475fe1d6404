//! The document of related origins, which lists the origins that may use a relying party id.
#![tactic(auto)]

mod url_list;
mod well_known;

pub use well_known::WellKnown;
