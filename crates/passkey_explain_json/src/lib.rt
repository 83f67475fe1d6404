//! Why a JSON value isn't decoded as a record of WebAuthn, and where in it, and what a record leaves
//! out of it (WebAuthn Level 3, section 5).
#![tactic(auto)]

mod client_data;
mod dropping;
mod explanation;

pub use client_data::explain_client_data;
pub use dropping::dropped_json;
pub use explanation::{JsonExplanation, explain_json};
