//! Why authenticator data, COSE keys and attestation statements are refused, and where in their bytes
//! (WebAuthn Level 3, sections 6.1 and 8; RFC 9052, section 7).
#![tactic(auto)]

mod checking;
mod data;
mod display;
mod key;
mod measuring;
mod names;
mod part;
mod passing;
mod statement;

pub use data::explain_data;
pub use key::{KeyBlame, KeyRefusal, explain_key, locate_key};
pub use measuring::data_len;
pub use part::{DataPart, DataReason, DataRefusal};
pub use statement::{StatementBlame, StatementExplanation, StatementRefusal, explain_statement};
