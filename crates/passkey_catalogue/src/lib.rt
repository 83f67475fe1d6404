//! The catalogue of kinds: what an input may be, by name and by number in C, and one dispatch over
//! all of them; inputs of any kind, decoded and encoded again, and why JSON texts are refused. Besides
//! the kinds of `passkey_show` these are the messages of the other commands of CTAP2 (sections 6.5 to
//! 6.11), the responses and extensions of CTAP 2.3, COSE keys, and attestation statements with the
//! structures of a TPM (WebAuthn Level 3, section 8); and over JSON signals, all client extensions,
//! mediation and client capabilities (section 5), and payments.
#![tactic(auto)]

mod any_json_kind;
mod client_kind;
mod ctap_kind;
mod dropping;
mod explaining;
mod form;
mod json_values;
mod key;
mod kind;
pub mod laws;
mod rewriting;
mod rows;
mod source;
mod statement;
mod structure;
mod visiting;

pub use any_json_kind::AnyJsonKind;
pub use client_kind::ClientKind;
pub use ctap_kind::CtapKind;
pub use dropping::dropped_json_as;
pub use explaining::{RefusedJson, explain_json_as};
pub use form::Form;
pub use json_values::{ValuesFault, encode_values, input_from_values, values};
pub use kind::Kind;
pub use rewriting::{encode, encode_form, rewrite_json};
pub use visiting::{visit, visit_json};
