//! What is registered with CTAP 2.1 to 2.3 beyond the members and extensions of `passkey_ctap2`: extensions;
//! authenticatorGetInfo responses with every member, each name as it came; and the messages to make and to use a
//! credential by the standard alone.
#![tactic(auto)]

mod canonical_form;
mod client_data_hash;
pub mod entities;
mod exact;
pub mod extensions;
pub mod get_assertion;
pub mod get_info;
mod kept_data;
mod kept_map;
mod large_blob_key;
pub mod make_credential;

pub use canonical_form::{canonical_message, canonical_vec, in_canonical_form};
pub use client_data_hash::ClientDataHash;
pub use kept_data::KeptAuthenticatorData;
pub use kept_map::KeptMap;
pub use large_blob_key::LargeBlobKey;
