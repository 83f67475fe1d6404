//! Collected client data: what a client adds to what an authenticator signs, such as the challenge
//! and the origin (WebAuthn Level 3, section 5.8.1), decoded from JSON and encoded as JSON text.
mod client_data;
mod client_data_fault;
mod client_data_text;
mod client_data_type;
mod extra_data;
mod simple_form;
mod unknown_members;

pub use client_data::{CollectedClientData, FixedMembers};
pub use client_data_fault::ClientDataFault;
pub use client_data_type::ClientDataType;
pub use extra_data::ClientDataExtra;
pub use passkey_memory::OutOfMemory;
pub use unknown_members::is_fixed;
