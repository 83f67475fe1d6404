//! Data items looked at in place, without memory: what the item at an offset is, and the value
//! under a key of a map (RFC 8949, section 3), the parts of authenticator data (WebAuthn Level 3,
//! section 6.1), and whether bytes are the client data of a ceremony (section 5.8.1.2).
#![tactic(auto)]

mod client_data;
mod data_view;
mod item_view;
mod member;

pub use client_data::is_client_data;
pub use data_view::{AttestedView, DataView, data_parts};
pub use item_view::{ItemView, item_at};
pub use member::{Key, member_at};
