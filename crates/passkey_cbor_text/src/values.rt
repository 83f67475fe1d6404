//! Data items as JSON values (RFC 8259), exactly, and back.
mod escape;
mod exact;
mod integer;
mod keys;
pub mod laws;
mod leaf;
mod names;
mod no_item;
mod order;
mod registries;
mod writer;

pub use escape::{is_escape, value_of_base64url, value_of_hex, value_of_number, value_of_text};
pub use exact::{Reading, escape_of_item, exact_json, is_json_of, json_from_item};
pub use leaf::{StringForm, item_from_json, put_member};
pub use names::key_name;
pub use no_item::{ItemFault, ItemReason, NoItem};
pub use registries::named_in;
pub use writer::friendly_json;
