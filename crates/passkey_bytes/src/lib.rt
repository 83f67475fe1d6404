//! Byte strings, texts, lists and maps for the messages of passkeys, and base64 (RFC 4648).
#![tactic(auto)]

mod bytes;
pub mod encoding;
mod list;
mod map;
mod text;

pub use bytes::{Bytes, BytesFault, NotBase64Encoded};
pub use list::List;
pub use map::{Key, Map};
pub use passkey_memory::OutOfMemory;
pub use text::Text;
