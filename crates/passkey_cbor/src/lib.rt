//! CBOR (RFC 8949): decodes data items from every well-formed encoding of at most 256 levels, and
//! encodes each in one way.
#![tactic(auto)]

mod canonical;
mod clone;
mod convert;
mod count;
mod cursor;
mod depth;
mod encoder;
mod equality;
mod error;
mod float;
mod head;
mod integer;
pub mod laws;
mod leaf;
mod map;
mod member;
mod names;
mod order;
mod read;
mod simple;
mod skip;
mod text_chunks;
mod token;
mod value;
mod write;

pub use canonical::is_canonical;
pub use count::Count;
pub use cursor::Cursor;
pub use depth::MAX_DEPTH;
pub use encoder::Encoder;
pub use error::CborError;
pub use float::Float;
pub use head::Head;
pub use integer::Integer;
pub use map::members;
pub use member::Members;
pub use order::ctap2_order;
pub use passkey_memory::OutOfMemory;
pub use simple::Simple;
pub use skip::item_len;
pub use text_chunks::TextChunks;
pub use token::{BytesToken, TextToken};
pub use value::Value;
