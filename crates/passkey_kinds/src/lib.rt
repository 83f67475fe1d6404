//! Decoding the members of CTAP2 messages from CBOR data items, and encoding them (CTAP 2.1,
//! section 8).
#![tactic(auto)]

mod algorithm;
mod array;
mod bytes;
mod code;
mod collect;
mod data;
mod fault;
mod from_cbor;
mod from_text;
mod get_assertion;
mod head;
mod kept;
mod key;
pub mod laws;
mod lending;
mod lent_item;
mod list;
mod long;
mod look;
mod make_credential;
mod map;
mod message;
mod names;
mod plain_record;
mod read_back;
mod record;
mod rows;
mod sink;
mod size;
mod source;
mod table_message;
mod table_record;
mod to_cbor;
mod wanted;
mod webauthn;
mod written;

pub use code::{Code, put_some_code, set_code, set_some_code};
pub use fault::{Fault, Refusal, WriteFault};
pub use from_cbor::{FromCbor, Tolerated};
pub use from_text::{FromText, read_text_value};
pub use head::read_scalar;
pub use kept::Kept;
pub use lending::lend_bytes;
pub use lent_item::{followed_by_item, lend_item};
pub use list::TolerantList;
pub use look::{Form, Look, looked};
pub use message::{Message, message_from_slice, read_message, write_message};
pub use passkey_memory::OutOfMemory;
pub use plain_record::PlainRecord;
pub use read_back::{ReadBack, RecordReadBack};
pub use record::{Record, first_missing, is_marked, mark, no_marks, record_from_value};
pub use rows::{Named, Row, row_of};
pub use sink::Sink;
pub use source::{
    InMemory, Source, set, set_accepted, set_accepted_or_none, set_or, set_tolerated,
};
pub use table_message::TableMessage;
pub use table_record::TableRecord;
pub use to_cbor::{ToCbor, ToCborMap};
pub use wanted::Wanted;
pub use written::MapBuilder;
