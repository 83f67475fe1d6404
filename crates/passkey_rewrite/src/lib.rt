//! What `passkey_show` does with its input, bytes in hexadecimal or a JSON text: it decodes it as one
//! of the kinds and encodes it again, or checks bytes for CTAP2's canonical form. `Visitor` and
//! `JsonVisitor` do something else with a kind. And reading the input and writing the output.
#![tactic(auto)]

mod check;
mod fault;
mod hexadecimal;
mod input;
mod json;
mod json_visitor;
mod kind;
mod rewrite_bytes;
mod rewriting;
mod streams;
mod trim;
mod visiting;
mod visitor;
mod words;

pub use check::check_hex;
pub use fault::RunFault;
pub use hexadecimal::decode_hex;
pub use input::rewrite;
pub use json::{JsonRewriting, object_from, parse_json, rewrite_json, rewrite_record};
pub use json_visitor::JsonVisitor;
pub use kind::{BytesKind, JsonKind, Kind};
pub use rewriting::{
    rewrite_data, rewrite_front_item, rewrite_front_message, rewrite_item, rewrite_message,
};
pub use streams::{read_all, read_within, write_all};
pub use visiting::{visit_bytes, visit_json};
pub use visitor::Visitor;
pub use words::{kind_of, read_words};
