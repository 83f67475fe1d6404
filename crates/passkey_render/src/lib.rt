//! What is in a message, for people: its members by their names, one a line, or as JSON.
#![tactic(auto)]

mod data_parts;
mod data_text;
mod described_json;
mod inside;
mod key_parts;
mod leaf;
mod no_item;
mod page;
mod report;
mod typed;
mod typed_text;

pub use data_parts::data_item_from_json;
pub use data_text::{DataReading, KeyReading, json_from_data_item, json_from_key_item};
pub use described_json::json_of;
pub use inside::describe_opened;
pub use key_parts::key_item_from_json;
pub use no_item::no_item_text;
pub use page::{page_of, refusal_page};
pub use report::{left_out_text, report_of};
pub use typed::typed_item_from_json;
pub use typed_text::{MessageReading, json_from_message_item};
