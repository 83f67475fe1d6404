//! What is in data items of which no table is known, in COSE keys and in authenticator data, as
//! messages are described.

mod data;
mod item;
mod key;

pub use data::describe_data;
pub use item::describe_item;
pub use key::{describe_key, parameter_name};
