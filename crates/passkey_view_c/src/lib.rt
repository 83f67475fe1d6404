//! Data items, authenticator data and client data looked at in the caller's memory, and data items
//! written into it, for C and for WebAssembly. Nothing is allocated. A slice is a pointer and a length in C. `puffgrit.h` is made
//! from these sources and those of `passkey_c` (`tools/header`).
#![tactic(auto)]

mod auth_data;
mod canonical;
mod client_data;
mod item;
mod writer;

pub use auth_data::{AuthData, puffgrit_auth_parts};
pub use canonical::puffgrit_not_canonical;
pub use client_data::puffgrit_is_client_data;
pub use item::{
    Item, puffgrit_is_canonical, puffgrit_item_at, puffgrit_item_len, puffgrit_member,
    puffgrit_named,
};
pub use writer::{
    puffgrit_write_array, puffgrit_write_bool, puffgrit_write_bytes, puffgrit_write_end,
    puffgrit_write_int, puffgrit_write_item, puffgrit_write_map, puffgrit_write_null,
    puffgrit_write_text,
};
