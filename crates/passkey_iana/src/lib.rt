//! The numbers that IANA assigns in the COSE registries, as far as passkeys use them.
#![tactic(auto)]

mod algorithm;
mod enum_i64;
mod key_operation;
mod key_type;

pub use algorithm::Algorithm;
pub use enum_i64::EnumI64;
pub use key_operation::KeyOperation;
pub use key_type::KeyType;
