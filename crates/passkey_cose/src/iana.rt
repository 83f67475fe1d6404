//! IANA's COSE registries, from the crate `passkey_iana`.
pub use passkey_iana::{Algorithm, EnumI64, KeyOperation, KeyType};
