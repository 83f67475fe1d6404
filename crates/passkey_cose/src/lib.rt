//! COSE keys (RFC 9052, section 7), and the values in IANA's COSE registries.
#![tactic(auto)]

mod checking;
mod cloning;
mod equality;
mod error;
pub mod iana;
mod key;
mod label;
pub mod laws;
mod make;
mod names;
mod pairs;
mod parts;
mod public;
mod readable;
mod reading;
mod refused;
mod registered;
mod search;
mod seen;
mod with;
mod writing;

pub use checking::signed_64;
pub use error::{CoseError, CoseKeyConversionError};
pub use key::CoseKey;
pub use label::Label;
pub use passkey_memory::OutOfMemory;
pub use refused::RefusedKey;
pub use registered::Registered;
