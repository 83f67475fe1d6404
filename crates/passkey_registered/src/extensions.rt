//! Inputs and outputs of extensions beyond the port's, as they are sent to authenticators and back.
mod cred_protect;
pub mod get_assertion;
mod large_blob;
pub mod laws;
mod lent;
pub mod make_credential;
mod others;
mod prf;
mod unsigned_outputs;

pub use large_blob::{
    LargeBlobGetInputs, LargeBlobGetOutputs, LargeBlobMakeInputs, LargeBlobMakeOutputs,
    LargeBlobOutputs,
};
pub use lent::extensions_of;
pub use others::{others_of, with_others, with_row};
pub use passkey_kinds::TableRecord;
pub use prf::{PrfInputs, PrfOutputs, PrfValue, PrfValues};
pub use unsigned_outputs::UnsignedExtensionOutputs;
