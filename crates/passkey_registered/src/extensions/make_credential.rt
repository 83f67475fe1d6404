//! Extension inputs and outputs of authenticatorMakeCredential.

mod extension_inputs;
mod signed_outputs;

pub use extension_inputs::ExtensionInputs;
pub use signed_outputs::SignedExtensionOutputs;

/// Extension outputs of an authenticatorMakeCredential response that are outside its authenticator data:
/// member 0x06 (CTAP 2.3, section 6.1).
pub type UnsignedExtensionOutputs = crate::extensions::UnsignedExtensionOutputs<
    crate::extensions::LargeBlobMakeOutputs,
>;
