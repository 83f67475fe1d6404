//! Extension inputs and outputs of authenticatorGetAssertion.

mod extension_inputs;
mod signed_outputs;

pub use extension_inputs::ExtensionInputs;
pub use signed_outputs::SignedExtensionOutputs;

/// Extension outputs of an authenticatorGetAssertion response that are outside its authenticator data:
/// member 0x08 (CTAP 2.3, section 6.2).
pub type UnsignedExtensionOutputs = crate::extensions::UnsignedExtensionOutputs<
    crate::extensions::LargeBlobGetOutputs,
>;
