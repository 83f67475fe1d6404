//! Extension inputs and unsigned extension outputs of authenticatorGetAssertion (CTAP 2.1, section
//! 6.2).

mod extension_inputs;

pub use extension_inputs::ExtensionInputs;

/// The extension outputs of an authenticatorGetAssertion response that are outside its
/// authenticator data (WebAuthn Level 3, section 9).
pub type UnsignedExtensionOutputs = crate::UnsignedExtensionOutputs<
    crate::AuthenticatorPrfGetOutputs,
>;
