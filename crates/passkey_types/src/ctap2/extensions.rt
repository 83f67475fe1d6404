//! The inputs and outputs of the extensions hmac-secret and prf (CTAP 2.1, section 12.5; WebAuthn
//! Level 3, section 10.1.4).
pub use passkey_core::{HmacSecretSaltOrOutput, TryFromSliceError};
pub use passkey_extensions::{
    AuthenticatorPrfGetOutputs, AuthenticatorPrfInputs, AuthenticatorPrfMakeOutputs,
    AuthenticatorPrfValues, HmacGetSecretInput,
};
