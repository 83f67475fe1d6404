//! The relying party and the user in CTAP2's messages (CTAP 2.1, section 6.1), and the inputs and
//! outputs of the extensions hmac-secret and prf (CTAP 2.1, section 12.5; WebAuthn Level 3, section
//! 10.1.4).
#![tactic(auto)]

pub mod get_assertion;
mod hmac_secret;
pub mod laws;
pub mod make_credential;
mod missing_rp_id;
mod prf;
mod rp;
mod unsigned;
mod user;

pub use hmac_secret::HmacGetSecretInput;
pub use missing_rp_id::MissingRpId;
pub use prf::{
    AuthenticatorPrfGetOutputs, AuthenticatorPrfInputs, AuthenticatorPrfMakeOutputs,
    AuthenticatorPrfValues,
};
pub use rp::PublicKeyCredentialRpEntity;
pub use unsigned::UnsignedExtensionOutputs;
pub use user::PublicKeyCredentialUserEntity;
