//! The types of WebAuthn Level 3 that browsers and relying parties exchange.
#![tactic(auto)]

mod credential_type;
mod descriptor;
mod names;
mod number_state;
mod number_text;
mod parameters;
mod prf_outputs;
mod prf_values;
mod rp;
mod transport;
mod user;

pub use credential_type::PublicKeyCredentialType;
pub use descriptor::PublicKeyCredentialDescriptor;
pub use names::EnumNames;
pub use number_text::{NumberText, whole_part};
pub use parameters::PublicKeyCredentialParameters;
pub use passkey_memory::OutOfMemory;
pub use prf_outputs::AuthenticationExtensionsPrfOutputs;
pub use prf_values::AuthenticationExtensionsPrfValues;
pub use rp::PublicKeyCredentialRpEntity;
pub use transport::AuthenticatorTransport;
pub use user::PublicKeyCredentialUserEntity;
