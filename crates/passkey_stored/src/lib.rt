//! Passkeys, in the form in which an authenticator stores them.
#![tactic(auto)]

mod builder;
mod extensions;
mod hmac_secret;
mod passkey;

pub use builder::PasskeyBuilder;
pub use extensions::CredentialExtensions;
pub use hmac_secret::StoredHmacSecret;
pub use passkey::Passkey;
pub use passkey_core::GivenBack;
pub use passkey_memory::OutOfMemory;
