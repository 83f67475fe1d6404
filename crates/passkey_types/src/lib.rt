//! The messages of passkeys: what a relying party, a browser and an authenticator exchange
//! (WebAuthn Level 3; CTAP 2.1). This crate re-exports what callers need, down to CBOR data items
//! and COSE keys.
#![tactic(auto)]

pub mod attestation;
pub mod cose;
pub mod ctap2;
pub mod json;
pub mod webauthn;

/// The crate with the trait `Flags` for sets of flags. `use passkey_types::bitflags::Flags as _;`
/// makes its calls, such as `contains`, available on `ctap2::Flags`.
pub use bitflags;
pub use passkey_bytes::{
    Bytes, BytesFault, Key, List, Map, NotBase64Encoded, OutOfMemory, Text, encoding,
};
pub use passkey_cbor as cbor;
pub use passkey_cbor_text::{diagnose as diagnose, values as values};
pub use passkey_stored::{CredentialExtensions, Passkey, PasskeyBuilder, StoredHmacSecret};
pub use passkey_view as view;
pub use rand_core::Rng;
