//! The parts of WebAuthn and CTAP2 messages: byte strings, texts, lists, maps, COSE keys (RFC 9052,
//! section 7), authenticator data and attested credential data (WebAuthn Level 3, sections 6.1 and
//! 6.5.1), and CTAP2's status codes and commands.
#![tactic(auto)]

mod aaguid;
mod attested;
mod authenticator_data;
mod command;
mod flags;
pub mod get_assertion;
mod given_back;
pub mod laws;
pub mod make_credential;
mod salts;
mod signed_outputs;
mod status;

pub use aaguid::Aaguid;
pub use attested::{AttestedCredentialData, AttestedCredentialDataIterator};
pub use authenticator_data::AuthenticatorData;
pub use command::Ctap2Command;
pub use flags::Flags;
pub use given_back::GivenBack;
pub use passkey_bytes::{Bytes, BytesFault, Key, List, Map, NotBase64Encoded, Text, encoding};
pub use passkey_cose as cose;
pub use passkey_cose::iana;
pub use passkey_memory::OutOfMemory;
pub use salts::{HmacSecretSaltOrOutput, TryFromSliceError};
pub use status::{
    CodeOutOfRange, Ctap2Error, ExtensionError, StatusCode, UnknownSpecError, VendorError,
};
