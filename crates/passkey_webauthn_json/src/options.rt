//! The WebAuthn options that a relying party sends to a browser, decoded from JSON values and
//! encoded.
mod arguments;
mod creation_options;
mod place_list;
mod preferences;
mod request_options;

pub use arguments::{CredentialCreationOptions, CredentialOptions, CredentialRequestOptions};
pub use creation_options::PublicKeyCredentialCreationOptions;
pub use preferences::{
    AttestationConveyancePreference, AttestationStatementFormatIdentifiers,
    PublicKeyCredentialHints,
};
pub use request_options::PublicKeyCredentialRequestOptions;
