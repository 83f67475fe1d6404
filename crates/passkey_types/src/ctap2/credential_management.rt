//! The messages of authenticatorCredentialManagement (CTAP 2.1, section 6.8).
pub use passkey_commands::credential_management::{
    CredProtect, Parameters, Request, Response, SubCommand,
};
