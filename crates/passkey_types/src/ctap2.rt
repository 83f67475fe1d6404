//! What a platform and an authenticator exchange (CTAP 2.1): messages, authenticator data, status
//! codes and extensions.
pub mod bio_enrollment;
pub mod client_pin;
pub mod config;
pub mod credential_management;
pub mod explain;
pub mod extensions;
pub mod framing;
pub mod get_assertion;
pub mod get_info;
pub mod large_blobs;
pub mod laws;
pub mod make_credential;

pub use passkey_core::{
    Aaguid, AttestedCredentialData, AttestedCredentialDataIterator, AuthenticatorData,
    CodeOutOfRange, Ctap2Command, Ctap2Error, ExtensionError, Flags, GivenBack, StatusCode,
    UnknownSpecError, VendorError,
};
pub use passkey_cose::{CoseError, CoseKeyConversionError, RefusedKey};
pub use passkey_kinds::{
    Code, Fault, Form, FromCbor, Kept, Look, Message, Refusal, ToCbor, TolerantList, Tolerated,
    Wanted, WriteFault,
};
pub use passkey_registered as registered;
pub use passkey_repair::messages as repair;
