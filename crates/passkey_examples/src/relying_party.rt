//! A relying party that registers passkeys and signs users in: it sends options to the browser, and
//! checks what the browser returns (WebAuthn Level 3, sections 7.1 and 7.2). The modules say which
//! steps of these sections they do, and which they leave to the caller.
mod checks;
mod package_name;
mod registration;
mod signing_in;

pub use checks::Rejected;
pub use package_name::PackageName;
pub use registration::{CredentialRecord, creation_options, register};
pub use signing_in::{Assertion, request_options, sign_in};

/// The relying party id, a domain.
const RP_ID: &str = "example.org";

/// The origin of the relying party's pages.
const ORIGIN: &str = "https://example.org";

/// The name of the relying party's app, which Android clients add to client data.
const APP: &str = "org.example";
