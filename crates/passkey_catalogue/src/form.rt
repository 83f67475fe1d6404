//! What an input may be besides a data item, authenticator data and a message.

use crate::any_json_kind::AnyJsonKind;
use passkey_attestation::AttestationFormat;

/// What an input may be besides a data item, authenticator data and a message.
#[derive(Clone, Copy, Debug, PartialEq, Eq)]
pub enum Form {
    /// A COSE key (RFC 9052, section 7).
    Key,
    /// An attestation statement of this format (WebAuthn Level 3, section 8).
    Statement(AttestationFormat),
    /// `certInfo` of a tpm attestation statement (TPM 2.0 Library, Part 2).
    CertInfo,
    /// `pubArea` of a tpm attestation statement.
    PubArea,
    /// A JSON text of this kind.
    Json(AnyJsonKind),
}
