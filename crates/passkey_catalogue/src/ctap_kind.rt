//! The kinds of bytes that CTAP2 has, beside those of `passkey_show`.
ghost use Rattle.std.specs.Prelude.{◌≡◌};
ghost use Rattle.passkey_catalogue.specs.CtapKinds.{ctap_kinds, ctap_own, ctap_source};

use crate::rows::{names, source};
use passkey_webauthn::EnumNames;

/// What bytes of CTAP2 are decoded as, beside `BytesKind`: messages of its other commands, and what is
/// in messages: extensions, keys and attestation.
#[derive(Clone, Copy, Debug, PartialEq, Eq)]
pub enum CtapKind {
    /// An authenticatorClientPIN request (CTAP 2.1, section 6.5).
    PinRequest,
    /// An authenticatorClientPIN response.
    PinResponse,
    /// An authenticatorBioEnrollment request (CTAP 2.1, section 6.7).
    BioRequest,
    /// An authenticatorBioEnrollment response.
    BioResponse,
    /// An authenticatorCredentialManagement request (CTAP 2.1, section 6.8).
    CredentialRequest,
    /// An authenticatorCredentialManagement response.
    CredentialResponse,
    /// An authenticatorLargeBlobs request (CTAP 2.1, section 6.10).
    BlobsRequest,
    /// An authenticatorLargeBlobs response.
    BlobsResponse,
    /// An entry of the large-blob array.
    BlobsEntry,
    /// An authenticatorConfig request (CTAP 2.1, section 6.11).
    ConfigRequest,
    /// Parameters of setMinPINLength.
    ConfigMinPinLength,
    /// Parameters of vendorPrototype.
    ConfigVendor,
    /// A COSE key (RFC 9052, section 7).
    Key,
    /// An authenticatorGetInfo response with the members and names of CTAP 2.3.
    Info23,
    /// Extension inputs of an authenticatorMakeCredential request (CTAP 2.1, section 12).
    MakeInputs,
    /// Extension outputs of authenticatorMakeCredential in authenticator data.
    MakeOutputs,
    /// Unsigned extension outputs of an authenticatorMakeCredential response.
    MakeUnsigned,
    /// Extension inputs of an authenticatorGetAssertion request.
    GetInputs,
    /// Extension outputs of authenticatorGetAssertion in authenticator data.
    GetOutputs,
    /// Unsigned extension outputs of an authenticatorGetAssertion response.
    GetUnsigned,
    /// An attestation statement of the format packed (WebAuthn Level 3, section 8.2).
    PackedStatement,
    /// An attestation statement of the format tpm (section 8.3).
    TpmStatement,
    /// An attestation statement of the format android-key (section 8.4).
    AndroidKeyStatement,
    /// An attestation statement of the format android-safetynet (section 8.5).
    SafetyNetStatement,
    /// An attestation statement of the format fido-u2f (section 8.6).
    FidoU2fStatement,
    /// An attestation statement of the format none (section 8.7).
    NoneStatement,
    /// An attestation statement of the format apple (section 8.8).
    AppleStatement,
    /// An attestation statement of the format compound (section 8.9).
    CompoundStatement,
    /// `certInfo` of a tpm attestation statement (TPM 2.0 Library, Part 2).
    CertInfo,
    /// `pubArea` of a tpm attestation statement.
    PubArea,
    /// An authenticatorMakeCredential request by the standard alone (CTAP 2.2, section 6.1).
    CtapMakeRequest,
    /// An authenticatorGetAssertion request by the standard alone (CTAP 2.2, section 6.2).
    CtapGetRequest,
    /// An authenticatorMakeCredential response by the standard alone (CTAP 2.2, section 6.1).
    CtapMakeResponse,
    /// An authenticatorGetAssertion response by the standard alone (CTAP 2.2, section 6.2).
    CtapGetResponse,
    /// An attestation object (WebAuthn Level 3, section 6.5.4).
    AttestationObject,
}

/// The kinds: the name of each, its value, and the standard that defines what its inputs are, with the
/// section. The place is the number in C. `$of` is the macro that makes something of them.
macro_rules! kinds {
    ($of:ident $(, $with:expr)?) => {
        $of! {
            $($with,)?
            ("pin-request", CtapKind::PinRequest, "CTAP 2.1, section 6.5"),
            ("pin-response", CtapKind::PinResponse, "CTAP 2.1, section 6.5"),
            ("bio-request", CtapKind::BioRequest, "CTAP 2.1, section 6.7"),
            ("bio-response", CtapKind::BioResponse, "CTAP 2.1, section 6.7"),
            ("cm-request", CtapKind::CredentialRequest, "CTAP 2.1, section 6.8"),
            ("cm-response", CtapKind::CredentialResponse, "CTAP 2.1, section 6.8"),
            ("lb-request", CtapKind::BlobsRequest, "CTAP 2.1, section 6.10"),
            ("lb-response", CtapKind::BlobsResponse, "CTAP 2.1, section 6.10"),
            ("lb-entry", CtapKind::BlobsEntry, "CTAP 2.1, section 6.10.3"),
            ("cfg-request", CtapKind::ConfigRequest, "CTAP 2.1, section 6.11"),
            ("cfg-min-pin-length", CtapKind::ConfigMinPinLength, "CTAP 2.1, section 6.11.4"),
            ("cfg-vendor", CtapKind::ConfigVendor, "CTAP 2.1, section 6.11.3"),
            ("cose-key", CtapKind::Key, "RFC 9052, section 7"),
            ("info-23", CtapKind::Info23, "CTAP 2.3, section 6.4"),
            ("mc-inputs", CtapKind::MakeInputs, "CTAP 2.3, section 6.1"),
            ("mc-outputs", CtapKind::MakeOutputs, "WebAuthn Level 3, section 6.1"),
            ("mc-unsigned", CtapKind::MakeUnsigned, "CTAP 2.3, section 6.1"),
            ("ga-inputs", CtapKind::GetInputs, "CTAP 2.3, section 6.2"),
            ("ga-outputs", CtapKind::GetOutputs, "WebAuthn Level 3, section 6.1"),
            ("ga-unsigned", CtapKind::GetUnsigned, "CTAP 2.3, section 6.2"),
            ("att-packed", CtapKind::PackedStatement, "WebAuthn Level 3, section 8.2"),
            ("att-tpm", CtapKind::TpmStatement, "WebAuthn Level 3, section 8.3"),
            ("att-android-key", CtapKind::AndroidKeyStatement, "WebAuthn Level 3, section 8.4"),
            ("att-android-safetynet", CtapKind::SafetyNetStatement, "WebAuthn Level 3, section 8.5"),
            ("att-fido-u2f", CtapKind::FidoU2fStatement, "WebAuthn Level 3, section 8.6"),
            ("att-none", CtapKind::NoneStatement, "WebAuthn Level 3, section 8.7"),
            ("att-apple", CtapKind::AppleStatement, "WebAuthn Level 3, section 8.8"),
            ("att-compound", CtapKind::CompoundStatement, "WebAuthn Level 3, section 8.9"),
            ("tpm-cert-info", CtapKind::CertInfo, "TPM 2.0 Library, Part 2"),
            ("tpm-pub-area", CtapKind::PubArea, "TPM 2.0 Library, Part 2"),
            ("ctap-mc-request", CtapKind::CtapMakeRequest, "CTAP 2.2, section 6.1"),
            ("ctap-ga-request", CtapKind::CtapGetRequest, "CTAP 2.2, section 6.2"),
            ("ctap-mc-response", CtapKind::CtapMakeResponse, "CTAP 2.2, section 6.1"),
            ("ctap-ga-response", CtapKind::CtapGetResponse, "CTAP 2.2, section 6.2"),
            ("attestation-object", CtapKind::AttestationObject, "WebAuthn Level 3, section 6.5.4"),
        }
    };
}

impl EnumNames for CtapKind {
    ghost table = { ctap_kinds };

    ghost name_is_own = { ctap_own };

    fn table() -> &'static [(&'static str, CtapKind)] {
        kinds!(names)
    }
}

/// The standard that defines what inputs of this kind are, and its section.
pub(crate) fn ctap_source(kind: CtapKind) -> &'static str
    ensures { result.now ≡ ctap_source kind }
{
    kinds!(source, kind)
}
