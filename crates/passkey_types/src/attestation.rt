//! Attestation statements by format, and the two structures in that of a TPM (WebAuthn Level 3,
//! section 8).
pub use passkey_attestation::{
    AlgorithmIdentifier, AndroidKeyStatement, AppleStatement, AttestationFormat,
    AttestationStatement, CompoundElement, FidoU2fStatement, PackedStatement, SafetyNetStatement,
    StatementFault, TpmStatement, laws,
};
pub use passkey_explain_data::{
    StatementBlame, StatementExplanation, StatementRefusal, explain_statement,
};
pub use passkey_tpm::{
    CertInfo, ClockInfo, Curve, EccKey, EccScheme, EncodeError, HashAlgorithm, KdfScheme, PubArea,
    PublicKey, RsaKey, RsaScheme, TpmField, TpmReason, TpmRefusal, explain_cert_info,
    explain_pub_area,
};
