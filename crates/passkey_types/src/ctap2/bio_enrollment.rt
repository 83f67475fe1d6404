//! The messages of authenticatorBioEnrollment (CTAP 2.1, section 6.7).
pub use passkey_commands::bio_enrollment::{
    FingerprintKind, Modality, Parameters, Request, Response, SampleStatus, SubCommand,
    TemplateInfo,
};
