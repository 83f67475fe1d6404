//! The messages of authenticatorBioEnrollment (CTAP 2.1, section 6.7).
mod authenticated;
mod fingerprint_kind;
mod modality;
mod parameters;
mod request;
mod response;
mod sample_status;
mod sub_command;
mod template_info;

pub use fingerprint_kind::FingerprintKind;
pub use modality::Modality;
pub use parameters::Parameters;
pub use request::Request;
pub use response::Response;
pub use sample_status::SampleStatus;
pub use sub_command::SubCommand;
pub use template_info::TemplateInfo;
