//! Relying parties, users, credentials and options in CTAP2's messages, by the standard alone (CTAP
//! 2.2, sections 6.1 and 6.2): each member of its own type, and null for none of them.
mod descriptor;
mod options;
mod rp;
mod user;

pub use descriptor::CredentialDescriptor;
pub use options::RequestOptions;
pub use rp::RpEntity;
pub use user::UserEntity;
