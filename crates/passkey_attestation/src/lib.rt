//! Attestation statements, by their formats (WebAuthn Level 3, section 8). Nothing is verified.
#![tactic(auto)]

mod algorithm_identifier;
mod android_key;
mod apple;
mod compound;
mod fault;
mod fido_u2f;
mod format;
pub mod laws;
mod packed;
mod safety_net;
mod statement;
mod tpm;

pub use algorithm_identifier::AlgorithmIdentifier;
pub use android_key::AndroidKeyStatement;
pub use apple::AppleStatement;
pub use compound::CompoundElement;
pub use fault::StatementFault;
pub use fido_u2f::FidoU2fStatement;
pub use format::AttestationFormat;
pub use packed::PackedStatement;
pub use safety_net::SafetyNetStatement;
pub use statement::AttestationStatement;
pub use tpm::TpmStatement;
