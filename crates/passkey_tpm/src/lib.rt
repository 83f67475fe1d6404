//! The two TPM structures of a tpm attestation statement, which are no CBOR (WebAuthn Level 3,
//! section 8.3; TPM 2.0 Library, Part 2). Decoding lends the bytes and allocates nothing.
#![tactic(auto)]

mod cert_info;
mod encode_error;
mod hash_algorithm;
pub mod laws;
mod part;
mod pub_area;
mod public_key;
mod refusal;
mod scheme;

pub use cert_info::{CertInfo, ClockInfo, explain_cert_info};
pub use encode_error::EncodeError;
pub use hash_algorithm::HashAlgorithm;
pub use pub_area::{PubArea, explain_pub_area};
pub use public_key::{Curve, EccKey, PublicKey, RsaKey};
pub use refusal::{TpmField, TpmReason, TpmRefusal};
pub use scheme::{EccScheme, KdfScheme, RsaScheme};
