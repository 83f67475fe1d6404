//! A relying party without an id.

use passkey_bytes::Text;
use thiserror::Error;

/// The WebAuthn relying party has no id, which CTAP2 requires. An absent id means the effective
/// domain of the caller's origin (WebAuthn Level 3, section 5.1.3).
#[derive(Debug, Drop, Error)]
#[error("MissingRpId")]
pub struct MissingRpId {
    /// The relying party's name.
    pub rp_name: Text,
}
