//! The parts of attested credential data.
ghost use Rattle.std.specs.Prelude.{◌<◌, ◌^◌, length};

use crate::aaguid::Aaguid;
use passkey_cose::CoseKey;

/// A new credential: its authenticator's AAGUID, its id and its public key (WebAuthn Level 3,
/// section 6.5.1).
#[derive(Debug, Drop)]
pub struct AttestedCredentialData {
    /// The AAGUID of its authenticator.
    pub aaguid: Aaguid,
    pub(crate) credential_id: Vec<u8>,
    /// The credential's public key.
    pub key: CoseKey,
    ghost fits: { length credential_id.items < 2 ^ 16 },
}
