//! The parts of authenticator data, and what of one is refused.

use crate::KeyRefusal;
use passkey_cose::CoseError;
use passkey_explain::Extent;
use passkey_malformed::Malformed;

/// A part of authenticator data (WebAuthn Level 3, sections 6.1 and 6.5.1).
#[derive(Clone, Copy, Debug, PartialEq, Eq)]
pub enum DataPart {
    /// The SHA-256 hash of the relying party id: 32 bytes.
    RpIdHash,
    /// The flags: one byte.
    Flags,
    /// The signature counter: 4 bytes.
    SignCount,
    /// The AAGUID: 16 bytes, if the flag AT is set.
    Aaguid,
    /// The length of the credential id: 2 bytes, if AT is set.
    CredentialIdLength,
    /// The credential id, if AT is set.
    CredentialId,
    /// The credential public key, a COSE key, if AT is set.
    CredentialPublicKey,
    /// The extension outputs, a map, if the flag ED is set.
    Extensions,
    /// What follows the last part.
    Trailing,
}

/// Why a part is refused.
#[derive(Clone, Copy, Debug, PartialEq, Eq)]
pub enum DataReason {
    /// The bytes end before the part does.
    CutOff,
    /// Bit 1 or bit 5 of the flags is set, which are reserved.
    ReservedFlags,
    /// No well-formed data item of at most 256 levels is there: where in the authenticator data, and
    /// why.
    NotWellFormed(Malformed),
    /// The data item is no COSE key: why, and where in the authenticator data what is to blame is.
    Key(KeyRefusal, Extent),
    /// The data item is no map.
    NotAMap,
    /// Bytes follow the last part.
    BytesFollow,
}

/// What in authenticator data is refused.
#[derive(Clone, Copy, Debug, PartialEq, Eq)]
pub struct DataRefusal {
    /// The error of `AuthenticatorData::from_slice_exact`.
    pub fault: CoseError,
    /// The part that is refused: the first one, but for flags, which are checked after the lengths of
    /// the first three parts.
    pub part: DataPart,
    /// Where the part is; from its beginning to the end of the bytes, if it is cut off or no
    /// well-formed data item.
    pub extent: Extent,
    /// Why it is refused.
    pub reason: DataReason,
}
