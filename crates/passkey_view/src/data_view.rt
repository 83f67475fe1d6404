//! The parts of authenticator data.
ghost use Rattle.std.specs.Prelude.{◌≡◌, ◌≤◌, ◌+◌, length, slice_index};
ghost use Rattle.passkey_core.specs.DataFlags.{has_flag, attested_flag, extensions_flag};
ghost use Rattle.passkey_view.specs.DataView.{FindsExactly, IsMapAt, IsAttestedAt, IsWhere, IsDataView, following, end_of};

use crate::item_view::{ItemView, item_at};
use passkey_cbor::Head;

/// The length in bytes of the relying party id's hash, the flags and the signature counter.
const FIXED: usize = 37;

/// The length in bytes of the AAGUID and of the credential id's length.
const IDS: usize = 18;

/// The flag AT: attested credential data are included.
const ATTESTED: u8 = 0x40;

/// The flag ED: extension data are included.
const EXTENSIONS: u8 = 0x80;

/// The parts of authenticator data (WebAuthn Level 3, section 6.1). The relying party id's hash is
/// the first 32 bytes.
#[derive(Clone, Copy, Debug, PartialEq, Eq)]
pub struct DataView {
    /// The signature counter.
    pub counter: u32,
    /// The flags, reserved ones too.
    pub flags: u8,
    /// The attested credential data, if the flag AT is set.
    pub attested: Option<AttestedView>,
    /// The map of extension outputs, if the flag ED is set.
    pub extensions: Option<ItemView>,
    /// The offset after the last part.
    pub end: usize,
}

/// The parts of attested credential data (WebAuthn Level 3, section 6.5.1).
#[derive(Clone, Copy, Debug, PartialEq, Eq)]
pub struct AttestedView {
    /// The offset of the AAGUID, which has 16 bytes.
    pub aaguid: usize,
    /// The offset of the credential id.
    pub credential_id: usize,
    /// The length of the credential id in bytes.
    pub credential_id_len: usize,
    /// The credential public key, a map with numbers as keys (a COSE key).
    pub public_key: ItemView,
}

/// Returns the parts of the authenticator data at the beginning of the bytes, or `None` if a part
/// that the flags announce is cut off, or isn't a well-formed map of at most 256 levels where one
/// belongs. Bytes after the last part are ignored; neither reserved flags nor the members of the maps
/// are checked, as `AuthenticatorData::from_slice` of `passkey_core` does. (WebAuthn Level 3,
/// section 6.1.)
pub fn data_parts(bytes: &[u8]) -> Option<DataView>
    ensures { FindsExactly (IsDataView bytes.now) result }
{
    if bytes.len() < FIXED {
        return None;
    }
    let flags = bytes[32];
    match attested_where(flags, bytes) {
        None => None,
        Some(attested) => match extensions_where(flags, bytes, following(&attested)) {
            None => None,
            Some(extensions) => Some(DataView {
                counter: u32::from_be_bytes([bytes[33], bytes[34], bytes[35], bytes[36]]),
                flags,
                attested,
                extensions,
                end: end_of(following(&attested), &extensions),
            }),
        },
    }
}

/// Returns the offset after the attested credential data.
fn following(attested: &Option<AttestedView>) -> usize
    ensures { result ≡ following attested.now }
{
    match attested {
        Some(attested) => attested.public_key.end,
        None => FIXED,
    }
}

/// Returns the offset after the last part, where the part before the extensions ends at `end`.
fn end_of(end: usize, extensions: &Option<ItemView>) -> usize
    ensures { result ≡ end_of end extensions.now }
{
    match extensions {
        Some(extensions) => extensions.end,
        None => end,
    }
}

/// Returns the map at the offset, or `None` if no well-formed map is there.
fn map_at(bytes: &[u8], offset: usize) -> Option<ItemView>
    ensures { FindsExactly (IsMapAt bytes.now offset) result }
{
    match item_at(bytes, offset) {
        None => None,
        Some(view) => match view.head {
            Head::Map(_) => Some(view),
            _ => None,
        },
    }
}

/// Returns the parts of the attested credential data after the parts of fixed length.
fn attested_at(bytes: &[u8]) -> Option<AttestedView>
    ensures { FindsExactly (IsAttestedAt bytes.now) result }
{
    if bytes.len() < FIXED + IDS {
        return None;
    }
    let len = usize::from(u16::from_be_bytes([bytes[53], bytes[54]]));
    match map_at(bytes, FIXED + IDS + len) {
        None => None,
        Some(public_key) => Some(AttestedView {
            aaguid: FIXED,
            credential_id: FIXED + IDS,
            credential_id_len: len,
            public_key,
        }),
    }
}

/// The same, if the flag AT is set.
fn attested_where(flags: u8, bytes: &[u8]) -> Option<Option<AttestedView>>
    ensures { FindsExactly (IsWhere (has_flag attested_flag flags) (IsAttestedAt bytes.now)) result }
{
    if flags & ATTESTED != ATTESTED {
        return Some(None);
    }
    match attested_at(bytes) {
        None => None,
        Some(attested) => Some(Some(attested)),
    }
}

/// Returns the map of extension outputs at the offset, if the flag ED is set.
fn extensions_where(flags: u8, bytes: &[u8], offset: usize) -> Option<Option<ItemView>>
    ensures { FindsExactly (IsWhere (has_flag extensions_flag flags) (IsMapAt bytes.now offset)) result }
{
    if flags & EXTENSIONS != EXTENSIONS {
        return Some(None);
    }
    match map_at(bytes, offset) {
        None => None,
        Some(extensions) => Some(Some(extensions)),
    }
}
