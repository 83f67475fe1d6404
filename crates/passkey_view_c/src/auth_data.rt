//! The parts of authenticator data, for C.
ghost use Rattle.std.specs.Prelude.{◌≡◌};
ghost use Rattle.passkey_view.specs.DataView.{IsDataView};
ghost use Rattle.passkey_view_c.specs.AuthData.{HasNoData, WritesParts, from_of, aaguid_of, id_of, id_len_of, key_of, parts_of};

use passkey_view::{AttestedView, DataView, ItemView, data_parts};

/// The parts of authenticator data, by their offsets; 0 for a part that is absent (WebAuthn Level 3,
/// sections 6.1 and 6.5.1). The relying party id's hash is the first 32 bytes.
#[repr(C)]
#[derive(Clone, Copy, Debug, PartialEq, Eq)]
pub struct AuthData {
    /// The AAGUID, 16 bytes.
    pub aaguid: usize,
    /// The credential id.
    pub credential_id: usize,
    /// The length of the credential id in bytes.
    pub credential_id_len: usize,
    /// The credential public key, a COSE key: a map with numbers as keys.
    pub public_key: usize,
    /// The map of extension outputs, with texts as keys.
    pub extensions: usize,
    /// The offset after the last part.
    pub end: usize,
    /// The signature counter.
    pub counter: u32,
    /// The flags: UP 1, UV 4, BE 8, BS 16, AT 64, ED 128.
    pub flags: u32,
}

/// Returns where the part begins, or 0 if it is absent.
fn from_of(part: Option<ItemView>) -> usize
    ensures { result ≡ from_of part }
{
    match part {
        Some(view) => view.from,
        None => 0,
    }
}

/// The offsets and the length in attested credential data, or zeros if it is absent.
#[derive(Clone, Copy)]
struct Ids {
    aaguid: usize,
    id: usize,
    id_len: usize,
    key: usize,
}

/// Returns where the parts of the attested credential data begin.
fn ids_of(attested: Option<AttestedView>) -> Ids
    ensures { result ≡ record {
      aaguid = aaguid_of attested;
      id = id_of attested;
      id_len = id_len_of attested;
      key = key_of attested;
    } }
{
    match attested {
        Some(attested) => Ids {
            aaguid: attested.aaguid,
            id: attested.credential_id,
            id_len: attested.credential_id_len,
            key: attested.public_key.from,
        },
        None => Ids {
            aaguid: 0,
            id: 0,
            id_len: 0,
            key: 0,
        },
    }
}

/// Returns the parts as C sees them.
fn parts_of(view: DataView) -> AuthData
    ensures { result ≡ parts_of view }
{
    let DataView {
        counter,
        flags,
        attested,
        extensions,
        end,
    } = view;
    let ids = ids_of(attested);
    AuthData {
        aaguid: ids.aaguid,
        credential_id: ids.id,
        credential_id_len: ids.id_len,
        public_key: ids.key,
        extensions: from_of(extensions),
        end,
        counter,
        flags: u32::from(flags),
    }
}

/// Writes the parts of the authenticator data at the beginning of the bytes into `parts` and returns
/// true. Returns false, and leaves `parts` as it was, if a part that the flags announce is cut off,
/// or isn't a well-formed map of at most 256 levels where one belongs. Bytes after the last part are
/// ignored. Neither reserved flags nor the members of the maps are checked. (WebAuthn Level 3,
/// section 6.1.)
#[unsafe(no_mangle)]
pub extern "C" fn puffgrit_auth_parts(bytes: &[u8], parts: &mut AuthData) -> bool
    ensures { WritesParts (HasNoData bytes.now) (IsDataView bytes.now) parts.old parts.new result }
{
    match data_parts(bytes) {
        Some(view) => {
            *parts = parts_of(view);
            true
        }
        None => false,
    }
}
