//! Keys of large blobs.
ghost use Rattle.std.specs.Prelude.{◌≡◌, ℕ, List, length};
ghost use Rattle.passkey_kinds.specs.Words.{byte_string};
ghost use Rattle.passkey_registered.specs.Exact.{hash};

use crate::client_data_hash::ClientDataHash;
use passkey_cbor::{Cursor, Encoder, Value};
use passkey_kinds::{Form, FromCbor, Look, OutOfMemory, Refusal, ToCbor, Wanted, looked};
use std::alloc::Global;
use std::marker::Model;

/// The key of a credential's large blob, 32 bytes (CTAP 2.2, section 12.3). It is decoded from a byte
/// string of this length alone, and encoded as one.
#[derive(Debug, Drop)]
pub struct LargeBlobKey {
    bytes: [u8; 32],
}

/// Contracts see the bytes.
impl Model for LargeBlobKey {
    ghost use Rattle.std.specs.Prelude.{◌≡◌, ℕ, List, length};

    ghost Value = { List ℕ };

    ghost view = { λ k. k.bytes };

    ghost invariant = { λ k. length k.bytes ≡ 32 };
}

impl LargeBlobKey {
    /// Returns the key with these bytes.
    pub fn new(bytes: [u8; 32]) -> LargeBlobKey
        ensures { result ≡ bytes }
    {
        LargeBlobKey { bytes }
    }

    /// Lends the bytes.
    pub fn as_slice(&self) -> &[u8]
        ensures { result.now ≡ self.now }
    {
        &self.bytes
    }
}

impl FromCbor for LargeBlobKey {
    ghost Meaning = { List ℕ };

    ghost view = { λ k. k };

    ghost typed = { hash.typed };

    fn from_value(alloc: Global, value: &Value) -> Result<LargeBlobKey, Refusal> {
        Ok(LargeBlobKey::new(ClientDataHash::from_value(alloc, value)?.0))
    }

    fn read(alloc: Global, cursor: &mut Cursor<'_>) -> Result<LargeBlobKey, Refusal> {
        Ok(LargeBlobKey::new(ClientDataHash::read(alloc, cursor)?.0))
    }

    fn look(alloc: Global, way: &[u8], value: &Value) -> Result<Look, OutOfMemory> {
        ClientDataHash::look(alloc, way, value)
    }
}

impl ToCbor for LargeBlobKey {
    ghost tree = { byte_string };

    ghost fits = { λ k. length k ≡ 32 };

    fn to_value(&self, alloc: Global) -> Result<Value, OutOfMemory> {
        Ok(Value::Bytes(Vec::from_slice(alloc, &self.bytes)?))
    }

    fn append(&self, _alloc: Global, encoder: &mut Encoder) -> Result<(), OutOfMemory> {
        encoder.byte_string(&self.bytes)
    }
}
