//! Hashes of client data.
ghost use Rattle.std.specs.Prelude.{◌≡◌, ℕ, List, length};
ghost use Rattle.passkey_kinds.specs.Words.{AnswersAs, byte_string};
ghost use Rattle.passkey_registered.specs.Exact.{hash, hash_from};

use crate::exact::ExactBytes;
use passkey_cbor::{Cursor, Encoder, Value};
use passkey_kinds::{Form, FromCbor, Look, OutOfMemory, Refusal, ToCbor, Wanted, looked};
use std::alloc::Global;

/// The SHA-256 hash of the client data of a ceremony, 32 bytes (WebAuthn Level 3, section 5.8.1). It
/// is decoded from a byte string of this length alone, and encoded as one.
#[derive(Clone, Copy, Debug, PartialEq, Eq)]
pub struct ClientDataHash(pub [u8; 32]);

fn sized(bytes: &[u8]) -> Result<ClientDataHash, Refusal>
    ensures { AnswersAs (λ h. h.0) (hash_from (byte_string bytes.now)) ⊥ result }
{
    match <[u8; 32]>::try_from(bytes) {
        Ok(bytes) => Ok(ClientDataHash(bytes)),
        Err(_) => Err(Refusal::Refused),
    }
}

impl FromCbor for ClientDataHash {
    ghost Meaning = { List ℕ };

    ghost view = { λ h. h.0 };

    ghost typed = { hash.typed };

    fn from_value(_alloc: Global, value: &Value) -> Result<ClientDataHash, Refusal> {
        match value {
            Value::Bytes(bytes) => sized(bytes),
            _ => Err(Refusal::Refused),
        }
    }

    fn read(alloc: Global, cursor: &mut Cursor<'_>) -> Result<ClientDataHash, Refusal> {
        let bytes = ExactBytes::read(alloc, cursor)?;
        sized(bytes.as_slice())
    }

    fn look(alloc: Global, _way: &[u8], value: &Value) -> Result<Look, OutOfMemory> {
        looked(
            ClientDataHash::from_value(alloc, value),
            Form::Leaf(Wanted::ByteString(32)),
        )
    }
}

impl ToCbor for ClientDataHash {
    ghost tree = { λ h. byte_string h.0 };

    ghost fits = { λ h. length h.0 ≡ 32 };

    fn to_value(&self, alloc: Global) -> Result<Value, OutOfMemory> {
        Ok(Value::Bytes(Vec::from_slice(alloc, &self.0)?))
    }

    fn append(&self, _alloc: Global, encoder: &mut Encoder) -> Result<(), OutOfMemory> {
        encoder.byte_string(&self.0)
    }
}
