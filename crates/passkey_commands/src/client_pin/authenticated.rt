//! What pinUvAuthParam authenticates in requests of authenticatorClientPIN.
ghost use Rattle.std.specs.Prelude.{◌≡◌, ◌++◌, [], IfOk, unwrap_or};

use crate::client_pin::Request;
use passkey_bytes::Bytes;
use passkey_kinds::OutOfMemory;
use std::alloc::Global;

/// Lends the bytes, or none if the member is absent.
fn content(member: &Option<Bytes>) -> &[u8]
    ensures { result.now ≡ unwrap_or member.now [] }
{
    match member {
        Some(bytes) => bytes.as_slice(),
        None => &[],
    }
}

impl Request {
    /// Returns the bytes that `pin_uv_auth_param` authenticates with the shared secret: `newPinEnc`,
    /// followed by `pinHashEnc` if it is present, as changePIN has it (CTAP 2.1, sections 6.5.5.5
    /// and 6.5.5.6). Returns `OutOfMemory` if an allocation fails.
    pub fn authenticated_bytes(&self, alloc: Global) -> Result<Vec<u8>, OutOfMemory>
        ensures { IfOk result (λ bytes. bytes.items
            ≡ unwrap_or self.now.new_pin_enc [] ++ unwrap_or self.now.pin_hash_enc []) }
    {
        let mut bytes = Vec::from_slice(alloc, content(&self.new_pin_enc))?;
        bytes.extend_from_slice(content(&self.pin_hash_enc))?;
        Ok(bytes)
    }
}
