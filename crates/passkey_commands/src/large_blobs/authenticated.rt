//! What pinUvAuthParam authenticates in requests of authenticatorLargeBlobs.
ghost use Rattle.std.specs.Prelude.{◌≡◌, IfOk, option_map};
ghost use Rattle.passkey_commands.specs.large_blobs.Authenticated.{written_fragment, authenticated_in};

use crate::large_blobs::Request;
use passkey_kinds::OutOfMemory;
use sha2::{Digest, Sha256};
use std::alloc::Global;

fn of_fragment(alloc: Global, offset: u32, fragment: &[u8]) -> Result<Vec<u8>, OutOfMemory>
    ensures { IfOk result (λ bytes. bytes.items ≡ written_fragment offset fragment.now) }
{
    let mut bytes = Vec::from_slice(alloc, &[0xff; 32])?;
    bytes.extend_from_slice(&[0x0c, 0x00])?;
    bytes.extend_from_slice(&offset.to_le_bytes())?;
    bytes.extend_from_slice(&Sha256::digest(fragment))?;
    Ok(bytes)
}

impl Request {
    /// Returns the bytes that `pin_uv_auth_param` authenticates with the pinUvAuthToken as a fragment
    /// is written: 32 bytes 0xFF, 0x0C, 0x00, the offset as 4 bytes in little-endian order, and the
    /// SHA-256 digest of the content of `set` (CTAP 2.1, section 6.10.2). Returns `None` if `set` is
    /// absent, or if the offset has more than 32 bits, and `OutOfMemory` if an allocation fails.
    pub fn authenticated_bytes(&self, alloc: Global) -> Result<Option<Vec<u8>>, OutOfMemory>
        ensures { IfOk result (λ found. option_map (λ bytes. bytes.items) found ≡ authenticated_in self.now) }
    {
        let Some(fragment) = &self.set else {
            return Ok(None);
        };
        let Ok(offset) = u32::try_from(self.offset) else {
            return Ok(None);
        };
        Ok(Some(of_fragment(alloc, offset, fragment.as_slice())?))
    }
}
