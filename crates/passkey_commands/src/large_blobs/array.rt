//! The serialized large-blob array: its CBOR array, and a digest.
ghost use Rattle.std.specs.Prelude.{◌≡◌, ◌++◌, IfOk, option_map};
ghost use Rattle.passkey_commands.specs.large_blobs.Array.{digest_of, array_in};

use passkey_memory::OutOfMemory;
use sha2::{Digest, Sha256};
use std::alloc::Global;

/// The length of the digest in bytes.
const DIGEST_LEN: usize = 16;

/// Lends the CBOR array of a serialized large-blob array, which is followed by the first 16 bytes of
/// its SHA-256 digest (CTAP 2.1, section 6.10.2). Returns `None` exactly if there are fewer than 16
/// bytes or the digest is another one; then a platform acts as if the array were empty. Allocates
/// nothing. Each element of the array that `LargeBlob` decodes is an entry; others have to be kept
/// as they are.
pub fn array_of(serialized: &[u8]) -> Option<&[u8]>
    ensures { option_map (λ a. a.now) result ≡ array_in serialized.now }
{
    let len = serialized.len().checked_sub(DIGEST_LEN)?;
    let (array, digest) = serialized.split_at(len);
    let whole = Sha256::digest(array);
    if &whole[..DIGEST_LEN] == digest {
        Some(array)
    } else {
        None
    }
}

/// Returns the serialized large-blob array: the CBOR array, followed by the first 16 bytes of its
/// SHA-256 digest (CTAP 2.1, section 6.10.2). Returns `OutOfMemory` if an allocation fails.
pub fn with_digest(alloc: Global, array: &[u8]) -> Result<Vec<u8>, OutOfMemory>
    ensures { IfOk result (λ bytes. bytes.items ≡ array.now ++ digest_of array.now) }
{
    let whole = Sha256::digest(array);
    let mut bytes = Vec::from_slice(alloc, array)?;
    bytes.extend_from_slice(&whole[..DIGEST_LEN])?;
    Ok(bytes)
}
