//! The messages of authenticatorLargeBlobs, and the large-blob array (CTAP 2.1, section 6.10).
pub use passkey_commands::large_blobs::{LargeBlob, Request, Response, array_of, with_digest};
