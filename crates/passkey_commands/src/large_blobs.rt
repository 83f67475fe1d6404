//! The messages of authenticatorLargeBlobs, and the large-blob array (CTAP 2.1, section 6.10).
mod array;
mod authenticated;
mod large_blob;
mod request;
mod response;

pub use array::{array_of, with_digest};
pub use large_blob::LargeBlob;
pub use request::Request;
pub use response::Response;
