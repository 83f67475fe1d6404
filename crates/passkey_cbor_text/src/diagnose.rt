//! Diagnostic notation (RFC 8949, section 8): data items as text that people read.
mod bytes_text;
mod diagnosis;
mod float;
mod text;

pub use bytes_text::{diagnose_bytes, diagnose_bytes_indented};
pub use diagnosis::{diagnose, diagnose_indented};
pub use text::{escape_controls, quote};
