//! authenticatorGetInfo responses (CTAP 2.1, section 6.4).
mod extension;
pub mod laws;
mod options;
mod response;
mod version;

pub use extension::Extension;
pub use options::Options;
pub use response::Response;
pub use version::Version;
