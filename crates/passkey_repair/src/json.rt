//! JSON that known programs send and that the records of WebAuthn reject, repaired and then decoded
//! (WebAuthn Level 3, section 5).
mod attestation_objects;
mod byte_order_mark;
mod changes;
mod credentials;
mod deviation;
pub mod laws;
mod lenient;
mod objects;
mod options;
mod repair;
mod repairs_json;
mod transports;
mod whole_numbers;

pub use byte_order_mark::without_byte_order_mark;
pub use deviation::Deviation;
pub use lenient::{from_json_lenient, repair_json};
pub use repair::Repair;
pub use repairs_json::{PartRepairs, RepairsJson};
