//! A lenient way to decode messages: what programs are known to send, and the tables refuse, is
//! repaired, and each repair is listed. Decoding itself stays strict.
mod change;
mod deviation;
mod key;
pub mod laws;
mod lenient;
mod literal;
mod place;
mod repairable;
mod repairing;
mod repairs;
mod tables;

pub use change::Change;
pub use deviation::Deviation;
pub use key::Key;
pub use lenient::{Lenient, from_slice_lenient};
pub use literal::Literal;
pub use repairable::Repairable;
pub use repairing::{repair, repair_item};
pub use repairs::Repair;
