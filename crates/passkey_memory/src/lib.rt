//! The error of calls that can only run out of memory, and the contracts of calls that may.
#![tactic(auto)]

mod out_of_memory;

pub use out_of_memory::{MemoryError, OutOfMemory};
