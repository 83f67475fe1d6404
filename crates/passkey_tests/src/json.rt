//! Tests of the JSON crates.
mod checks;
mod client_data;
mod credentials;
mod kinds;
mod members;
mod options;
mod records;
