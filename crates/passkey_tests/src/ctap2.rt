//! Tests of the crates that decode and encode CTAP2 messages.
mod descriptions;
mod extensions;
mod get_assertion;
mod get_info;
mod kinds;
mod make_credential;
mod records;
mod streams;
mod tables;
