//! Tests of the libraries: values from the standards, printed texts, which field of a record each member
//! is, calls that need memory, and streams that fail.
#![tactic(auto)]

#[cfg(test)]
mod base;
#[cfg(test)]
mod ctap2;
#[cfg(test)]
mod json;
