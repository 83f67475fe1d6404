//! How your own crate decodes a message.
#![tactic(auto)]

use passkey_types::ctap2::Fault;
use passkey_types::ctap2::get_info::Response;
use std::alloc::Global;

/// Returns whether the authenticator can verify its user by itself, or the response's first fault.
pub fn verifies_users(alloc: Global, response: &[u8]) -> Result<bool, Fault> {
    let (info, _len) = Response::from_slice(alloc, response)?;
    match info.options {
        Some(options) => Ok(options.uv == Some(true)),
        None => Ok(false),
    }
}

#[cfg(test)]
mod tests;
