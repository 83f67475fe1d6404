//! What pinUvAuthParam authenticates for a request.
use crate::hexadecimal::{decode, encode};
use passkey_rewrite::RunFault;
use passkey_types::OutOfMemory;
use passkey_types::ctap2::{
    Message, bio_enrollment, client_pin, config, credential_management, large_blobs,
};
use std::alloc::Global;

/// A request with a pinUvAuthParam.
trait Authenticated {
    /// Returns what pinUvAuthParam authenticates for the request that these bytes are.
    fn authenticated(&self, alloc: Global, bytes: &[u8]) -> Result<Option<Vec<u8>>, OutOfMemory>;
}

impl Authenticated for client_pin::Request {
    fn authenticated(&self, alloc: Global, _bytes: &[u8]) -> Result<Option<Vec<u8>>, OutOfMemory> {
        Ok(Some(self.authenticated_bytes(alloc)?))
    }
}

impl Authenticated for bio_enrollment::Request {
    fn authenticated(&self, alloc: Global, bytes: &[u8]) -> Result<Option<Vec<u8>>, OutOfMemory> {
        self.authenticated_bytes(alloc, bytes)
    }
}

impl Authenticated for credential_management::Request {
    fn authenticated(&self, alloc: Global, bytes: &[u8]) -> Result<Option<Vec<u8>>, OutOfMemory> {
        Ok(Some(self.authenticated_bytes(alloc, bytes)?))
    }
}

impl Authenticated for large_blobs::Request {
    fn authenticated(&self, alloc: Global, _bytes: &[u8]) -> Result<Option<Vec<u8>>, OutOfMemory> {
        self.authenticated_bytes(alloc)
    }
}

impl Authenticated for config::Request {
    fn authenticated(&self, alloc: Global, bytes: &[u8]) -> Result<Option<Vec<u8>>, OutOfMemory> {
        Ok(Some(self.authenticated_bytes(alloc, bytes)?))
    }
}

/// `BYTES`: what pinUvAuthParam authenticates; `none` if it is nothing.
fn shown<M: Message + Authenticated>(alloc: Global, input: &str) -> Result<String, RunFault> {
    let bytes = decode(alloc, input)?;
    let (request, _len) = M::from_slice(alloc, &bytes)?;
    let authenticated = request.authenticated(alloc, &bytes);
    drop(request);
    match authenticated? {
        Some(authenticated) => encode(alloc, &authenticated),
        None => Ok(String::from_str(alloc, "none")?),
    }
}

/// Returns the output of a row of this command.
pub fn authenticated_row(alloc: Global, command: &str, input: &str) -> Result<String, RunFault> {
    match command {
        "pin" => shown::<client_pin::Request>(alloc, input),
        "bio" => shown::<bio_enrollment::Request>(alloc, input),
        "cm" => shown::<credential_management::Request>(alloc, input),
        "lb" => shown::<large_blobs::Request>(alloc, input),
        "cfg" => shown::<config::Request>(alloc, input),
        _ => Err(RunFault::UnknownKind),
    }
}
