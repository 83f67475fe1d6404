//! Messages that are decoded leniently.
use crate::again_bytes::encoded;
use crate::hexadecimal::{decode, encode};
use crate::tries::Tries;
use passkey_rewrite::RunFault;
use passkey_types::OutOfMemory;
use passkey_types::ctap2::repair::{Lenient, Repairable, from_slice_lenient};
use passkey_types::ctap2::{Message, credential_management, get_assertion, make_credential};
use std::alloc::Global;
use std::fmt::Display;

/// Returns the repairs that were made, each with a semicolon after it.
pub fn listed<R: Display>(alloc: Global, repairs: &[R]) -> Result<String, OutOfMemory> {
    let mut out = String::new(alloc);
    for repair in repairs {
        out.push_str(format!(in alloc; "{repair}; ")?.as_str())?;
    }
    Ok(out)
}

/// Returns the repairs that were made, and the message's encoding.
fn written<M: Message>(
    alloc: Global,
    tries: &mut Tries,
    read: &Lenient<M>,
) -> Result<String, RunFault> {
    let repairs = listed(alloc, &read.repairs)?;
    let bytes = encoded(alloc, tries, &read.message)?;
    let bytes = encode(alloc, &bytes)?;
    Ok(format!(in alloc; "{repairs}{bytes}")?)
}

/// `BYTES`: the repairs that were made, and the message's encoding.
fn lenient<M: Message + Repairable>(
    alloc: Global,
    tries: &mut Tries,
    input: &str,
) -> Result<String, RunFault> {
    let bytes = decode(alloc, input)?;
    let (read, _) = from_slice_lenient::<M>(alloc, &bytes)?;
    let text = written(alloc, tries, &read);
    drop(read);
    text
}

/// Returns the output of a row of such a kind. Returns `None` if it isn't a row of such a kind.
pub fn lenient_row(
    alloc: Global,
    tries: &mut Tries,
    name: &str,
    input: &str,
) -> Option<Result<String, RunFault>> {
    match name {
        "lenient-mc-request" => Some(lenient::<make_credential::Request>(alloc, tries, input)),
        "lenient-mc-response" => Some(lenient::<make_credential::Response>(alloc, tries, input)),
        "lenient-ga-response" => Some(lenient::<get_assertion::Response>(alloc, tries, input)),
        "lenient-cm-request" => Some(lenient::<credential_management::Request>(
            alloc, tries, input,
        )),
        "lenient-cm-response" => Some(lenient::<credential_management::Response>(
            alloc, tries, input,
        )),
        _ => None,
    }
}
