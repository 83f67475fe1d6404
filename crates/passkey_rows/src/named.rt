//! Rows of kinds that `passkey_show` doesn't have: messages of any kind, and the bytes that are sent
//! around them.
use crate::attestation::attestation_row;
use crate::authenticated::authenticated_row;
use crate::ceremonies::ceremony_row;
use crate::extensions::extensions_row;
use crate::heads::Counts;
use crate::hexadecimal::{decode, encode};
use crate::lenient::lenient_row;
use crate::lenient_json::lenient_json_row;
use crate::level_3::level_3_row;
use crate::notation::notation_row;
use crate::platform::platform_row;
use crate::tries::Tries;
use crate::ways::{Way, message_row};
use passkey_catalogue::Kind;
use passkey_rewrite::RunFault;
use passkey_types::cbor::Value;
use passkey_types::ctap2::framing::{request_of, response_of};
use passkey_types::ctap2::large_blobs::{array_of, with_digest};
use std::alloc::Global;

/// `BYTES`: the command of a request, and its body.
fn command(alloc: Global, input: &str) -> Result<String, RunFault> {
    let bytes = decode(alloc, input)?;
    let Some((command, body)) = request_of(&bytes) else {
        return Ok(String::from_str(alloc, "none")?);
    };
    let body = encode(alloc, body)?;
    Ok(format!(in alloc; "{command:?} {body}")?)
}

/// `BYTES`: the status code of a response, and its body.
fn reply(alloc: Global, input: &str) -> Result<String, RunFault> {
    let bytes = decode(alloc, input)?;
    let Some((status, body)) = response_of(&bytes) else {
        return Ok(String::from_str(alloc, "none")?);
    };
    let body = encode(alloc, body)?;
    Ok(format!(in alloc; "{status:?} {body}")?)
}

/// `BYTES`: a serialized large-blob array, whose array is decoded and encoded; `none` if its digest
/// is another one.
fn blob_array(alloc: Global, input: &str) -> Result<String, RunFault> {
    let bytes = decode(alloc, input)?;
    let Some(array) = array_of(&bytes) else {
        return Ok(String::from_str(alloc, "none")?);
    };
    let (array, _len) = Value::from_slice(alloc, array)?;
    let encoding = array.to_vec(alloc);
    drop(array);
    encode(alloc, &with_digest(alloc, &encoding?)?)
}

fn way_of(name: &str) -> (Way, &str) {
    if let Some(kind) = name.strip_prefix("again-") {
        return (Way::Again, kind);
    }
    if let Some(kind) = name.strip_prefix("value-") {
        return (Way::ByItem, kind);
    }
    if let Some(kind) = name.strip_prefix("heads-") {
        return (Way::Counted(Counts::Both), kind);
    }
    if let Some(kind) = name.strip_prefix("nodes-") {
        return (Way::Counted(Counts::Nodes), kind);
    }
    if let Some(kind) = name.strip_prefix("whole-") {
        return (Way::Whole, kind);
    }
    if let Some(kind) = name.strip_prefix("body-") {
        return (Way::Body, kind);
    }
    // Without the comparison of both ways of decoding, which makes many allocations.
    if let Some(kind) = name.strip_prefix("once-") {
        return (Way::Once, kind);
    }
    (Way::Once, name)
}

/// Returns the output of a row of such a kind. Returns `None` if it isn't a row of such a kind.
pub fn named_row(
    alloc: Global,
    tries: &mut Tries,
    name: &str,
    input: &str,
) -> Option<Result<String, RunFault>> {
    match name {
        "command" => return Some(command(alloc, input)),
        "reply" => return Some(reply(alloc, input)),
        "lb-array" => return Some(blob_array(alloc, input)),
        _ => {}
    }
    if let Some(command) = name.strip_prefix("authenticated-") {
        return Some(authenticated_row(alloc, command, input));
    }
    if let Some(output) = attestation_row(alloc, name, input) {
        return Some(output);
    }
    if let Some(output) = level_3_row(alloc, name, input) {
        return Some(output);
    }
    if let Some(output) = notation_row(alloc, name, input) {
        return Some(output);
    }
    if let Some(output) = ceremony_row(alloc, name, input) {
        return Some(output);
    }
    if let Some(output) = platform_row(alloc, name, input) {
        return Some(output);
    }
    if let Some(output) = lenient_row(alloc, tries, name, input) {
        return Some(output);
    }
    if let Some(output) = lenient_json_row(alloc, name, input) {
        return Some(output);
    }
    if let Some(output) = extensions_row(alloc, tries, name, input) {
        return Some(output);
    }
    let (way, kind) = way_of(name);
    let kind = Kind::from_name(kind)?;
    Some(message_row(alloc, tries, way, kind, input))
}
