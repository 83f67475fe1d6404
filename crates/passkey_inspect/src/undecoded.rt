//! What is refused in what an accepted input keeps undecoded: in the attestation statement of a
//! response, and in the structures of a TPM.

use crate::kind::InspectKind;
use crate::refusal::{content_at, moved_extent, statement_line};
use passkey_attestation::AttestationFormat;
use passkey_catalogue::CtapKind;
use passkey_cbor::{CborError, Value};
use passkey_explain::{Extent, Step, locate};
use passkey_explain_data::{
    StatementBlame, StatementExplanation, StatementRefusal, explain_statement,
};
use passkey_memory::OutOfMemory;
use passkey_rewrite::BytesKind;
use passkey_tpm::{TpmRefusal, explain_cert_info, explain_pub_area};
use passkey_webauthn::EnumNames;
use std::alloc::Global;

/// Returns whether the key names the member with this name, and number, if it has one.
fn is_key(key: &Value, number: Option<u8>, name: &str) -> bool {
    match (key, number) {
        (Value::Text(text), _) => text.as_str() == name,
        (Value::Integer(n), Some(number)) => n.get() == i128::from(number),
        _ => false,
    }
}

/// Returns the member's value, and its place in the map.
fn member_in<'a>(
    map: &'a Value,
    number: Option<u8>,
    name: &'static str,
) -> Option<(Step, &'a Value)> {
    let Value::Map(pairs) = map else {
        return None;
    };
    for (index, (key, value)) in pairs.iter().enumerate() {
        if is_key(key, number, name) {
            return Some((Step::Member(index, number.unwrap_or(0), name), value));
        }
    }
    None
}

/// Returns a line about what is refused of the structure that is this far from the beginning.
fn structure_text(
    alloc: Global,
    path: &str,
    offset: usize,
    refusal: Option<TpmRefusal>,
) -> Result<String, OutOfMemory> {
    match refusal {
        Some(refusal) => {
            let refusal = TpmRefusal {
                offset: refusal.offset.saturating_add(offset),
                ..refusal
            };
            Ok(format!(in alloc; "undecoded: {path}.{refusal}\n")?)
        }
        None => Ok(String::new(alloc)),
    }
}

/// Returns the content of a member that is a byte string of the map that begins the bytes, and its
/// offset.
fn content_of<'a>(bytes: &'a [u8], map: &Value, name: &'static str) -> Option<(usize, &'a [u8])> {
    let (step, _) = member_in(map, None, name)?;
    content_at(bytes, locate(bytes, &[step])?)
}

/// Returns a line for each structure in the tpm statement that begins the bytes, if it is refused.
fn structures_text(
    alloc: Global,
    before: &str,
    offset: usize,
    bytes: &[u8],
    statement: &Value,
) -> Result<String, OutOfMemory> {
    let mut text = String::new(alloc);
    if let Some((place, content)) = content_of(bytes, statement, "pubArea") {
        let path = format!(in alloc; "{before}pubArea")?;
        let place = place.saturating_add(offset);
        let line = structure_text(alloc, path.as_str(), place, explain_pub_area(content))?;
        text.push_str(line.as_str())?;
    }
    if let Some((place, content)) = content_of(bytes, statement, "certInfo") {
        let path = format!(in alloc; "{before}certInfo")?;
        let place = place.saturating_add(offset);
        let line = structure_text(alloc, path.as_str(), place, explain_cert_info(content))?;
        text.push_str(line.as_str())?;
    }
    Ok(text)
}

/// Returns what stands between a member's name and the text about what in it is to blame.
fn joint(blame: &StatementBlame) -> &'static str {
    match blame {
        StatementBlame::Item(blame) => match blame.path.first() {
            Some(Step::Member(..)) => ".",
            Some(_) => "",
            None => ": ",
        },
        _ => ": ",
    }
}

/// Returns a line about what is refused of `attStmt`, which is this far from the beginning.
fn refused_text(
    alloc: Global,
    format: AttestationFormat,
    offset: usize,
    refusal: StatementRefusal,
) -> Result<String, OutOfMemory> {
    let refusal = StatementRefusal {
        fault: refusal.fault,
        blame: refusal.blame,
        extent: moved_extent(refusal.extent, offset),
    };
    let joint = joint(&refusal.blame);
    let line = statement_line(alloc, format, &refusal)?;
    Ok(format!(in alloc; "undecoded: attStmt{joint}{line}\n")?)
}

/// Returns lines about what is refused in `attStmt`, the data item that begins the bytes.
fn statement_text(
    alloc: Global,
    format: AttestationFormat,
    offset: usize,
    bytes: &[u8],
    statement: &Value,
) -> Result<String, OutOfMemory> {
    match explain_statement(alloc, format, bytes)? {
        Some(StatementExplanation::Refused(refusal)) => {
            refused_text(alloc, format, offset, refusal)
        }
        None if format == AttestationFormat::Tpm => {
            structures_text(alloc, "attStmt.", offset, bytes, statement)
        }
        _ => Ok(String::new(alloc)),
    }
}

/// Returns the format that the response names, if it is a known one.
fn format_in(response: &Value) -> Option<AttestationFormat> {
    match member_in(response, Some(1), "fmt") {
        Some((_, Value::Text(name))) => AttestationFormat::from_name(name.as_str()),
        _ => None,
    }
}

/// Returns the place of `attStmt` in the response that begins the bytes, its bytes and its value.
fn statement_in<'a>(bytes: &'a [u8], response: &'a Value) -> Option<(Extent, &'a [u8], &'a Value)> {
    let (step, statement) = member_in(response, Some(3), "attStmt")?;
    let extent = locate(bytes, &[step])?;
    let part = bytes.get(extent.offset..extent.offset.saturating_add(extent.len))?;
    Some((extent, part, statement))
}

/// Returns lines about what is refused in the attestation statement of a response, if its format is
/// known.
fn response_text(alloc: Global, bytes: &[u8], response: &Value) -> Result<String, OutOfMemory> {
    match (format_in(response), statement_in(bytes, response)) {
        (Some(format), Some((extent, part, statement))) => {
            statement_text(alloc, format, extent.offset, part, statement)
        }
        _ => Ok(String::new(alloc)),
    }
}

/// Returns lines about what is refused in what an input of this kind keeps undecoded: the attestation
/// statement of a response, and the structures of a TPM (WebAuthn Level 3, section 8).
pub fn undecoded_text(
    alloc: Global,
    kind: InspectKind,
    bytes: &[u8],
) -> Result<String, OutOfMemory> {
    let is_response = kind == InspectKind::Bytes(BytesKind::MakeResponse);
    if !is_response && kind != InspectKind::Ctap(CtapKind::TpmStatement) {
        return Ok(String::new(alloc));
    }
    let value = match Value::from_slice(alloc, bytes) {
        Ok((value, _)) => value,
        Err(CborError::OutOfMemory) => return Err(OutOfMemory),
        Err(_) => return Ok(String::new(alloc)),
    };
    let text = if is_response {
        response_text(alloc, bytes, &value)
    } else {
        structures_text(alloc, "", 0, bytes, &value)
    };
    drop(value);
    text
}
