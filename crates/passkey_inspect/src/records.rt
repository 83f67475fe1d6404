//! JSON texts, and what is in their byte strings.
ghost use Rattle.std.specs.Prelude.{◌≡◌, ◌++◌, ◌∷◌, [], IfOk, None, string_bytes};
ghost use Rattle.passkey_inspect.specs.Prints.{PrintsRecord, PrintsRecordAs, RewritesText, visible};

use crate::examine::{Examined, examine};
use crate::fault::InspectFault;
use crate::inspect::{push_names, push_report, with_line_feed};
use crate::kind::{FOUND_JSON_KINDS, InspectKind, name_of};
use crate::options::{Options, Output};
use crate::values::values_text;
use passkey_bytes::{Bytes, BytesFault};
use passkey_catalogue::{RefusedJson, dropped_json_as, explain_json_as, rewrite_json};
use passkey_cbor_text::diagnose::escape_controls;
use passkey_memory::OutOfMemory;
use passkey_rewrite::{BytesKind, JsonKind, RunFault, parse_json};
use serde_json::Value;
use std::alloc::Global;

/// Appends a JSON value, one member a line.
fn push_value(
    out: &mut String,
    alloc: Global,
    title: &str,
    value: &Value,
) -> Result<(), OutOfMemory> {
    let text = value.to_string_pretty(alloc)?;
    out.push_str(title)?;
    out.push_str(": ")?;
    out.push_str(escape_controls(alloc, text.as_str())?.as_str())?;
    Ok(out.push('\n')?)
}

/// Returns the bytes that a member's text spells in base64url.
fn bytes_at(alloc: Global, value: &Value, path: &str) -> Result<Option<Bytes>, OutOfMemory> {
    let Some(text) = value.pointer(path).and_then(|found| found.as_str()) else {
        return Ok(None);
    };
    match Bytes::try_from(alloc, text) {
        Ok(bytes) => Ok(Some(bytes)),
        Err(BytesFault::OutOfMemory) => Err(OutOfMemory),
        Err(_) => Ok(None),
    }
}

/// Appends what is in the bytes of a member, if it is there and the kind accepts it.
fn push_bytes(
    out: &mut String,
    alloc: Global,
    value: &Value,
    path: &str,
    kind: BytesKind,
) -> Result<(), OutOfMemory> {
    let Some(bytes) = bytes_at(alloc, value, path)? else {
        return Ok(());
    };
    match examine(alloc, InspectKind::Bytes(kind), bytes.as_slice())? {
        Examined::Accepted(contents) => {
            let title = path.rsplit('/').next().unwrap_or(path);
            let pushed = push_report(out, alloc, title, &contents);
            drop(contents);
            pushed
        }
        Examined::Refused(_, _) => Ok(()),
    }
}

/// Appends the collected client data of a credential, if they are a JSON text.
fn push_client_data(out: &mut String, alloc: Global, value: &Value) -> Result<(), OutOfMemory> {
    let Some(bytes) = bytes_at(alloc, value, "/response/clientDataJSON")? else {
        return Ok(());
    };
    match parse_json(alloc, bytes.as_slice()) {
        Ok(client_data) => {
            let pushed = push_value(out, alloc, "clientDataJSON", &client_data);
            drop(client_data);
            pushed
        }
        Err(RunFault::OutOfMemory) => Err(OutOfMemory),
        Err(_) => Ok(()),
    }
}

/// Returns a line for each value that the kind leaves out of the JSON value, if it is one of JSON.
fn left_out(alloc: Global, kind: InspectKind, value: &Value) -> Result<String, OutOfMemory> {
    let mut out = String::new(alloc);
    let Some(kind) = kind.as_json() else {
        return Ok(out);
    };
    let dropped = dropped_json_as(alloc, kind, value)?;
    for item in &dropped {
        let line = format!(in alloc; "left out: {item}")?;
        out.push_str(escape_controls(alloc, line.as_str())?.as_str())?;
        out.push('\n')?;
    }
    Ok(out)
}

/// Appends the JSON value, what is left out of it, and what is in a credential's byte strings.
fn push_record(
    out: &mut String,
    alloc: Global,
    kind: InspectKind,
    value: &Value,
) -> Result<(), OutOfMemory> {
    push_value(out, alloc, name_of(kind), value)?;
    out.push_str(left_out(alloc, kind, value)?.as_str())?;
    if let InspectKind::Json(JsonKind::Created | JsonKind::Authenticated) = kind {
        push_client_data(out, alloc, value)?;
        let object = "/response/attestationObject";
        push_bytes(out, alloc, value, object, BytesKind::MakeResponse)?;
        let data = "/response/authenticatorData";
        push_bytes(out, alloc, value, data, BytesKind::Auth)?;
    }
    Ok(())
}

/// Returns a report: the JSON value, and what is in a credential's byte strings.
fn report(
    alloc: Global,
    kind: InspectKind,
    names: &[&'static str],
    input: &[u8],
) -> Result<String, InspectFault> {
    let len = input.len();
    let mut text = format!(in alloc; "input: JSON, {len} bytes\n")?;
    if !names.is_empty() {
        push_names(&mut text, names)?;
    }
    let value = parse_json(alloc, input)?;
    let pushed = push_record(&mut text, alloc, kind, &value);
    drop(value);
    pushed?;
    Ok(text)
}

/// Returns a line feed, and what in the value is blamed; or no text if nothing is.
fn blame_text(alloc: Global, refused: &RefusedJson) -> Result<String, OutOfMemory> {
    match &refused.blame {
        Some(blame) => Ok(format!(in alloc; "\n{blame}")?),
        None => Ok(String::new(alloc)),
    }
}

/// Returns a line feed, and what in the value the kind refuses; or no text if that isn't known, or if
/// the kind isn't one of JSON.
fn kind_blame(alloc: Global, kind: InspectKind, value: &Value) -> Result<String, OutOfMemory> {
    let Some(kind) = kind.as_json() else {
        return Ok(String::new(alloc));
    };
    match explain_json_as(alloc, kind, value)? {
        Some(refused) => {
            let text = blame_text(alloc, &refused);
            drop(refused);
            text
        }
        None => Ok(String::new(alloc)),
    }
}

/// Returns the fault with which the kind refuses the input, and what in it is refused.
fn refused(
    alloc: Global,
    kind: InspectKind,
    fault: RunFault,
    input: &[u8],
) -> Result<InspectFault, InspectFault> {
    match fault {
        RunFault::JsonRefused(fault) => {
            let value = parse_json(alloc, input)?;
            let blame = kind_blame(alloc, kind, &value);
            drop(value);
            let blame = blame?;
            let text = format!(in alloc; "{fault}{blame}")?;
            let text = escape_controls(alloc, text.as_str())?;
            Ok(InspectFault::refused(alloc, name_of(kind), text.as_str())?)
        }
        fault => Ok(InspectFault::Run(fault)),
    }
}

/// Decodes the input as the kind and encodes it. Returns `BadHex` if the kind isn't one of JSON.
fn rewrite(alloc: Global, kind: InspectKind, input: &[u8]) -> Result<String, RunFault>
    ensures { IfOk result (λ text. RewritesText kind input.now (string_bytes text)) }
{
    match kind.as_json() {
        Some(kind) => rewrite_json(alloc, kind, input),
        None => Err(RunFault::BadHex),
    }
}

/// Returns the record that the input is decoded to as a line of JSON, of which a terminal takes nothing
/// as a command.
fn visible_record(alloc: Global, text: &str) -> Result<String, RunFault>
    ensures { IfOk result (λ line. string_bytes line ≡ visible text.now ++ 10 ∷ []) }
{
    with_line_feed(escape_controls(alloc, text)?)
}

/// Returns what is printed of the input as the kind, where these kinds accept it.
pub fn print_as(
    alloc: Global,
    output: Output,
    kind: InspectKind,
    names: &[&'static str],
    input: &[u8],
) -> Result<String, InspectFault>
    ensures { IfOk result (λ text. PrintsRecordAs output kind input.now (string_bytes text)) }
{
    let text = match rewrite(alloc, kind, input) {
        Ok(text) => text,
        Err(fault) => return Err(refused(alloc, kind, fault, input)?),
    };
    match output {
        Output::Report => report(alloc, kind, names, input),
        Output::Json => Ok(visible_record(alloc, text.as_str())?),
        Output::Values => values_text(alloc, kind, input),
        _ => Err(InspectFault::BytesOnly(output)),
    }
}

fn accepts(alloc: Global, kind: InspectKind, input: &[u8]) -> Result<bool, RunFault> {
    match rewrite(alloc, kind, input) {
        Ok(_) => Ok(true),
        Err(RunFault::OutOfMemory) => Err(RunFault::OutOfMemory),
        Err(_) => Ok(false),
    }
}

/// Returns the kind of which a member of the value tells.
fn told_kind(value: &Value) -> Option<InspectKind> {
    let kind = if value.pointer("/response/attestationObject").is_some() {
        JsonKind::Created
    } else if value.pointer("/response").is_some() {
        JsonKind::Authenticated
    } else if value.pointer("/publicKey/rp").is_some() {
        JsonKind::Creation
    } else if value.pointer("/publicKey").is_some() {
        JsonKind::Request
    } else {
        return None;
    };
    Some(InspectKind::Json(kind))
}

/// Adds the names of the kinds that accept the JSON text, and returns the kind of which its members
/// tell, or else the first of these, or else that of client data.
fn find_kind(
    alloc: Global,
    input: &[u8],
    names: &mut Vec<&'static str>,
) -> Result<InspectKind, RunFault> {
    let value = parse_json(alloc, input)?;
    let told = told_kind(&value);
    drop(value);
    let mut best = None;
    for kind in FOUND_JSON_KINDS {
        if accepts(alloc, kind, input)? {
            names.push(name_of(kind))?;
            best = best.or(Some(kind));
        }
    }
    let client_data = InspectKind::Json(JsonKind::ClientData);
    Ok(told.or(best).unwrap_or(client_data))
}

/// Returns what is printed of a JSON text as the kind that is found, or that kind's fault.
fn print_found(alloc: Global, output: Output, input: &[u8]) -> Result<String, InspectFault>
    ensures { IfOk result (λ text. PrintsRecord output None input.now (string_bytes text)) }
{
    let mut names = Vec::new(alloc);
    let kind = find_kind(alloc, input, &mut names)?;
    print_as(alloc, output, kind, names.as_slice(), input)
}

/// Returns what is printed of a JSON text: of the kind that was named, or of the one that is found.
pub fn print_record(
    alloc: Global,
    options: &Options<'_>,
    input: &[u8],
) -> Result<String, InspectFault>
    ensures { IfOk result
        (λ text. PrintsRecord options.now.output options.now.kind input.now (string_bytes text)) }
{
    match options.kind {
        Some(kind) => print_as(alloc, options.output, kind, &[], input),
        None => print_found(alloc, options.output, input),
    }
}
