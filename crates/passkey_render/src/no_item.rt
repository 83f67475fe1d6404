//! Why a JSON value is no data item, as a person reads it.
ghost use Rattle.std.specs.Prelude.{◌≡◌, IfOk, Some, option_and_then, option_map, string_bytes};
ghost use Rattle.json.specs.Value.{value_view};
ghost use Rattle.passkey_cbor_text.specs.values.NoItem.{no_item_of};
ghost use Rattle.passkey_render.specs.NoItemText.{name_at, no_item_text, reason_text, said_of, value_at, with_step};

use json::Value as Json;
use passkey_cbor_text::values::{ItemReason, NoItem};
use passkey_memory::OutOfMemory;
use std::alloc::Global;

fn reason_text(reason: ItemReason) -> &'static str
    ensures { result.now ≡ reason_text reason }
{
    match reason {
        ItemReason::Integer => {
            "an integer from -18446744073709551616 to 18446744073709551615 is wanted"
        }
        ItemReason::Bytes => "bytes in base64url are wanted",
        ItemReason::Encoding => "one data item in hexadecimal is wanted",
        ItemReason::Pairs => "an array of arrays of a key and a value is wanted",
        ItemReason::String => "a string is wanted",
        ItemReason::Repeated => "an earlier member has this key",
        ItemReason::DataParts => {
            "rpIdHash, flags and signCount are wanted, attestedCredentialData if AT is set, extensions if ED is, and no others"
        }
        ItemReason::AttestedParts => {
            "aaguid, credentialId and credentialPublicKey are wanted, and no others"
        }
        ItemReason::Hash => "32 bytes in base64url are wanted",
        ItemReason::Aaguid => "16 bytes are wanted, as a UUID or in base64url",
        ItemReason::CredentialId => "at most 65535 bytes in base64url are wanted",
        ItemReason::Flags => "an array of names of flags is wanted, or an integer from 0 to 255",
        ItemReason::Flag => "one of UP, UV, BE, BS, AT and ED is wanted",
        ItemReason::Counter => "an integer from 0 to 4294967295 is wanted",
    }
}

/// Returns the name of the member at this index of an object.
fn name_in<'v>(json: &'v Json<'_>, index: usize) -> Option<&'v str>
    ensures { option_map (λ s. s.now) result ≡ name_at index (value_view json.now) }
{
    if let Json::Object(all) = json {
        return match all.get(index) {
            Some(member) => Some(member.0),
            None => None,
        };
    }
    None
}

/// Returns the element, or the member's value, at this index.
fn value_in<'v, 'a>(json: &'v Json<'a>, index: usize) -> Option<&'v Json<'a>>
    ensures { option_map (λ v. value_view v.now) result ≡ value_at index (value_view json.now) }
{
    if let Json::Array(all) = json {
        return all.get(index);
    }
    if let Json::Object(all) = json {
        return match all.get(index) {
            Some(member) => Some(&member.1),
            None => None,
        };
    }
    None
}

/// Returns the name of the member at this index of what is here, if that is an object.
fn name_at<'v>(here: Option<&'v Json<'_>>, index: usize) -> Option<&'v str>
    ensures { option_map (λ s. s.now) result
        ≡ option_and_then (name_at index) (option_map (λ j. value_view j.now) here.entry) }
{
    match here {
        Some(json) => name_in(json, index),
        None => None,
    }
}

/// Returns the element, or the member's value, at this index of what is here.
fn value_at<'v, 'a>(here: Option<&'v Json<'a>>, index: usize) -> Option<&'v Json<'a>>
    ensures { option_map (λ v. value_view v.now) result
        ≡ option_and_then (value_at index) (option_map (λ j. value_view j.now) here.entry) }
{
    match here {
        Some(json) => value_in(json, index),
        None => None,
    }
}

/// Appends the step to the member of this name, after a point unless it is the first; or to what is at this
/// index, as `[1]`.
fn push_step(
    out: &mut String,
    alloc: Global,
    name: Option<&str>,
    index: usize,
) -> Result<(), OutOfMemory>
    ensures { IfOk result (λ _. string_bytes out.new
        ≡ with_step (string_bytes out.old) (option_map (λ s. s.now) name.entry) index) }
{
    match name {
        Some(name) => {
            if !out.as_str().is_empty() {
                out.push('.')?;
            }
            Ok(out.push_str(name)?)
        }
        None => Ok(out.push_str(format!(in alloc; "[{index}]")?.as_str())?),
    }
}

/// Returns the path, if there is one, before what is said of what is there.
fn said_of(mut path: String, text: &str) -> Result<String, OutOfMemory>
    ensures { IfOk result (λ line. string_bytes line ≡ said_of (string_bytes path) text.now) }
{
    if !path.as_str().is_empty() {
        path.push_str(": ")?;
    }
    path.push_str(text)?;
    Ok(path)
}

/// Returns where the JSON value is no data item, and what is wanted there, as "user.icon: bytes in base64url
/// are wanted". Returns `OutOfMemory` if an allocation fails.
pub fn no_item_text(alloc: Global, json: &Json<'_>, found: &NoItem) -> Result<String, OutOfMemory>
    ensures { IfOk result
        (λ text. string_bytes text ≡ no_item_text (value_view json.now) (no_item_of found.now)) }
{
    let mut text = String::new(alloc);
    let mut here = Some(json);
    let mut path = found.path.as_slice();
    while let Some((index, rest)) = path.split_last() {
        push_step(&mut text, alloc, name_at(here, *index), *index)?;
        here = value_at(here, *index);
        path = rest;
    }
    said_of(text, reason_text(found.reason))
}
