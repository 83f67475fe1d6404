//! Diagnostic notation (RFC 8949, section 8), where bytes aren't well-formed (section 3), and CTAP2's
//! canonical form (CTAP 2.2, section 8).
use crate::hexadecimal::{decode, encode, item_of};
use passkey_rewrite::RunFault;
use passkey_types::ctap2::explain::{
    CTAP2_DEPTH, Malformed, NotCanonical, malformed, not_canonical,
};
use passkey_types::ctap2::registered::canonical_vec;
use passkey_types::diagnose::{
    diagnose, diagnose_bytes, diagnose_bytes_indented, diagnose_indented,
};
use std::alloc::Global;

/// Returns the lines as one, each but the last with `\n` after it.
fn in_one_line(alloc: Global, text: &str) -> Result<String, RunFault> {
    let mut out = String::new(alloc);
    for (number, line) in text.split('\n').enumerate() {
        let separator = if number > 0 { "\\n" } else { "" };
        out.push_str(separator)?;
        out.push_str(line)?;
    }
    Ok(out)
}

/// `BYTES`: the leading data item in diagnostic notation, in a line or in several.
fn item(alloc: Global, is_indented: bool, input: &str) -> Result<String, RunFault> {
    let value = item_of(alloc, input)?;
    let text = if is_indented {
        diagnose_indented(alloc, &value)
    } else {
        diagnose(alloc, &value)
    };
    drop(value);
    in_one_line(alloc, text?.as_str())
}

/// `BYTES`: the same with how each item is encoded; `none` if no data item is there.
fn encodings(alloc: Global, is_indented: bool, input: &str) -> Result<String, RunFault> {
    let bytes = decode(alloc, input)?;
    let text = if is_indented {
        diagnose_bytes_indented(alloc, &bytes)?
    } else {
        diagnose_bytes(alloc, &bytes)?
    };
    match text {
        Some(text) => in_one_line(alloc, text.as_str()),
        None => Ok(String::from_str(alloc, "none")?),
    }
}

/// `BYTES`: the offset from which they don't begin a well-formed data item, and the reason; `none` if
/// they do.
fn ill_formed(alloc: Global, input: &str) -> Result<String, RunFault> {
    let bytes = decode(alloc, input)?;
    let Some(Malformed { offset, why }) = malformed(&bytes) else {
        return Ok(String::from_str(alloc, "none")?);
    };
    Ok(format!(in alloc; "{offset} {why:?}")?)
}

/// `BYTES`: the offset at which they aren't in CTAP2's canonical form, and the rule that they break there;
/// `none` if they are.
fn breach(alloc: Global, input: &str) -> Result<String, RunFault> {
    let bytes = decode(alloc, input)?;
    let Some(NotCanonical { offset, rule }) = not_canonical(&bytes, CTAP2_DEPTH) else {
        return Ok(String::from_str(alloc, "none")?);
    };
    Ok(format!(in alloc; "{offset} {rule:?}")?)
}

/// `BYTES`: the leading data item, encoded in CTAP2's canonical form.
fn in_order(alloc: Global, input: &str) -> Result<String, RunFault> {
    let value = item_of(alloc, input)?;
    let encoding = canonical_vec(alloc, &value);
    drop(value);
    encode(alloc, &encoding?)
}

/// Returns the output of a row of such a kind. Returns `None` if it isn't a row of such a kind.
pub fn notation_row(alloc: Global, name: &str, input: &str) -> Option<Result<String, RunFault>> {
    match name {
        "diag" => Some(item(alloc, false, input)),
        "diag-lines" => Some(item(alloc, true, input)),
        "diag-bytes" => Some(encodings(alloc, false, input)),
        "diag-bytes-lines" => Some(encodings(alloc, true, input)),
        "malformed" => Some(ill_formed(alloc, input)),
        "not-canonical" => Some(breach(alloc, input)),
        "canonical" => Some(in_order(alloc, input)),
        _ => None,
    }
}
