//! Members of authenticatorGetInfo responses that the port's kind doesn't have.

use passkey_cbor::Value;
use passkey_explain::{Description, FieldName};
use passkey_memory::OutOfMemory;
use passkey_rewrite::BytesKind;
use passkey_webauthn::EnumNames;
use std::alloc::Global;

/// Returns the number of an unknown member that `info-23` has (CTAP 2.3, section 6.4).
fn newer_number(name: &FieldName) -> Option<i128> {
    match name {
        FieldName::Unknown(Value::Integer(n)) => match n.get() {
            number @ (0x07 | 0x08 | 0x1E | 0x1F) => Some(number),
            _ => None,
        },
        _ => None,
    }
}

/// Returns a line that names the members which `info`, if this is the report's title, doesn't have and
/// `info-23` has, or no text.
pub fn newer_members_text(
    alloc: Global,
    title: &str,
    description: &Description,
) -> Result<String, OutOfMemory> {
    let mut text = String::new(alloc);
    let Description::Record(fields) = description else {
        return Ok(text);
    };
    if title != BytesKind::Info.name() {
        return Ok(text);
    }
    for (name, _) in fields {
        if let Some(number) = newer_number(name) {
            text.push_str(if text.is_empty() {
                "info-23 has members that info hasn't: "
            } else {
                ", "
            })?;
            text.push_str(format!(in alloc; "{number}")?.as_str())?;
        }
    }
    if !text.is_empty() {
        text.push('\n')?;
    }
    Ok(text)
}
