//! Client data, encoded as JSON text.
ghost use Rattle.std.specs.Prelude.{◌≡◌, ◌++◌, false, IfOk, OnOk, ⊤};
ghost use Rattle.std.specs.List.{list_all};
ghost use Rattle.std.specs.String.{string_bytes};
ghost use Rattle.passkey_webauthn_json.specs.client_data.ClientData.{held};
ghost use Rattle.passkey_webauthn_json.specs.client_data.ClientDataText.{client_data_text, fixed_text, is_plain, later_text, member_text, name_text};
ghost use Rattle.passkey_json.specs.Fault.{Gives};
ghost use Rattle.serde_json.specs.Data.{boolean, string};
ghost use Rattle.serde_json.specs.View.{view, members_view};
ghost use Rattle.serde_json.specs.Written.{has_float, members_have_float, compact_text};

use crate::client_data::client_data::CollectedClientData;
use crate::client_data::extra_data::ClientDataExtra;
use indexmap::IndexMap;
use passkey_bytes::Text;
use passkey_json::{JsonFault, holds_float};
use passkey_memory::OutOfMemory;
use passkey_webauthn::EnumNames;
use serde_json::Value;
use std::alloc::Global;

fn extra_holds_float(members: &[(String, Value)]) -> bool
    ensures { result ≡ members_have_float (members_view members.now) }
{
    for (_name, value) in members {
        if holds_float(value) {
            return true;
        }
    }
    false
}

fn unknown_holds_float(members: &IndexMap<String, Value>) -> bool
    ensures { result ≡ members_have_float (members_view members.now.entries) }
{
    for (_name, value) in members.iter() {
        if holds_float(value) {
            return true;
        }
    }
    false
}

/// Appends a value.
fn put_value(alloc: Global, text: &mut String, value: &Value) -> Result<(), OutOfMemory>
    ensures { has_float (view value.now) ≡ false
        → OnOk result (string_bytes text.new ≡ string_bytes text.old ++ compact_text (view value.now)) }
{
    let value = value.to_string(alloc)?;
    text.push_str(value.as_str())?;
    Ok(())
}

/// Returns whether a JSON string has the text as it is, without an escape (RFC 8259, section 7).
pub(crate) fn is_plain(text: &str) -> bool
    ensures { result ≡ list_all is_plain text.now }
{
    for byte in text.as_bytes() {
        if *byte < 32 || *byte == 34 || *byte == 92 {
            return false;
        }
    }
    true
}

/// Appends a text value.
fn put_string(alloc: Global, text: &mut String, value: &str) -> Result<(), OutOfMemory>
    ensures { OnOk result (string_bytes text.new ≡ string_bytes text.old ++ compact_text (string value.now)) }
{
    if !is_plain(value) {
        return put_value(alloc, text, &Value::try_from_str(alloc, value)?);
    }
    text.push_str("\"")?;
    text.push_str(value)?;
    text.push_str("\"")?;
    Ok(())
}

/// Appends a member's name, after another member.
fn put_name(alloc: Global, text: &mut String, name: &str) -> Result<(), OutOfMemory>
    ensures { OnOk result (string_bytes text.new ≡ string_bytes text.old ++ name_text name.now) }
{
    text.push_str(",")?;
    put_string(alloc, text, name)?;
    text.push_str(":")?;
    Ok(())
}

/// Appends a member.
fn put_member(
    alloc: Global,
    text: &mut String,
    name: &str,
    value: &Value,
) -> Result<(), OutOfMemory>
    ensures { has_float (view value.now) ≡ false
        → OnOk result (string_bytes text.new ≡ string_bytes text.old ++ member_text name.now (view value.now)) }
{
    put_name(alloc, text, name)?;
    put_value(alloc, text, value)
}

fn truth_text(truth: bool) -> &'static str
    ensures { result.now ≡ compact_text (boolean truth) }
{
    if truth { "true" } else { "false" }
}

fn put_extra(
    alloc: Global,
    text: &mut String,
    members: &[(String, Value)],
) -> Result<(), OutOfMemory>
    ensures { members_have_float (members_view members.now) ≡ false
        → OnOk result (string_bytes text.new ≡ string_bytes text.old ++ later_text (members_view members.now)) }
{
    for (name, value) in members {
        put_member(alloc, text, name.as_str(), value)?;
    }
    Ok(())
}

fn put_unknown(
    alloc: Global,
    text: &mut String,
    members: &IndexMap<String, Value>,
) -> Result<(), OutOfMemory>
    ensures { members_have_float (members_view members.now.entries) ≡ false → OnOk result
        (string_bytes text.new ≡ string_bytes text.old ++ later_text (members_view members.now.entries)) }
{
    for (name, value) in members.iter() {
        put_member(alloc, text, name.as_str(), value)?;
    }
    Ok(())
}

impl<E: ClientDataExtra> CollectedClientData<E> {
    /// Returns the text of the members that all client data has.
    fn fixed_text(&self, alloc: Global) -> Result<String, OutOfMemory>
        ensures { IfOk result (λ text. string_bytes text ≡ fixed_text (held self.now)) }
    {
        let mut text = String::from_str(alloc, "{\"type\":")?;
        put_string(alloc, &mut text, self.ty.name())?;
        put_name(alloc, &mut text, "challenge")?;
        put_string(alloc, &mut text, self.challenge.as_str())?;
        put_name(alloc, &mut text, "origin")?;
        put_string(alloc, &mut text, self.origin.as_str())?;
        put_name(alloc, &mut text, "crossOrigin")?;
        text.push_str(truth_text(self.cross_origin.unwrap_or(false)))?;
        Ok(text)
    }

    /// Encodes the client data as JSON text without white space: first `type`, `challenge`,
    /// `origin` and `crossOrigin` (false if it is absent), in this order (WebAuthn Level 3, section
    /// 5.8.1.1), then the members of `extra_data`, then `unknown_keys`.
    ///
    /// Returns `Float("extra_data")` if a member of `extra_data` contains a float, else
    /// `Float("unknown_keys")` if one of `unknown_keys` does. Returns `OutOfMemory` if an
    /// allocation fails.
    ///
    /// The members of an object inside a member are ordered by name, and decoding orders
    /// `unknown_keys` by name, too. So if client data is decoded and encoded again, its hash may
    /// differ from the one that the authenticator signed: keep the bytes that were received, and
    /// verify the signature over those.
    #[tactic(auto, unfolding(crate::specs::client_data::ClientDataText::client_data_text))]
    pub fn to_text(&self, alloc: Global) -> Result<Text, JsonFault>
        ensures { Gives ⊤ (client_data_text E.written (held self.now)) result }
    {
        let extra = self.extra_data.members(alloc)?;
        if extra_holds_float(&extra) {
            return Err(JsonFault::Float("extra_data"));
        }
        if unknown_holds_float(&self.unknown_keys) {
            return Err(JsonFault::Float("unknown_keys"));
        }
        let mut text = self.fixed_text(alloc)?;
        put_extra(alloc, &mut text, &extra)?;
        put_unknown(alloc, &mut text, &self.unknown_keys)?;
        text.push_str("}")?;
        Ok(Text::from(text))
    }
}
