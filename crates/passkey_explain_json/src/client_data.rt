//! Why a JSON value isn't decoded as client data (WebAuthn Level 3, section 5.8.1).
ghost use Rattle.std.specs.Prelude.{◌≡◌, IfOk, None, option_map};
ghost use Rattle.passkey_explain_json.specs.ClientDataBlame.{ExplainsClientData, ExplainsUnknown, first_float};
ghost use Rattle.serde_json.specs.View.{members_view, view};

use crate::explanation::{JsonExplanation, explain_json};
use passkey_bytes::Text;
use passkey_json::{JsonBlame, JsonFault, JsonReason, JsonStep, WantedJson, holds_float};
use passkey_memory::OutOfMemory;
use passkey_webauthn_json::client_data::{FixedMembers, is_fixed};
use serde_json::{Map, Value};
use std::alloc::Global;

/// Returns the name of the first unknown member that contains a float.
fn unknown_float(members: &Map<String, Value>) -> Option<&str>
    ensures { option_map (λ name. name.now) result ≡ first_float (members_view members.now.entries) }
{
    for (name, value) in members.iter() {
        if !is_fixed(name.as_str()) && holds_float(value) {
            return Some(name.as_str());
        }
    }
    None
}

/// Explains a float in an unknown member, if there is one.
fn explain_unknown(alloc: Global, value: &Value) -> Result<Option<JsonExplanation>, OutOfMemory>
    ensures { IfOk result (ExplainsUnknown (view value.now)) }
{
    let Value::Object(members) = value else {
        return Ok(None);
    };
    let Some(name) = unknown_float(members) else {
        return Ok(None);
    };
    let mut path = Vec::new(alloc);
    path.push(JsonStep::Named(Text::from_str(alloc, name)?))?;
    let reason = JsonReason::Wanted(WantedJson::NoFloat);
    Ok(Some(JsonExplanation {
        fault: JsonFault::Float("unknown_keys"),
        blame: JsonBlame { path, reason },
    }))
}

/// Explains why client data isn't decoded from the JSON value. Returns `None` exactly if it is, as
/// by `CollectedClientData::<()>::from_json`, and `OutOfMemory` if an allocation fails. For a float
/// in an unknown member (`Float("unknown_keys")`), the first such member is to blame.
pub fn explain_client_data(
    alloc: Global,
    value: &Value,
) -> Result<Option<JsonExplanation>, OutOfMemory>
    ensures { IfOk result (ExplainsClientData (view value.now)) }
{
    match explain_json::<FixedMembers>(alloc, value)? {
        Some(explanation) => Ok(Some(explanation)),
        None => explain_unknown(alloc, value),
    }
}
