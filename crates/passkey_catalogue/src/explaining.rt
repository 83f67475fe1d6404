//! Why JSON values aren't decoded as their kinds.
ghost use Rattle.std.specs.Prelude.{IfOk};
ghost use Rattle.passkey_catalogue.specs.Explaining.{ExplainsAs};
ghost use Rattle.passkey_catalogue.specs.JsonTexts.{any_json_definition};
ghost use Rattle.passkey_json.specs.Fault.{IsFaultOf};
ghost use Rattle.passkey_rewrite.specs.RewritesJson.{object_in};
ghost use Rattle.passkey_webauthn_json.specs.client_data.ClientData.{client_data};
ghost use Rattle.serde_json.specs.View.{view};

use crate::any_json_kind::AnyJsonKind;
use crate::visiting::visit_json;
use passkey_bytes::Text;
use passkey_explain_json::{JsonExplanation, explain_client_data, explain_json};
use passkey_json::{
    FromJson, JsonBlame, JsonFault, JsonReason, JsonStep, PlainJsonRecord, ToJson, WantedJson,
    holds_float,
};
use passkey_memory::OutOfMemory;
use passkey_rewrite::{JsonVisitor, object_from};
use passkey_webauthn_json::client_data::{ClientDataExtra, CollectedClientData};
use serde_json::{Map, Value};
use std::alloc::Global;

/// Why a JSON value isn't decoded as its kind.
#[derive(Debug, Drop)]
pub struct RefusedJson {
    /// The fault with which it isn't decoded.
    pub fault: JsonFault,
    /// What in the value is to blame. `None` if it is a member of client data that the fault names and
    /// that not all client data has, such as `topOrigin`.
    pub blame: Option<JsonBlame>,
}

/// Returns the fault with which client data isn't decoded, if there is one.
fn client_data_fault<E: ClientDataExtra>(
    alloc: Global,
    value: &Value,
) -> Result<Option<JsonFault>, OutOfMemory>
    ensures { IfOk result (IsFaultOf (client_data E.has E.reads (view value.now))) }
{
    match CollectedClientData::<E>::from_json(alloc, value) {
        Ok(_) => Ok(None),
        Err(JsonFault::OutOfMemory) => Err(OutOfMemory),
        Err(fault) => Ok(Some(fault)),
    }
}

/// Returns the name of the first member that `E` knows and that contains a float.
fn known_float<E: ClientDataExtra>(members: &Map<String, Value>) -> Option<&str> {
    for (name, member) in members.iter() {
        if E::is_member(name.as_str()) && holds_float(member) {
            return Some(name.as_str());
        }
    }
    None
}

fn blame_known_float<E: ClientDataExtra>(
    alloc: Global,
    value: &Value,
) -> Result<Option<JsonBlame>, OutOfMemory> {
    let Value::Object(members) = value else {
        return Ok(None);
    };
    let Some(name) = known_float::<E>(members) else {
        return Ok(None);
    };
    let mut path = Vec::new(alloc);
    path.push(JsonStep::Named(Text::from_str(alloc, name)?))?;
    let reason = JsonReason::Wanted(WantedJson::NoFloat);
    Ok(Some(JsonBlame { path, reason }))
}

/// Returns what is blamed, if it is for this fault.
fn blame_for(fault: JsonFault, explanation: Option<JsonExplanation>) -> Option<JsonBlame> {
    let explanation = explanation?;
    if explanation.fault == fault {
        Some(explanation.blame)
    } else {
        None
    }
}

/// Returns what is to blame for this fault in client data. Of what `E` knows it is only a float.
fn blame_client_data<E: ClientDataExtra>(
    alloc: Global,
    fault: JsonFault,
    value: &Value,
) -> Result<Option<JsonBlame>, OutOfMemory> {
    if fault == JsonFault::Float("extra_data") {
        return blame_known_float::<E>(alloc, value);
    }
    Ok(blame_for(fault, explain_client_data(alloc, value)?))
}

/// Returns the fault with which an object of this type isn't decoded, if there is one.
fn object_fault<T: FromJson>(
    alloc: Global,
    name: &'static str,
    value: &Value,
) -> Result<Option<JsonFault>, OutOfMemory>
    ensures { IfOk result (IsFaultOf (object_in T.kind name.now (view value.now))) }
{
    match object_from::<T>(alloc, name, value) {
        Ok(_) => Ok(None),
        Err(JsonFault::OutOfMemory) => Err(OutOfMemory),
        Err(fault) => Ok(Some(fault)),
    }
}

/// A JSON value is explained.
#[derive(Drop)]
struct Explaining<'a> {
    alloc: Global,
    value: &'a Value,
}

impl<'a> JsonVisitor for Explaining<'a> {
    type Output = Result<Option<RefusedJson>, OutOfMemory>;

    ghost Gives = { λ v d result. IfOk result (ExplainsAs d (view v.value.now)) };

    fn visit_record<R: PlainJsonRecord>(self) -> Result<Option<RefusedJson>, OutOfMemory> {
        let Some(explanation) = explain_json::<R>(self.alloc, self.value)? else {
            return Ok(None);
        };
        Ok(Some(RefusedJson {
            fault: explanation.fault,
            blame: Some(explanation.blame),
        }))
    }

    fn visit_client_data<E: ClientDataExtra>(self) -> Result<Option<RefusedJson>, OutOfMemory> {
        let Some(fault) = client_data_fault::<E>(self.alloc, self.value)? else {
            return Ok(None);
        };
        let blame = blame_client_data::<E>(self.alloc, fault, self.value)?;
        Ok(Some(RefusedJson { fault, blame }))
    }

    fn visit_object<T: ToJson>(
        self,
        name: &'static str,
    ) -> Result<Option<RefusedJson>, OutOfMemory> {
        let Some(fault) = object_fault::<T>(self.alloc, name, self.value)? else {
            return Ok(None);
        };
        let blame = Some(T::blame(self.alloc, self.value)?);
        Ok(Some(RefusedJson { fault, blame }))
    }
}

/// Explains why the JSON value isn't decoded as this kind: with which fault, and what in the value is
/// to blame. Returns `None` exactly if it is decoded, and `OutOfMemory` if an allocation fails.
pub fn explain_json_as(
    alloc: Global,
    kind: AnyJsonKind,
    value: &Value,
) -> Result<Option<RefusedJson>, OutOfMemory>
    ensures { IfOk result (ExplainsAs (any_json_definition kind) (view value.now)) }
{
    visit_json(kind, Explaining { alloc, value })
}
