//! What a member with a deviation becomes.
ghost use Rattle.std.specs.Prelude.{◌≡◌, if◌then◌else◌, IfOk, None, Some, option_map};
ghost use Rattle.passkey_repair.specs.json.AttestationObjects.{registration_in, parts_of};
ghost use Rattle.passkey_repair.specs.json.Changes.{become, become_algorithm, become_auth_data, become_if, change_for, if_absent};
ghost use Rattle.passkey_repair.specs.json.Changes.{integer_for, is_absent_or_null, is_empty_array_member, is_null_member};
ghost use Rattle.passkey_repair.specs.json.Changes.{leave_out, no_text, without_unknown_in};
ghost use Rattle.passkey_repair.specs.json.Edits.{change_of};
ghost use Rattle.serde_json.specs.Data.{no_members, object};
ghost use Rattle.serde_json.specs.View.{view};

use crate::json::attestation_objects::{Registration, registration_in};
use crate::json::deviation::Deviation;
use crate::json::transports::{has_unknown_transport, known_transports};
use crate::json::whole_numbers::whole_number;
use passkey_json::{BytesForm, ToJson};
use passkey_memory::OutOfMemory;
use serde_json::{Map, Value};
use std::alloc::Global;

/// What a member becomes.
#[derive(Drop)]
pub(crate) enum NewMember {
    /// It is left out.
    LeaveOut,
    /// It has this value.
    Become(Value),
}

fn leave_out_if(condition: bool) -> Option<NewMember>
    ensures { option_map change_of result ≡ (if condition then Some leave_out else None) }
{
    if condition {
        Some(NewMember::LeaveOut)
    } else {
        None
    }
}

fn empty_text_if(alloc: Global, condition: bool) -> Option<NewMember>
    ensures { option_map change_of result ≡ become_if condition no_text }
{
    if condition {
        Some(NewMember::Become(Value::String(String::new(alloc))))
    } else {
        None
    }
}

fn empty_object_if(alloc: Global, condition: bool) -> Option<NewMember>
    ensures { option_map change_of result ≡ become_if condition (object no_members) }
{
    if condition {
        Some(NewMember::Become(Value::Object(Map::new(alloc))))
    } else {
        None
    }
}

fn is_null_member(member: Option<&Value>) -> bool
    ensures { result ≡ is_null_member (option_map (λ v. view v.now) member.entry) }
{
    match member {
        Some(value) => value.is_null(),
        None => false,
    }
}

fn is_absent_or_null(member: Option<&Value>) -> bool
    ensures { result ≡ is_absent_or_null (option_map (λ v. view v.now) member.entry) }
{
    match member {
        Some(value) => value.is_null(),
        None => true,
    }
}

fn is_empty_array_member(member: Option<&Value>) -> bool
    ensures { result ≡ is_empty_array_member (option_map (λ v. view v.now) member.entry) }
{
    match member {
        Some(value) => value.is_array() && value.get(0usize).is_none(),
        None => false,
    }
}

/// Returns the integer that is equal to a float.
fn integer_for(member: Option<&Value>) -> Option<NewMember>
    ensures { option_map change_of result ≡ integer_for (option_map (λ v. view v.now) member.entry) }
{
    let integer = whole_number(member?)?;
    Some(NewMember::Become(Value::from(integer)))
}

/// Returns the transports without the unknown ones, if there are any.
fn without_unknown(alloc: Global, member: Option<&Value>) -> Result<Option<NewMember>, OutOfMemory>
    ensures { IfOk result
        (λ c. option_map change_of c ≡ without_unknown_in (option_map (λ v. view v.now) member.entry)) }
{
    let Some(Value::Array(elements)) = member else {
        return Ok(None);
    };
    if !has_unknown_transport(elements) {
        return Ok(None);
    }
    let known = known_transports(alloc, elements)?;
    Ok(Some(NewMember::Become(Value::Array(known))))
}

/// Returns the other member's value if the member is absent.
fn copied_if_absent(
    member: Option<&Value>,
    other: Option<&Value>,
) -> Result<Option<NewMember>, OutOfMemory>
    ensures { IfOk result (λ c. option_map change_of c ≡ option_map become (if_absent
        (option_map (λ v. view v.now) member.entry) (option_map (λ v. view v.now) other.entry))) }
{
    if member.is_some() {
        return Ok(None);
    }
    match other {
        Some(value) => Ok(Some(NewMember::Become(value.clone()?))),
        None => Ok(None),
    }
}

/// Returns what the attestation object says about the new credential if the member is absent.
fn registration_if_absent(
    alloc: Global,
    member: Option<&Value>,
    object: Option<&Value>,
) -> Result<Option<Registration>, OutOfMemory>
    ensures { IfOk result (λ r. option_map parts_of r ≡ if_absent (option_map (λ v. view v.now) member.entry)
        (registration_in (option_map (λ v. view v.now) object.entry))) }
{
    match member {
        Some(_) => Ok(None),
        None => registration_in(alloc, object),
    }
}

fn authenticator_data(
    alloc: Global,
    registration: Option<Registration>,
) -> Result<Option<NewMember>, OutOfMemory>
    ensures { IfOk result (λ c. option_map change_of c
        ≡ option_map become_auth_data (option_map parts_of registration)) }
{
    match registration {
        Some(registration) => {
            let json = registration.auth_data.to_json(alloc, BytesForm::Base64Url)?;
            Ok(Some(NewMember::Become(json)))
        }
        None => Ok(None),
    }
}

fn key_algorithm(registration: Option<Registration>) -> Option<NewMember>
    ensures { option_map change_of result ≡ option_map become_algorithm (option_map parts_of registration) }
{
    let algorithm = registration?.algorithm;
    Some(NewMember::Become(Value::from(algorithm)))
}

/// Returns what the member with this name of an object becomes, if it deviates so.
pub(crate) fn change_for(
    alloc: Global,
    deviation: Deviation,
    name: &str,
    object: &Value,
) -> Result<Option<NewMember>, OutOfMemory>
    ensures { IfOk result (λ c. option_map change_of c ≡ change_for deviation name.now (view object.now)) }
{
    let member = object.get(name);
    let attestation = object.get("attestationObject");
    match deviation {
        Deviation::NullMember => Ok(leave_out_if(is_null_member(member))),
        Deviation::NoName => Ok(empty_text_if(alloc, is_absent_or_null(member))),
        Deviation::EmptyArray => Ok(empty_text_if(alloc, is_empty_array_member(member))),
        Deviation::WholeFloat => Ok(integer_for(member)),
        Deviation::UnknownTransport => without_unknown(alloc, member),
        Deviation::NullOutputs => Ok(empty_object_if(alloc, is_null_member(member))),
        Deviation::RenamedOutputs => copied_if_absent(member, object.get("extensions")),
        Deviation::NoAuthenticatorData => {
            authenticator_data(alloc, registration_if_absent(alloc, member, attestation)?)
        }
        Deviation::NoKeyAlgorithm => {
            Ok(key_algorithm(registration_if_absent(alloc, member, attestation)?))
        }
    }
}
