//! Known and unknown members of client data.
ghost use Rattle.std.specs.Prelude.{◌≡◌, IfOk, OnOk, codes, IsTrue, OnErr};
ghost use Rattle.passkey_webauthn_json.specs.client_data.ExtraData.{is_fixed, is_unknown};
ghost use Rattle.passkey_webauthn_json.specs.client_data.MemberLists.{added, members_where, without_floats, any_member};
ghost use Rattle.passkey_json.specs.Held.{GivesAs};
ghost use Rattle.serde_json.specs.View.{view, members_view};
ghost use Rattle.serde_json.specs.Written.{members_have_float};

use crate::client_data::extra_data::ClientDataExtra;
use indexmap::IndexMap;
use passkey_json::{JsonFault, holds_float};
use passkey_memory::OutOfMemory;
use serde_json::{Map, Value};
use std::alloc::Global;

/// Returns whether all client data has a member of this name.
pub fn is_fixed(name: &str) -> bool
    ensures { result ≡ is_fixed name.now }
{
    name == "type" || name == "challenge" || name == "origin" || name == "crossOrigin"
}

fn is_unknown<E: ClientDataExtra>(name: &str) -> bool
    ensures { result ≡ is_unknown E.has name.now }
{
    !is_fixed(name) && !E::is_member(name)
}

/// Returns whether a member that the type knows contains a float.
pub(crate) fn known_holds_float<E: ClientDataExtra>(members: &Map<String, Value>) -> bool
    ensures { result ≡ members_have_float (members_where E.has (members_view members.now.entries)) }
{
    for (name, value) in members.iter() {
        if E::is_member(name.as_str()) && holds_float(value) {
            return true;
        }
    }
    false
}

fn unknown_holds_float<E: ClientDataExtra>(members: &Map<String, Value>) -> bool
    ensures { result ≡ members_have_float (members_where (is_unknown E.has) (members_view members.now.entries)) }
{
    for (name, value) in members.iter() {
        if is_unknown::<E>(name.as_str()) && holds_float(value) {
            return true;
        }
    }
    false
}

fn put_copy(
    alloc: Global,
    copies: &mut IndexMap<String, Value>,
    name: &str,
    value: &Value,
) -> Result<(), OutOfMemory>
    ensures { OnOk result
        (members_view copies.new.entries ≡ added name.now (view value.now) (members_view copies.old.entries)) }
{
    let copy = value.clone()?;
    copies.insert(String::from_str(alloc, name)?, copy)?;
    Ok(())
}

fn copy_unknown<E: ClientDataExtra>(
    alloc: Global,
    members: &Map<String, Value>,
) -> Result<IndexMap<String, Value>, OutOfMemory>
    ensures same { IfOk result (λ copies. members_view copies.entries
        ≡ members_where (is_unknown E.has) (members_view members.now.entries)) }
    ensures grows { OnErr result
        (IsTrue (any_member (members_where (is_unknown E.has) (members_view members.now.entries)))) }
{
    let mut copies = IndexMap::new(alloc);
    for (name, value) in members.iter() {
        if is_unknown::<E>(name.as_str()) {
            put_copy(alloc, &mut copies, name.as_str(), value)?;
        }
    }
    Ok(copies)
}

/// Returns copies of the unknown members, in their order. Returns `OutOfMemory` if an allocation
/// fails, which can only happen if there is an unknown member.
pub(crate) fn unknown_members<E: ClientDataExtra>(
    alloc: Global,
    members: &Map<String, Value>,
) -> Result<IndexMap<String, Value>, JsonFault>
    ensures { GivesAs (IsTrue (any_member (members_where (is_unknown E.has) (members_view members.now.entries))))
        (λ copies. members_view copies.entries) (without_floats (codes "unknown_keys")
        (members_where (is_unknown E.has) (members_view members.now.entries))) result }
{
    if unknown_holds_float::<E>(members) {
        return Err(JsonFault::Float("unknown_keys"));
    }
    Ok(copy_unknown::<E>(alloc, members)?)
}
