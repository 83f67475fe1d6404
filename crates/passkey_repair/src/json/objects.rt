//! Objects with a member changed.
ghost use Rattle.std.specs.Prelude.{◌≡◌, IfOk, OnOk, option_map};
ghost use Rattle.passkey_repair.specs.json.Edits.{change_of, with_change, members_with_change, edit_of, edited, edited_member, edited_within, texts_of};
ghost use Rattle.serde_json.specs.View.{members_view, view};

use crate::json::changes::{NewMember, change_for};
use crate::json::repair::Repair;
use passkey_memory::OutOfMemory;
use serde_json::{Map, Value};
use std::alloc::Global;

fn change_members(
    alloc: Global,
    members: &mut Map<String, Value>,
    name: &str,
    change: NewMember,
) -> Result<(), OutOfMemory>
    ensures { OnOk result (members_view members.new.entries
        ≡ members_with_change name.now (change_of change) (members_view members.old.entries)) }
{
    match change {
        NewMember::LeaveOut => {
            members.remove(name);
            Ok(())
        }
        NewMember::Become(member) => {
            members.insert(String::from_str(alloc, name)?, member)?;
            Ok(())
        }
    }
}

/// Returns a copy of the object with the member changed, or `None` if the value isn't an object.
fn with_change(
    alloc: Global,
    value: &Value,
    name: &str,
    change: NewMember,
) -> Result<Option<Value>, OutOfMemory>
    ensures { IfOk result (λ v. option_map view v ≡ with_change name.now (change_of change) (view value.now)) }
{
    let Value::Object(mut members) = value.clone()? else {
        return Ok(None);
    };
    change_members(alloc, &mut members, name, change)?;
    Ok(Some(Value::Object(members)))
}

/// Returns the object with the repair's member repaired, if it has the deviation.
fn repaired_member(
    alloc: Global,
    repair: &Repair,
    object: &Value,
) -> Result<Option<Value>, OutOfMemory>
    ensures { IfOk result (λ v. option_map view v
        ≡ edited_member (edit_of repair.now).deviation (edit_of repair.now).member (view object.now)) }
{
    match change_for(alloc, repair.deviation, repair.member, object)? {
        Some(change) => with_change(alloc, object, repair.member, change),
        None => Ok(None),
    }
}

/// Returns the value with the repair made in the object that the names lead to, if it fits there.
fn repaired_within(
    alloc: Global,
    repair: &Repair,
    within: &[&'static str],
    value: &Value,
) -> Result<Option<Value>, OutOfMemory>
    ensures { IfOk result (λ v. option_map view v ≡ edited_within (edited_member (edit_of repair.now).deviation
        (edit_of repair.now).member) (texts_of within.now) (view value.now)) }
{
    let Some((name, names)) = within.split_first() else {
        return repaired_member(alloc, repair, value);
    };
    let Some(part) = value.get(*name) else {
        return Ok(None);
    };
    match repaired_within(alloc, repair, names, part)? {
        Some(part) => with_change(alloc, value, name, NewMember::Become(part)),
        None => Ok(None),
    }
}

impl Repair {
    /// Returns a copy of the value with this repair made, or `None` if it doesn't fit. Returns
    /// `OutOfMemory` if an allocation fails.
    pub(crate) fn apply(&self, alloc: Global, value: &Value) -> Result<Option<Value>, OutOfMemory>
        ensures { IfOk result (λ v. option_map view v ≡ edited (edit_of self.now) (view value.now)) }
    {
        repaired_within(alloc, self, self.within, value)
    }
}
