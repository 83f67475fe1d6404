//! Records that are decoded from objects.
ghost use Rattle.std.specs.Prelude.{Bool, IsTrue, Result};
ghost use Rattle.passkey_json.specs.Fault.{Fault, Gives};
ghost use Rattle.passkey_json.specs.Held.{names_of};
ghost use Rattle.passkey_json.specs.Kind.{Answers};
ghost use Rattle.passkey_json.specs.Members.{Object as Names, in_object, record_kind, takes_in};
ghost use Rattle.serde_json.specs.View.{view};

use crate::json_fault::JsonFault;
use crate::json_refusal::JsonRefusal;
use crate::object::Object;
use serde_json::Value;
use std::alloc::Global;

/// A record that is decoded from an object, member by member. Unknown members are skipped.
pub trait JsonRecord: Drop {
    /// The record that an object decodes to, or the first fault in the order of the record's
    /// members.
    ghost members: { Names → Result Self Fault };

    /// Whether decoding an object's members may take memory.
    ghost takes: { Names → Bool };

    /// Decodes the record from an object, or returns the first fault in the order of the record's
    /// members: `Repeated` for a member that is present under two names; `Float` for a rejected
    /// value that contains a float, and `Refused` for any other rejected value; `Missing` for a
    /// required member that is absent. Returns `OutOfMemory` if an allocation fails, which can only
    /// happen if the object has a member that the record knows and whose value takes memory to
    /// decode (`takes`).
    fn from_object(object: &Object<'_>) -> Result<Self, JsonFault>
        ensures { Gives (IsTrue (takes (names_of object.now))) (members (names_of object.now)) result };

    /// Decodes the record from a JSON value, as `from_object` does. Returns `NotAnObject` if the
    /// value isn't an object, and `OutOfMemory` if an allocation fails, which can only happen for
    /// an object with a member as `from_object` says.
    final fn from_json(alloc: Global, value: &Value) -> Result<Self, JsonFault>
        ensures { Gives (IsTrue (takes_in takes (view value.now))) (in_object members (view value.now)) result }
    {
        Self::from_object(&Object::of(alloc, value)?)
    }
}

/// Decodes a record inside another one. Returns `Refused` for any fault but `OutOfMemory`, and
/// `OutOfMemory` for that.
pub fn read_nested<R: JsonRecord>(alloc: Global, value: &Value) -> Result<R, JsonRefusal>
    ensures { Answers (record_kind R.members) (takes_in R.takes) (view value.now) result }
{
    Ok(R::from_json(alloc, value)?)
}
