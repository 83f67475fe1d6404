//! Objects, whose members are looked up by name.
ghost use Rattle.passkey_json.specs.Held.{GivesAs, found, names_of};
ghost use Rattle.passkey_json.specs.Members.{aliased, member, object_of};
ghost use Rattle.std.specs.Prelude.{◌≡◌};
ghost use Rattle.serde_json.specs.View.{view};

use crate::json_fault::JsonFault;
use crate::member::Member;
use serde_json::Value;
use std::alloc::Global;

/// A JSON value that is an object (RFC 8259, section 4).
#[derive(Clone, Copy)]
pub struct Object<'a> {
    alloc: Global,
    value: &'a Value,
}

impl<'a> Object<'a> {
    /// Returns the value as an object. Returns `NotAnObject` if it isn't one.
    pub fn of(alloc: Global, value: &'a Value) -> Result<Object<'a>, JsonFault>
        ensures { GivesAs ⊥ names_of (object_of (view value.now)) result }
    {
        if value.is_object() {
            Ok(Object { alloc, value })
        } else {
            Err(JsonFault::NotAnObject)
        }
    }

    /// Returns the memory that values are decoded into.
    pub(crate) fn allocator(&self) -> Global {
        self.alloc
    }

    /// Returns the member with this name, which may be absent.
    pub fn member(&self, name: &'static str) -> Member<'a>
        ensures { found result ≡ member name.now (names_of self.now) }
    {
        Member::new(self.alloc, name, self.value.get(name))
    }

    /// Returns the member with this name or with the other one. Returns `Repeated` if both are
    /// present.
    pub fn aliased(&self, name: &'static str, other: &'static str) -> Result<Member<'a>, JsonFault>
        ensures { GivesAs ⊥ found (aliased name.now other.now (names_of self.now)) result }
    {
        match (self.value.get(name), self.value.get(other)) {
            (Some(_), Some(_)) => Err(JsonFault::Repeated(name)),
            (Some(value), None) => Ok(Member::new(self.alloc, name, Some(value))),
            (None, value) => Ok(Member::new(self.alloc, name, value)),
        }
    }
}
