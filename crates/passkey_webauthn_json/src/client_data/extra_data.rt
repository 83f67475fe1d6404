//! Other members of client data.
ghost use Rattle.std.specs.Prelude.{◌≡◌, ℕ, Bool, true, List, Result, IfOk, IfSome, IsTrue};
ghost use Rattle.passkey_webauthn_json.specs.client_data.ExtraData.{IsWithoutOthers, are_extra};
ghost use Rattle.passkey_json.specs.Fault.{Fault, Gives};
ghost use Rattle.passkey_json.specs.Held.{names_of};
ghost use Rattle.passkey_json.specs.Members.{Object as Names, in_object, takes_in};
ghost use Rattle.serde_json.specs.Data.{Members};
ghost use Rattle.serde_json.specs.View.{members_view, view};

use passkey_json::{JsonFault, Object};
use passkey_memory::OutOfMemory;
use serde_json::Value;
use std::alloc::Global;

/// The members that a caller knows in addition to `type`, `challenge`, `origin` and `crossOrigin`;
/// clients may add some (WebAuthn Level 3, section 5.8.1).
pub trait ClientDataExtra: Drop {
    /// Whether a name is the name of a member of this type.
    ghost has: { List ℕ → Bool };

    /// The value that an object decodes to, or its fault.
    ghost reads: { Names → Result Self Fault };

    /// Whether decoding the value from an object may take memory.
    ghost takes: { Names → Bool };

    /// The members that a value is encoded as.
    ghost written: { Self → Members };

    /// Returns whether the name is the name of a member of this type.
    fn is_member(name: &str) -> bool
        ensures { result ≡ has name.now };

    /// Decodes the value from the client data, member by member, as `JsonRecord::from_object` does.
    /// No member of this type contains a float. Returns `OutOfMemory` if an allocation fails, which
    /// can only happen for an object that takes memory to decode (`takes`).
    fn from_object(object: &Object<'_>) -> Result<Self, JsonFault>
        ensures { Gives (IsTrue (takes (names_of object.now))) (reads (names_of object.now)) result };

    /// Decodes the value from the client data's JSON value, as `from_object` does. Returns
    /// `NotAnObject` if the JSON value isn't an object.
    final fn from_value(alloc: Global, value: &Value) -> Result<Self, JsonFault>
        ensures { Gives (IsTrue (takes_in takes (view value.now))) (in_object reads (view value.now)) result }
    {
        Self::from_object(&Object::of(alloc, value)?)
    }

    /// Returns what client data is decoded to that has `type`, `challenge`, `origin` and `crossOrigin`
    /// alone, if that is the same for all of them; else `None`. If it is there, such client data is
    /// decoded without a JSON tree (`CollectedClientData::from_slice`).
    fn absent(_alloc: Global) -> Option<Self>
        ensures { IfSome result (IsWithoutOthers reads) }
    {
        None
    }

    /// Encodes the value as members, in their order. Returns `OutOfMemory` if an allocation fails.
    fn members(&self, alloc: Global) -> Result<Vec<(String, Value)>, OutOfMemory>
        ensures { IfOk result (λ ms. members_view ms.items ≡ written self.now) };

    /// The encoded members are members of this type; no name occurs twice, and none is the name of
    /// a member that all client data has.
    ghost members_are_extra: { (x : Self) → are_extra has (written x) ≡ true };

    /// Returns an equal value. Returns `OutOfMemory` if an allocation fails.
    fn try_clone(&self, alloc: Global) -> Result<Self, OutOfMemory>
        ensures { IfOk result (λ copy. copy ≡ self.now) };
}

/// A type that knows no other members.
impl ClientDataExtra for () {
    ghost use Rattle.std.specs.Prelude.{false, Ok, refl};
    ghost use Rattle.serde_json.specs.Data.{no_members};

    ghost has = { λ _. false };

    ghost reads = { λ _. Ok tt };

    ghost takes = { λ _. false };

    ghost written = { λ _. no_members };

    fn is_member(_name: &str) -> bool {
        false
    }

    fn from_object(_object: &Object<'_>) -> Result<(), JsonFault> {
        Ok(())
    }

    fn absent(_alloc: Global) -> Option<()> {
        Some(())
    }

    fn members(&self, alloc: Global) -> Result<Vec<(String, Value)>, OutOfMemory> {
        Ok(Vec::new(alloc))
    }

    ghost members_are_extra = { λ _. refl };

    fn try_clone(&self, _alloc: Global) -> Result<(), OutOfMemory> {
        Ok(())
    }
}
