//! Members of objects, and the ways to decode them.
ghost use Rattle.std.specs.Prelude.{◌≡◌, Err, IfOk, IfSome, IsTrue, Some, option_map};
ghost use Rattle.passkey_json.specs.Along.{accepted_shape, tolerant_shape};
ghost use Rattle.passkey_json.specs.Fault.{Gives};
ghost use Rattle.passkey_json.specs.Held.{HasAnswered, IsPlaced, IsUnlessRefused, asked_of, found};
ghost use Rattle.passkey_json.specs.Kind.{accepted, is_array};
ghost use Rattle.passkey_json.specs.Members.{MemberTakes, under, fault_of, decoded_or_fault, required, or_default, if_present};
ghost use Rattle.passkey_json.specs.Members.{tolerated, required_tolerated, accepted_list};
ghost use Rattle.serde_json.specs.View.{view};

use crate::blame::JsonBlame;
use crate::dropped::DroppedValue;
use crate::floats::holds_float;
use crate::from_json::FromJson;
use crate::json_fault::JsonFault;
use crate::json_refusal::JsonRefusal;
use crate::list::TolerantList;
use crate::tolerated::Tolerated;
use passkey_bytes::List;
use passkey_memory::OutOfMemory;
use serde_json::Value;
use std::alloc::Global;

/// Returns the fault of a value that is rejected.
fn fault_of(name: &'static str, value: &Value) -> JsonFault
    ensures { Gives {A = Unit {0}} ⊥ (Err (fault_of name.now (view value.now))) (Err result) }
{
    if holds_float(value) {
        JsonFault::Float(name)
    } else {
        JsonFault::Refused(name)
    }
}

/// Returns the value that a JSON value decodes to, or the fault.
fn decoded_or_fault<T: FromJson>(
    alloc: Global,
    name: &'static str,
    value: &Value,
) -> Result<T, JsonFault>
    ensures { Gives (IsTrue (T.takes (view value.now))) (decoded_or_fault T.kind name.now (view value.now)) result }
{
    match T::from_value(alloc, value) {
        Ok(read) => Ok(read),
        Err(JsonRefusal::Refused) => Err(fault_of(name, value)),
        Err(JsonRefusal::OutOfMemory) => Err(JsonFault::OutOfMemory),
    }
}

/// Puts a decoded member in place of an old value, or returns its fault and leaves the old one.
#[inline(always)]
pub fn place<T: Drop>(place: &mut T, read: Result<T, JsonFault>) -> Result<(), JsonFault>
    ensures { IsPlaced read place.old place.new result }
{
    *place = read?;
    Ok(())
}

fn unless_refused<T: Drop>(read: Result<T, JsonRefusal>, default: T) -> Result<T, JsonFault>
    ensures { IsUnlessRefused default read result }
{
    match read {
        Ok(read) => Ok(read),
        Err(JsonRefusal::Refused) => Ok(default),
        Err(JsonRefusal::OutOfMemory) => Err(JsonFault::OutOfMemory),
    }
}

/// What is asked of a member's value, by the type that it is decoded as.
#[derive(Clone, Copy)]
pub(crate) enum Question {
    /// What in it is to blame.
    Blame,
    /// What is left out of it.
    Dropped,
}

/// What is asked of a member's value, and the answers.
#[derive(Drop)]
pub(crate) struct Asked {
    question: Question,
    blame: Result<JsonBlame, OutOfMemory>,
    dropped: Result<Vec<DroppedValue>, OutOfMemory>,
}

/// A member of an object, which may be absent. Each way to decode it returns `OutOfMemory` if an
/// allocation fails, which can only happen for a value that takes memory to decode. If a value is
/// rejected for which there is no default, the fault is `Float` if the value contains a float, and
/// else `Refused`.
#[derive(Drop)]
pub struct Member<'a> {
    alloc: Global,
    name: &'static str,
    value: Option<&'a Value>,
    // in a box, since nothing is asked where a record is decoded
    asked: Option<Box<Asked>>,
}

impl<'a> Member<'a> {
    pub(crate) fn new(alloc: Global, name: &'static str, value: Option<&'a Value>) -> Member<'a>
        ensures { found result ≡ under name.now (option_map (λ v. view v.now) value.entry) }
    {
        Member {
            alloc,
            name,
            value,
            asked: None,
        }
    }

    /// A member with this value and any name, of which this is asked. Returns `OutOfMemory` if the
    /// allocation fails.
    pub(crate) fn asked(
        alloc: Global,
        question: Question,
        value: &'a Value,
    ) -> Result<Member<'a>, OutOfMemory>
        ensures value { IfOk result (λ m. (found m).value ≡ Some (view value.now)) }
        ensures asked { IfOk result (λ m. option_map (λ a. a.question) (asked_of m) ≡ Some question) }
    {
        let asked = Asked {
            question,
            blame: Err(OutOfMemory),
            dropped: Err(OutOfMemory),
        };
        Ok(Member {
            alloc,
            name: "",
            value: Some(value),
            asked: Some(Box::new(alloc, asked)?),
        })
    }

    /// Returns what is to blame, if that was asked and the member was decoded.
    pub(crate) fn into_blame(self) -> Result<JsonBlame, OutOfMemory>
        ensures { IfSome (asked_of self.entry) (λ a. result ≡ a.blame) }
    {
        match self.asked {
            Some(asked) => Box::into_inner(asked).blame,
            None => Err(OutOfMemory),
        }
    }

    /// Returns what is left out, if that was asked and the member was decoded.
    pub(crate) fn into_dropped(self) -> Result<Vec<DroppedValue>, OutOfMemory>
        ensures { IfSome (asked_of self.entry) (λ a. result ≡ a.dropped) }
    {
        match self.asked {
            Some(asked) => Box::into_inner(asked).dropped,
            None => Err(OutOfMemory),
        }
    }

    /// Answers what is asked, by the type that the member is decoded as.
    fn answer<T: FromJson>(&mut self)
        ensures same { found self.new ≡ found self.old }
        ensures answers { HasAnswered T.shape self.old self.new }
    {
        let (Some(asked), Some(value)) = (&mut self.asked, self.value) else {
            return;
        };
        match asked.question {
            Question::Blame => asked.blame = T::blame(self.alloc, value),
            Question::Dropped => asked.dropped = T::dropped(self.alloc, value),
        }
    }

    /// Decodes a required member. Returns `Missing` if it is absent, and the fault of a rejected value.
    #[tactic(auto, unfolding(crate::specs::Members::required))]
    pub fn required<T: FromJson>(&mut self) -> Result<T, JsonFault>
        ensures gives { Gives (MemberTakes T.takes (found self.old)) (required T.kind (found self.old)) result }
        ensures answers { HasAnswered T.shape self.old self.new }
    {
        self.answer::<T>();
        match self.value {
            Some(value) => decoded_or_fault(self.alloc, self.name, value),
            None => Err(JsonFault::Missing(self.name)),
        }
    }

    /// Decodes a member, or returns the default if it is absent, and the fault of a rejected value.
    #[tactic(auto, unfolding(crate::specs::Members::or_default))]
    pub fn or_default<T: FromJson>(&mut self, default: T) -> Result<T, JsonFault>
        ensures gives { Gives (MemberTakes T.takes (found self.old)) (or_default default T.kind (found self.old))
            result }
        ensures answers { HasAnswered T.shape self.old self.new }
    {
        self.answer::<T>();
        match self.value {
            Some(value) => decoded_or_fault(self.alloc, self.name, value),
            None => Ok(default),
        }
    }

    /// Decodes a member, or returns `None` if it is absent, and the fault of a rejected value.
    #[tactic(auto, unfolding(crate::specs::Members::if_present))]
    pub fn if_present<T: FromJson>(&mut self) -> Result<Option<T>, JsonFault>
        ensures gives { Gives (MemberTakes T.takes (found self.old)) (if_present T.kind (found self.old)) result }
        ensures answers { HasAnswered T.shape self.old self.new }
    {
        self.answer::<T>();
        match self.value {
            Some(value) => Ok(Some(decoded_or_fault(self.alloc, self.name, value)?)),
            None => Ok(None),
        }
    }

    /// Decodes a member, or returns the default if it is absent or rejected. Running out of memory
    /// is still an error, and the only one.
    #[tactic(auto, unfolding(crate::specs::Members::tolerated))]
    pub fn tolerated<T: FromJson>(&mut self, default: T) -> Result<T, JsonFault>
        ensures gives { Gives (MemberTakes T.takes (found self.old)) (tolerated default T.kind (found self.old))
            result }
        ensures answers { HasAnswered (tolerant_shape T.kind T.shape) self.old self.new }
    {
        self.answer::<Tolerated<T>>();
        let Some(value) = self.value else {
            return Ok(default);
        };
        unless_refused(T::from_value(self.alloc, value), default)
    }

    /// Decodes a required member, or returns the default if its value is rejected. Returns
    /// `Missing` if it is absent. Running out of memory is still an error; there is no other.
    #[tactic(auto, unfolding(crate::specs::Members::required_tolerated, crate::specs::Members::tolerated))]
    pub fn required_tolerated<T: FromJson>(&mut self, default: T) -> Result<T, JsonFault>
        ensures gives { Gives (MemberTakes T.takes (found self.old))
            (required_tolerated default T.kind (found self.old)) result }
        ensures answers { HasAnswered (tolerant_shape T.kind T.shape) self.old self.new }
    {
        if self.value.is_none() {
            return Err(JsonFault::Missing(self.name));
        }
        self.tolerated(default)
    }

    /// Decodes the elements of an array that are accepted, in their order. Returns `None` if the
    /// member is absent or its value isn't an array. Running out of memory, which can only happen
    /// for an array, is still an error, and the only one.
    #[tactic(auto, unfolding(crate::specs::Members::accepted_list))]
    pub fn accepted_list<T: FromJson>(&mut self) -> Result<Option<List<T>>, JsonFault>
        ensures gives { Gives (MemberTakes is_array (found self.old)) (accepted_list T.kind (found self.old)) result }
        ensures answers { HasAnswered (tolerant_shape (accepted T.kind) (accepted_shape T.kind T.shape)) self.old self.new }
    {
        self.answer::<Tolerated<TolerantList<T>>>();
        let Some(value) = self.value else {
            return Ok(None);
        };
        match <TolerantList<T> as FromJson>::from_value(self.alloc, value) {
            Ok(accepted) => Ok(Some(accepted.into_list())),
            Err(JsonRefusal::Refused) => Ok(None),
            Err(JsonRefusal::OutOfMemory) => Err(JsonFault::OutOfMemory),
        }
    }
}
