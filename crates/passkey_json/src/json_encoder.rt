//! Encoding members of records.
ghost use Rattle.std.specs.Prelude.{◌≡◌, false, IfOk, IfSome, OnOk, Some, option_map};
ghost use Rattle.passkey_json.specs.Written.{ReadsBack, ReadsBackIf};
ghost use Rattle.serde_json.specs.View.{view};
ghost use Rattle.serde_json.specs.Written.{has_float};

use crate::bytes_form::BytesForm;
use crate::to_json::ToJson;
use passkey_memory::OutOfMemory;
use serde_json::Value;
use std::alloc::Global;

/// What encoding a member returns: its value, or `None` if it is absent.
pub type EncodeResult = Result<Option<Value>, OutOfMemory>;

/// Encodes members as JSON values.
#[derive(Clone, Copy)]
pub struct JsonEncoder {
    /// The memory that values are encoded into.
    pub alloc: Global,
    /// How bytes are encoded.
    pub form: BytesForm,
}

impl JsonEncoder {
    /// Encodes a member. Returns `OutOfMemory` if an allocation fails.
    pub fn value<T: ToJson>(self, member: &T) -> EncodeResult
        ensures written { IfOk result (λ v. option_map view v ≡ Some (T.json self.form member.now)) }
        ensures reads_back { OnOk result (ReadsBack T.kind member.now (T.json self.form member.now)) }
        ensures without_floats { IfOk result (λ v. IfSome v (λ v. has_float (view v) ≡ false)) }
    {
        Ok(Some(member.to_json(self.alloc, self.form)?))
    }

    /// Encodes a member if it is present. Returns `OutOfMemory` if an allocation fails.
    pub fn optional<T: ToJson>(self, member: &Option<T>) -> EncodeResult
        ensures written { IfOk result (λ v. option_map view v ≡ option_map (T.json self.form) member.now) }
        ensures reads_back { OnOk result (ReadsBackIf T.kind (T.json self.form) member.now) }
        ensures without_floats { IfOk result (λ v. IfSome v (λ v. has_float (view v) ≡ false)) }
    {
        match member {
            Some(member) => self.value(member),
            None => Ok(None),
        }
    }
}
