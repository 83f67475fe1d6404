//! Values that are encoded as JSON values.
ghost use Rattle.std.specs.Prelude.{◌≡◌, false, IfOk, OnOk};
ghost use Rattle.passkey_json.specs.Written.{ReadsBack, natural_json, whole_json, algorithm_json};
ghost use Rattle.passkey_json.specs.declared.bytes_form.BytesForm.{BytesForm as Form};
ghost use Rattle.serde_json.specs.Data.{Data, boolean, string};
ghost use Rattle.serde_json.specs.View.{view};
ghost use Rattle.serde_json.specs.Written.{has_float};

use crate::bytes_form::BytesForm;
use crate::from_json::FromJson;
use passkey_bytes::Text;
use passkey_iana::{Algorithm, EnumI64};
use passkey_memory::OutOfMemory;
use serde_json::Value;
use std::alloc::Global;

/// A type whose values are encoded as JSON values.
pub trait ToJson: FromJson {
    /// The JSON value that a value is encoded as.
    ghost json: { Form → Self → Data };

    /// Encodes the value as a JSON value, with bytes in this form. The result decodes to the value,
    /// and contains no float. Returns `OutOfMemory` if an allocation fails.
    fn to_json(&self, alloc: Global, form: BytesForm) -> Result<Value, OutOfMemory>
        ensures written { IfOk result (λ v. view v ≡ json form self.now) }
        ensures reads_back { OnOk result (ReadsBack Self.kind self.now (json form self.now)) }
        ensures without_floats { IfOk result (λ v. has_float (view v) ≡ false) };
}

impl ToJson for bool {
    ghost json = { λ _ b. boolean b };

    fn to_json(&self, _alloc: Global, _form: BytesForm) -> Result<Value, OutOfMemory> {
        Ok(Value::Bool(*self))
    }
}

impl ToJson for Text {
    ghost json = { λ _ s. string s };

    fn to_json(&self, alloc: Global, _form: BytesForm) -> Result<Value, OutOfMemory> {
        Ok(Value::try_from_str(alloc, self.as_str())?)
    }
}

impl ToJson for u8 {
    ghost json = { λ _ n. natural_json n };

    fn to_json(&self, _alloc: Global, _form: BytesForm) -> Result<Value, OutOfMemory> {
        Ok(Value::from(*self))
    }
}

impl ToJson for u32 {
    ghost json = { λ _ n. natural_json n };

    #[tactic(auto, unfolding(crate::specs::Kind::word))]
    fn to_json(&self, _alloc: Global, _form: BytesForm) -> Result<Value, OutOfMemory> {
        Ok(Value::from(*self))
    }
}

impl ToJson for i64 {
    ghost json = { λ _ z. whole_json z };

    fn to_json(&self, _alloc: Global, _form: BytesForm) -> Result<Value, OutOfMemory> {
        Ok(Value::from(*self))
    }
}

impl ToJson for Algorithm {
    ghost json = { λ _ a. algorithm_json a };

    #[tactic(auto, using(crate::proofs::LeavesBack::algorithm_back))]
    fn to_json(&self, _alloc: Global, _form: BytesForm) -> Result<Value, OutOfMemory> {
        Ok(Value::from(self.to_i64()))
    }
}
