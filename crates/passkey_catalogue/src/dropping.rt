//! What JSON values leave out where their kinds tolerate any value.
ghost use Rattle.std.specs.Prelude.{IfOk};
ghost use Rattle.passkey_catalogue.specs.Dropping.{DropsAs};
ghost use Rattle.passkey_catalogue.specs.JsonTexts.{any_json_definition};
ghost use Rattle.serde_json.specs.View.{view};

use crate::any_json_kind::AnyJsonKind;
use crate::visiting::visit_json;
use passkey_explain_json::dropped_json;
use passkey_json::{DroppedValue, FromJson, PlainJsonRecord, ToJson};
use passkey_memory::OutOfMemory;
use passkey_rewrite::JsonVisitor;
use passkey_webauthn_json::client_data::ClientDataExtra;
use serde_json::Value;
use std::alloc::Global;

/// What is left out of a JSON value is listed.
#[derive(Drop)]
struct Dropping<'a> {
    alloc: Global,
    value: &'a Value,
}

impl<'a> JsonVisitor for Dropping<'a> {
    type Output = Result<Vec<DroppedValue>, OutOfMemory>;

    ghost Gives = { λ v d result. IfOk result (λ dropped. DropsAs d (view v.value.now) dropped.items) };

    fn visit_record<R: PlainJsonRecord>(self) -> Result<Vec<DroppedValue>, OutOfMemory> {
        dropped_json::<R>(self.alloc, self.value)
    }

    /// Client data tolerate no value.
    fn visit_client_data<E: ClientDataExtra>(self) -> Result<Vec<DroppedValue>, OutOfMemory> {
        Ok(Vec::new(self.alloc))
    }

    fn visit_object<T: ToJson>(
        self,
        _name: &'static str,
    ) -> Result<Vec<DroppedValue>, OutOfMemory> {
        T::dropped(self.alloc, self.value)
    }
}

/// Lists the values that this kind leaves out of the JSON value where it tolerates any, as
/// `dropped_json` of `passkey_explain_json` does. Returns `OutOfMemory` if an allocation fails.
pub fn dropped_json_as(
    alloc: Global,
    kind: AnyJsonKind,
    value: &Value,
) -> Result<Vec<DroppedValue>, OutOfMemory>
    ensures { IfOk result (λ dropped. DropsAs (any_json_definition kind) (view value.now) dropped.items) }
{
    visit_json(kind, Dropping { alloc, value })
}
