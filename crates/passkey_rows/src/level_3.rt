//! What a client takes and gives over JSON beside the records of `passkey_show`.
use crate::again_json::{client_data_copied, encoding, parsed};
use passkey_catalogue::{AnyJsonKind, ClientKind, visit_json};
use passkey_rewrite::{JsonVisitor, RunFault, rewrite_record};
use passkey_types::json::{JsonRefusal, PlainJsonRecord, ToJson};
use passkey_types::webauthn::{BytesForm, ClientDataExtra, EnumNames};
use std::alloc::Global;

/// `TEXT`: an object that is no record, decoded and encoded; `none` if the type refuses it.
fn object<T: ToJson>(alloc: Global, text: &str) -> Result<String, RunFault> {
    let value = parsed(alloc, text)?;
    let object = T::from_value(alloc, &value);
    drop(value);
    match object {
        Ok(object) => {
            let text = encoding(alloc, &object, BytesForm::Base64Url);
            drop(object);
            Ok(text?)
        }
        Err(JsonRefusal::Refused) => Ok(String::from_str(alloc, "none")?),
        Err(JsonRefusal::OutOfMemory) => Err(RunFault::OutOfMemory),
    }
}

/// A row's JSON text is decoded and encoded: client data with a copy.
#[derive(Drop)]
struct ClientRow<'a> {
    alloc: Global,
    text: &'a str,
}

impl<'a> JsonVisitor for ClientRow<'a> {
    type Output = Result<String, RunFault>;

    ghost Gives = { λ v d result. Unit {0} };

    fn visit_record<R: PlainJsonRecord>(self) -> Result<String, RunFault> {
        rewrite_record::<R>(self.alloc, self.text.as_bytes())
    }

    fn visit_client_data<E: ClientDataExtra>(self) -> Result<String, RunFault> {
        client_data_copied::<E>(self.alloc, self.text)
    }

    fn visit_object<T: ToJson>(self, _name: &'static str) -> Result<String, RunFault> {
        object::<T>(self.alloc, self.text)
    }
}

/// Returns the output of a row of such a kind. Returns `None` if it isn't a row of such a kind.
pub fn level_3_row(alloc: Global, name: &str, input: &str) -> Option<Result<String, RunFault>> {
    let kind = AnyJsonKind::Client(ClientKind::from_name(name)?);
    Some(visit_json(kind, ClientRow { alloc, text: input }))
}
