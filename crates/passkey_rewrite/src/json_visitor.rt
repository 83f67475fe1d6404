//! What is done with a JSON text, whatever it is decoded as.
ghost use Rattle.passkey_rewrite.specs.JsonDefinition.{JsonDefinition, json_client_data, json_object, json_record};

use passkey_json::{PlainJsonRecord, ToJson};
use passkey_webauthn_json::client_data::ClientDataExtra;

/// What is done with a JSON text: a call for each form that its value may have. A dispatch over kinds
/// makes the one of a kind, as over bytes (`Visitor`).
pub trait JsonVisitor {
    /// What is returned.
    type Output;

    /// What holds of the output, by what the JSON text is.
    ghost Gives: { Self → JsonDefinition → Self.Output → Type 0 };

    /// Does it with a record of this type.
    fn visit_record<R: PlainJsonRecord>(self) -> Self::Output
        ensures { Gives self (json_record R.table) result };

    /// Does it with client data with the members that this type knows.
    fn visit_client_data<E: ClientDataExtra>(self) -> Self::Output
        ensures { Gives self (json_client_data E.has E.reads E.written) result };

    /// Does it with an object that is no record, but of this type, such as a map. What its fault says
    /// to be refused has this name.
    fn visit_object<T: ToJson>(self, name: &'static str) -> Self::Output
        ensures { Gives self (json_object T.kind T.json name.now) result };
}
