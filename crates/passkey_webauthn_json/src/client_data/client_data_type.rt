//! Types of client data, decoded from JSON values and encoded as names.
ghost use Rattle.std.specs.Prelude.{Some};
ghost use Rattle.passkey_webauthn_json.specs.client_data.ClientDataType.{client_data_type_name, client_data_type_own};
ghost use Rattle.passkey_webauthn_json.specs.client_data.ClientDataType.{client_data_type_value, client_data_types};
ghost use Rattle.passkey_json.specs.Shape.{leaf};
ghost use Rattle.passkey_json.specs.declared.wanted.WantedJson.TheVariants.{Name};

use passkey_json::{
    BytesForm, DroppedValue, FromJson, JsonBlame, JsonRefusal, ToJson, WantedJson, read_name,
    written_name,
};
use passkey_memory::OutOfMemory;
use passkey_webauthn::EnumNames;
use serde_json::Value;
use std::alloc::Global;
use std::fmt;

/// What client data is for (WebAuthn Level 3, section 5.8.1). `PaymentGet` is from Secure Payment
/// Confirmation.
#[derive(Clone, Copy, Debug, PartialEq, Eq)]
pub enum ClientDataType {
    /// A registration: `webauthn.create`.
    Create,
    /// A sign-in: `webauthn.get`.
    Get,
    /// The confirmation of a payment: `payment.get`.
    PaymentGet,
}

impl EnumNames for ClientDataType {
    ghost table = { client_data_types };

    ghost name_is_own = { client_data_type_own };

    fn table() -> &'static [(&'static str, ClientDataType)] {
        &[
            ("webauthn.create", ClientDataType::Create),
            ("webauthn.get", ClientDataType::Get),
            ("payment.get", ClientDataType::PaymentGet),
        ]
    }
}

impl fmt::Display for ClientDataType {
    ghost output = { λ x. Some (client_data_type_name x) };

    /// The type's name in client data.
    fn fmt<W: fmt::Write>(&self, f: &mut fmt::Formatter<W>) -> fmt::Result {
        f.write_str(self.name())
    }
}

impl FromJson for ClientDataType {
    ghost kind = { client_data_type_value.kind };

    ghost shape = { leaf Name };

    fn from_value(_alloc: Global, value: &Value) -> Result<ClientDataType, JsonRefusal> {
        read_name(value)
    }

    fn blame(alloc: Global, _value: &Value) -> Result<JsonBlame, OutOfMemory> {
        Ok(JsonBlame::wanted(alloc, WantedJson::Name))
    }

    fn dropped(alloc: Global, _value: &Value) -> Result<Vec<DroppedValue>, OutOfMemory> {
        Ok(Vec::new(alloc))
    }
}

impl ToJson for ClientDataType {
    ghost json = { client_data_type_value.json };

    fn to_json(&self, alloc: Global, _form: BytesForm) -> Result<Value, OutOfMemory> {
        written_name(alloc, *self)
    }
}
