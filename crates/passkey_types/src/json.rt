//! Decoding and encoding JSON values: what you need for a JSON record of your own. WebAuthn's
//! records are in `webauthn`.
pub use passkey_explain_json::{JsonExplanation, dropped_json, explain_client_data, explain_json};
pub use passkey_json::{
    BytesForm, DroppedValue, EncodeResult, FromJson, JsonBlame, JsonEncoder, JsonFault, JsonReason,
    JsonRecord, JsonRefusal, JsonStep, Member, Object, ObjectWriter, PlainJsonRecord, RecordToJson,
    Row, ToJson, TolerantList, Tolerated, TruthText, WantedJson, find_fault, holds_float,
    read_back, read_name, read_nested, written_name,
};
pub use passkey_webauthn::EnumNames;
pub use serde_json::{Error, Map, Value};
