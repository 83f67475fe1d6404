//! WebAuthn's types, decoded from JSON values and encoded.
#![tactic(auto)]

mod blame;
mod bytes;
mod bytes_form;
mod dropped;
mod extensions;
mod floats;
mod from_json;
mod json_encoder;
mod json_fault;
mod json_record;
mod json_refusal;
pub mod laws;
mod list;
mod map;
mod member;
mod names;
mod object;
mod plain_json_record;
mod record_to_json;
mod requirements;
mod row;
mod selection_criteria;
mod to_json;
mod tolerated;
mod truth_text;
mod wanted;
mod webauthn;
mod written;

pub use blame::{JsonBlame, JsonReason, JsonStep};
pub use bytes_form::BytesForm;
pub use dropped::DroppedValue;
pub use extensions::{
    AuthenticationExtensionsClientInputs, AuthenticationExtensionsClientOutputs,
    AuthenticationExtensionsPrfInputs, CredentialPropertiesOutput,
};
pub use floats::holds_float;
pub use from_json::FromJson;
pub use json_encoder::{EncodeResult, JsonEncoder};
pub use json_fault::JsonFault;
pub use json_record::{JsonRecord, read_nested};
pub use json_refusal::JsonRefusal;
pub use list::TolerantList;
pub use member::{Member, place};
pub use names::{read_name, written_name};
pub use object::Object;
pub use passkey_memory::OutOfMemory;
pub use plain_json_record::{PlainJsonRecord, find_fault};
pub use record_to_json::{RecordToJson, read_back};
pub use requirements::{
    AuthenticatorAttachment, ResidentKeyRequirement, UserVerificationRequirement,
};
pub use row::Row;
pub use selection_criteria::AuthenticatorSelectionCriteria;
pub use to_json::ToJson;
pub use tolerated::Tolerated;
pub use truth_text::TruthText;
pub use wanted::WantedJson;
pub use written::ObjectWriter;
