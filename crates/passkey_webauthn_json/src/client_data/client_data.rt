//! Client data, decoded from JSON objects, and from the bytes that an authenticator signs.
ghost use Rattle.std.specs.Prelude.{◌≡◌, ◌⊎◌, Ok, IfErr, IfOk, IfSome, IsTrue};
ghost use Rattle.passkey_webauthn_json.specs.client_data.ClientData.{client_data, client_data_takes, fixed_members, held};
ghost use Rattle.passkey_webauthn_json.specs.client_data.ClientDataBytes.{IsJsonOf, WhyNoClientData};
ghost use Rattle.passkey_webauthn_json.specs.declared.client_data.client_data_fault.ClientDataFault.TheVariants.{BadJson, OutOfMemory as NoMemory};
ghost use Rattle.passkey_json.specs.Held.{GivesAs};
ghost use Rattle.passkey_json.specs.JsonText.{HasNoJson, IsJson};
ghost use Rattle.serde_json.specs.View.{view};

use crate::client_data::client_data_fault::ClientDataFault;
use crate::client_data::client_data_type::ClientDataType;
use crate::client_data::extra_data::ClientDataExtra;
use crate::client_data::simple_form::SimpleForm;
use crate::client_data::unknown_members::{known_holds_float, unknown_members};
use indexmap::IndexMap;
use passkey_bytes::Text;
use passkey_json::{
    EncodeResult, JsonEncoder, JsonFault, JsonRecord, Member, PlainJsonRecord, Row,
};
use passkey_memory::OutOfMemory;
use serde_json::Value;
use serde_json::error::Category;
use std::alloc::Global;

/// The client data whose hash an authenticator signs (WebAuthn Level 3, section 5.8.1). `E` has the
/// other members that the caller knows.
#[derive(Debug, Drop)]
pub struct CollectedClientData<E = ()> {
    /// `webauthn.create` for a registration, `webauthn.get` for a sign-in.
    pub ty: ClientDataType,
    /// The relying party's challenge in base64url, which isn't decoded. A relying party must
    /// compare it.
    pub challenge: Text,
    /// The caller's origin. A relying party must compare it.
    pub origin: Text,
    /// Whether the caller's origin differs from that of one of its ancestors; `None` means the
    /// member is absent.
    pub cross_origin: Option<bool>,
    /// The other members that `E` knows.
    pub extra_data: E,
    /// The unknown members: those that `E` doesn't know and that not all client data has.
    pub unknown_keys: IndexMap<String, Value>,
}

/// The members that all client data has (WebAuthn Level 3, section 5.8.1).
#[derive(Drop)]
pub struct FixedMembers {
    ty: ClientDataType,
    challenge: Text,
    origin: Text,
    cross_origin: Option<bool>,
}

impl PlainJsonRecord for FixedMembers {
    ghost table = { fixed_members };

    fn rows() -> &'static [Row] {
        &[
            Row::Named(1, "type"),
            Row::Named(2, "challenge"),
            Row::Named(3, "origin"),
            Row::Named(4, "crossOrigin"),
        ]
    }

    fn blank(alloc: Global) -> FixedMembers {
        FixedMembers {
            ty: ClientDataType::Create,
            challenge: Text::empty(alloc),
            origin: Text::empty(alloc),
            cross_origin: None,
        }
    }

    fn put(&mut self, number: u8, member: &mut Member<'_>) -> Result<(), JsonFault> {
        match number {
            1 => self.ty = member.required()?,
            2 => self.challenge = member.required()?,
            3 => self.origin = member.required()?,
            4 => self.cross_origin = member.or_default(None)?,
            _ => {}
        }
        Ok(())
    }

    fn encode(&self, number: u8, encoder: JsonEncoder) -> EncodeResult {
        match number {
            1 => encoder.value(&self.ty),
            2 => encoder.value(&self.challenge),
            3 => encoder.value(&self.origin),
            4 => encoder.optional(&self.cross_origin),
            _ => Ok(None),
        }
    }
}

fn parse(alloc: Global, bytes: &[u8]) -> Result<Value, ClientDataFault>
    ensures ok { IfOk result (λ value. IsJson bytes.now (view value)) }
    ensures err { IfErr result (λ fault. (fault ≡ NoMemory) ⊎ ((fault ≡ BadJson) × HasNoJson bytes.now)) }
{
    match Value::from_slice(alloc, bytes) {
        Ok(value) => Ok(value),
        Err(error) if error.classify() == Category::Memory => Err(ClientDataFault::OutOfMemory),
        Err(_) => Err(ClientDataFault::BadJson),
    }
}

impl<E: ClientDataExtra> CollectedClientData<E> {
    /// Decodes client data. Returns `NotAnObject` if the JSON value isn't an object; else the first
    /// fault of `type`, `challenge`, `origin` and `crossOrigin`, in this order; then
    /// `Float("extra_data")` if a member that `E` knows contains a float; then `E`'s fault; then
    /// `Float("unknown_keys")` if an unknown member contains a float. Unknown members are ordered
    /// by name. Returns `OutOfMemory` if an allocation fails, which can only happen for an object
    /// whose `challenge` or `origin` is a text, which `E` takes memory to decode, or which has an
    /// unknown member.
    #[tactic(auto, unfolding(crate::specs::client_data::ClientData::client_data_in))]
    pub fn from_json(alloc: Global, value: &Value) -> Result<CollectedClientData<E>, JsonFault>
        ensures { GivesAs (IsTrue (client_data_takes E.has E.takes (view value.now))) held
            (client_data E.has E.reads (view value.now)) result }
    {
        let Value::Object(members) = value else {
            return Err(JsonFault::NotAnObject);
        };
        let FixedMembers {
            ty,
            challenge,
            origin,
            cross_origin,
        } = FixedMembers::from_json(alloc, value)?;
        if known_holds_float::<E>(members) {
            return Err(JsonFault::Float("extra_data"));
        }
        let extra_data = E::from_value(alloc, value)?;
        let unknown_keys = unknown_members::<E>(alloc, members)?;
        Ok(CollectedClientData {
            ty,
            challenge,
            origin,
            cross_origin,
            extra_data,
            unknown_keys,
        })
    }

    /// Decodes client data in the simple form, without a JSON tree; returns `None` for any other bytes,
    /// and if `E` has no value for it. Returns `OutOfMemory` if an allocation fails.
    fn from_simple(
        alloc: Global,
        bytes: &[u8],
    ) -> Result<Option<CollectedClientData<E>>, OutOfMemory>
        ensures { IfOk result (λ found. IfSome found
            (λ made. IsJsonOf bytes.now (λ d. client_data E.has E.reads d ≡ Ok (held made)))) }
    {
        // The form ends with a truth value. What ends otherwise is told apart without a look at it.
        if !bytes.ends_with(b"e}") {
            return Ok(None);
        }
        let Some(extra_data) = E::absent(alloc) else {
            return Ok(None);
        };
        let Ok(text) = str::from_utf8(bytes) else {
            return Ok(None);
        };
        let Some(form) = SimpleForm::find(text) else {
            return Ok(None);
        };
        Ok(Some(CollectedClientData {
            ty: form.ty,
            challenge: Text::from_str(alloc, form.challenge)?,
            origin: Text::from_str(alloc, form.origin)?,
            cross_origin: Some(form.cross_origin),
            extra_data,
            unknown_keys: IndexMap::new(alloc),
        }))
    }

    /// Decodes client data from its JSON text, such as a response's `client_data_json` (WebAuthn
    /// Level 3, section 5.8.1.1). Returns `BadJson` if the bytes aren't UTF-8, or aren't a JSON
    /// text of at most 127 nesting levels; else `Refused` with the fault of `from_json` for its
    /// value. Returns `OutOfMemory` if an allocation fails.
    ///
    /// Client data as clients write them, with these four members alone, are decoded without a JSON
    /// tree if `E` knows what they are to it (`absent`), and take no memory but the result's.
    pub fn from_slice(
        alloc: Global,
        bytes: &[u8],
    ) -> Result<CollectedClientData<E>, ClientDataFault>
        ensures ok { IfOk result (λ made. IsJsonOf bytes.now (λ d. client_data E.has E.reads d ≡ Ok (held made))) }
        ensures err { IfErr result (WhyNoClientData (client_data E.has E.reads) bytes.now) }
    {
        if let Some(data) = CollectedClientData::from_simple(alloc, bytes)? {
            return Ok(data);
        }
        let value = parse(alloc, bytes)?;
        let data = CollectedClientData::from_json(alloc, &value)?;
        Ok(data)
    }

    /// Returns an equal value. Returns `OutOfMemory` if an allocation fails.
    pub fn try_clone(&self, alloc: Global) -> Result<CollectedClientData<E>, OutOfMemory>
        ensures { IfOk result (λ copy. held copy ≡ held self.now) }
    {
        Ok(CollectedClientData {
            ty: self.ty,
            challenge: self.challenge.try_clone(alloc)?,
            origin: self.origin.try_clone(alloc)?,
            cross_origin: self.cross_origin,
            extra_data: self.extra_data.try_clone(alloc)?,
            unknown_keys: self.unknown_keys.clone()?,
        })
    }
}
