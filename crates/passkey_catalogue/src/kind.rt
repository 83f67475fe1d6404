//! All kinds of input.
ghost use Rattle.std.specs.Prelude.{◌≡◌};
ghost use Rattle.passkey_catalogue.specs.Catalogue.{is_json, json_of, kind_at, kind_named, kind_numbered, name_of};
ghost use Rattle.passkey_catalogue.specs.Numbers.{value_from};

use crate::any_json_kind::AnyJsonKind;
use crate::client_kind::ClientKind;
use crate::ctap_kind::CtapKind;
use passkey_rewrite::{BytesKind, JsonKind};
use passkey_webauthn::EnumNames;

/// What an input is.
#[derive(Clone, Copy, Debug, PartialEq, Eq)]
pub enum Kind {
    /// Bytes of a kind that `passkey_show` has.
    Bytes(BytesKind),
    /// A JSON text of a kind that `passkey_show` has.
    Json(JsonKind),
    /// Other bytes, which CTAP2 has between a platform and an authenticator.
    Ctap(CtapKind),
    /// Another JSON text, which a client takes or gives.
    Client(ClientKind),
}

/// Returns the value whose place in its table, from `first` on, is the number; `None` if none has
/// it.
pub(crate) fn placed<T: EnumNames>(number: usize, first: usize) -> Option<T>
    ensures { result ≡ value_from T.table first number }
{
    if number < first {
        return None;
    }
    match T::table().get(number - first) {
        Some((_, value)) => Some(*value),
        None => None,
    }
}

impl Kind {
    /// Returns the kind with this name; `None` if no kind has it.
    pub fn from_name(name: &str) -> Option<Kind>
        ensures { result ≡ kind_named name.now }
    {
        if let Some(kind) = BytesKind::from_name(name) {
            return Some(Kind::Bytes(kind));
        }
        if let Some(kind) = JsonKind::from_name(name) {
            return Some(Kind::Json(kind));
        }
        if let Some(kind) = CtapKind::from_name(name) {
            return Some(Kind::Ctap(kind));
        }
        match ClientKind::from_name(name) {
            Some(kind) => Some(Kind::Client(kind)),
            None => None,
        }
    }

    /// The kind's name.
    pub fn name(self) -> &'static str
        ensures { result.now ≡ name_of self }
    {
        match self {
            Kind::Bytes(kind) => kind.name(),
            Kind::Json(kind) => kind.name(),
            Kind::Ctap(kind) => kind.name(),
            Kind::Client(kind) => kind.name(),
        }
    }

    /// Returns the kind with this number in C; `None` if no kind has it. The numbers of the kinds of
    /// bytes that `passkey_show` has begin at 1, those of its JSON texts at 9, and those of other
    /// bytes at 14. Other JSON texts have none.
    pub fn from_number(number: usize) -> Option<Kind>
        ensures { result ≡ kind_numbered number }
    {
        if let Some(kind) = placed::<BytesKind>(number, 1) {
            return Some(Kind::Bytes(kind));
        }
        if let Some(kind) = placed::<JsonKind>(number, 9) {
            return Some(Kind::Json(kind));
        }
        match placed::<CtapKind>(number, 14) {
            Some(kind) => Some(Kind::Ctap(kind)),
            None => None,
        }
    }

    /// Returns the kind at this place in the list of all kinds: a kind with a number in C is at its
    /// number, and the other JSON texts are from 200 on. Returns `None` at other places.
    pub fn at(place: usize) -> Option<Kind>
        ensures { result ≡ kind_at place }
    {
        if let Some(kind) = Kind::from_number(place) {
            return Some(kind);
        }
        match placed::<ClientKind>(place, 200) {
            Some(kind) => Some(Kind::Client(kind)),
            None => None,
        }
    }

    /// The kind of JSON text that inputs of this kind are; `None` if they are bytes.
    pub fn as_json(self) -> Option<AnyJsonKind>
        ensures { result ≡ json_of self }
    {
        match self {
            Kind::Bytes(_) | Kind::Ctap(_) => None,
            Kind::Json(kind) => Some(AnyJsonKind::Ceremony(kind)),
            Kind::Client(kind) => Some(AnyJsonKind::Client(kind)),
        }
    }

    /// Whether inputs of this kind are JSON texts, and not bytes.
    pub fn is_json(self) -> bool
        ensures { result ≡ is_json self }
    {
        self.as_json().is_some()
    }
}
