//! The kinds of input.
ghost use Rattle.std.specs.Prelude.{◌≡◌};
ghost use Rattle.passkey_rewrite.specs.Kind.{bytes_kinds, bytes_kinds_own, json_kinds, json_kinds_own, kind_named};

use passkey_webauthn::EnumNames;

/// The type that bytes, given in hexadecimal, are decoded as.
#[derive(Clone, Copy, Debug, PartialEq, Eq)]
pub enum BytesKind {
    /// A CBOR data item.
    Cbor,
    /// Authenticator data.
    Auth,
    /// An authenticatorMakeCredential request.
    MakeRequest,
    /// An authenticatorMakeCredential response.
    MakeResponse,
    /// An authenticatorGetAssertion request.
    GetRequest,
    /// An authenticatorGetAssertion response.
    GetResponse,
    /// An authenticatorGetInfo response.
    Info,
    /// The input of the extension hmac-secret.
    HmacInput,
}

impl EnumNames for BytesKind {
    ghost table = { bytes_kinds };

    ghost name_is_own = { bytes_kinds_own };

    fn table() -> &'static [(&'static str, BytesKind)] {
        &[
            ("cbor", BytesKind::Cbor),
            ("auth", BytesKind::Auth),
            ("mc-request", BytesKind::MakeRequest),
            ("mc-response", BytesKind::MakeResponse),
            ("ga-request", BytesKind::GetRequest),
            ("ga-response", BytesKind::GetResponse),
            ("info", BytesKind::Info),
            ("hmac-input", BytesKind::HmacInput),
        ]
    }
}

/// The type that a JSON text is decoded as.
#[derive(Clone, Copy, Debug, PartialEq, Eq)]
pub enum JsonKind {
    /// The options of a registration.
    Creation,
    /// The options of a sign-in.
    Request,
    /// The credential that a browser returns at a registration.
    Created,
    /// The credential that a browser returns at a sign-in.
    Authenticated,
    /// Collected client data.
    ClientData,
}

impl EnumNames for JsonKind {
    ghost table = { json_kinds };

    ghost name_is_own = { json_kinds_own };

    fn table() -> &'static [(&'static str, JsonKind)] {
        &[
            ("creation", JsonKind::Creation),
            ("request", JsonKind::Request),
            ("created", JsonKind::Created),
            ("authenticated", JsonKind::Authenticated),
            ("client-data", JsonKind::ClientData),
        ]
    }
}

/// What the input is, and what is done with it.
#[derive(Clone, Copy, Debug, PartialEq, Eq)]
pub enum Kind {
    /// Bytes, in hexadecimal, that are decoded and encoded again.
    Bytes(BytesKind),
    /// A JSON text that is decoded and encoded again.
    Json(JsonKind),
    /// Bytes, in hexadecimal, that are checked for CTAP2's canonical form.
    Check,
}

impl Kind {
    /// Returns the kind with this name, or `None` if no kind has it.
    #[tactic(auto, unfolding(crate::specs::Kind::kind_named))]
    pub fn from_name(name: &str) -> Option<Kind>
        ensures { result ≡ kind_named name.now }
    {
        if let Some(kind) = BytesKind::from_name(name) {
            return Some(Kind::Bytes(kind));
        }
        if let Some(kind) = JsonKind::from_name(name) {
            return Some(Kind::Json(kind));
        }
        if name == "check" {
            Some(Kind::Check)
        } else {
            None
        }
    }
}
