//! Where the kinds are defined.
ghost use Rattle.std.specs.Prelude.{◌≡◌};
ghost use Rattle.passkey_catalogue.specs.Sources.{bytes_source, json_source, source_of};

use crate::client_kind::client_source;
use crate::ctap_kind::ctap_source;
use crate::kind::Kind;
use passkey_rewrite::{BytesKind, JsonKind};

fn bytes_source(kind: BytesKind) -> &'static str
    ensures { result.now ≡ bytes_source kind }
{
    match kind {
        BytesKind::Cbor => "RFC 8949",
        BytesKind::Auth => "WebAuthn Level 3, section 6.1",
        BytesKind::MakeRequest | BytesKind::MakeResponse => "CTAP 2.1, section 6.1",
        BytesKind::GetRequest | BytesKind::GetResponse => "CTAP 2.1, section 6.2",
        BytesKind::Info => "CTAP 2.1, section 6.4",
        BytesKind::HmacInput => "CTAP 2.1, section 12.5",
    }
}

fn json_source(kind: JsonKind) -> &'static str
    ensures { result.now ≡ json_source kind }
{
    match kind {
        JsonKind::Creation => "WebAuthn Level 3, section 5.1.1",
        JsonKind::Request => "WebAuthn Level 3, section 5.1.2",
        JsonKind::Created | JsonKind::Authenticated => "WebAuthn Level 3, section 5.1",
        JsonKind::ClientData => "WebAuthn Level 3, section 5.8.1",
    }
}

impl Kind {
    /// The standard that defines what inputs of this kind are, and its section.
    pub fn source(self) -> &'static str
        ensures { result.now ≡ source_of self }
    {
        match self {
            Kind::Bytes(kind) => bytes_source(kind),
            Kind::Json(kind) => json_source(kind),
            Kind::Ctap(kind) => ctap_source(kind),
            Kind::Client(kind) => client_source(kind),
        }
    }
}
