//! The dispatches over the kinds that `passkey_show` has.
ghost use Rattle.passkey_rewrite.specs.Kinds.{bytes_definition, json_definition};

use crate::{BytesKind, JsonKind, JsonVisitor, Visitor};
use passkey_ctap2::{get_assertion, get_info, make_credential};
use passkey_extensions::HmacGetSecretInput;
use passkey_webauthn_json::credentials::{
    AuthenticatedPublicKeyCredential, CreatedPublicKeyCredential,
};
use passkey_webauthn_json::options::{CredentialCreationOptions, CredentialRequestOptions};

/// Makes the call of `$visitor` for what bytes of this kind are. A macro, since the methods of what is
/// no `Visitor` may want more of a message; its names are those of where it is called. `$info` stands
/// in place of the call for an authenticatorGetInfo response, which is no record of one table.
#[macro_export]
macro_rules! of_bytes_kind {
    ($kind:expr, $visitor:expr) => {
        $crate::of_bytes_kind!($kind, $visitor, $visitor.visit_message::<get_info::Response>())
    };
    ($kind:expr, $visitor:expr, $info:expr) => {
        match $kind {
            BytesKind::Cbor => $visitor.visit_item(),
            BytesKind::Auth => $visitor.visit_data(),
            BytesKind::MakeRequest => $visitor.visit_message::<make_credential::Request>(),
            BytesKind::MakeResponse => $visitor.visit_message::<make_credential::Response>(),
            BytesKind::GetRequest => $visitor.visit_message::<get_assertion::Request>(),
            BytesKind::GetResponse => $visitor.visit_message::<get_assertion::Response>(),
            BytesKind::Info => $info,
            BytesKind::HmacInput => $visitor.visit_message::<HmacGetSecretInput>(),
        }
    };
}

/// The same for a JSON text of this kind.
#[macro_export]
macro_rules! of_json_kind {
    ($kind:expr, $visitor:expr) => {
        match $kind {
            JsonKind::Creation => $visitor.visit_record::<CredentialCreationOptions>(),
            JsonKind::Request => $visitor.visit_record::<CredentialRequestOptions>(),
            JsonKind::Created => $visitor.visit_record::<CreatedPublicKeyCredential>(),
            JsonKind::Authenticated => $visitor.visit_record::<AuthenticatedPublicKeyCredential>(),
            JsonKind::ClientData => $visitor.visit_client_data::<()>(),
        }
    };
}

/// Does it with bytes of this kind.
pub fn visit_bytes<V: Visitor>(kind: BytesKind, visitor: V) -> V::Output
    ensures { V.Gives visitor (bytes_definition kind) result }
{
    of_bytes_kind!(kind, visitor)
}

/// Does it with a JSON text of this kind.
pub fn visit_json<V: JsonVisitor>(kind: JsonKind, visitor: V) -> V::Output
    ensures { V.Gives visitor (json_definition kind) result }
{
    of_json_kind!(kind, visitor)
}
