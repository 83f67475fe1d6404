//! All kinds of JSON texts.

use crate::client_kind::ClientKind;
use passkey_rewrite::JsonKind;

/// What a JSON text is decoded as.
#[derive(Clone, Copy, Debug, PartialEq, Eq)]
pub enum AnyJsonKind {
    /// Options, a credential or client data of a ceremony: a kind that `passkey_show` has.
    Ceremony(JsonKind),
    /// What a client takes or gives besides.
    Client(ClientKind),
}
