//! The kinds that are found where none is named.

use passkey_catalogue::CtapKind;
pub use passkey_catalogue::Kind as InspectKind;
use passkey_rewrite::{BytesKind, JsonKind};

/// Any data item.
pub const CBOR: InspectKind = InspectKind::Bytes(BytesKind::Cbor);

/// The kinds of bytes that are found where none is named, those that accept least first. The others
/// accept much that is something else, or nearly what one of these accepts.
pub const FOUND_KINDS: [InspectKind; 21] = [
    InspectKind::Bytes(BytesKind::Info),
    InspectKind::Bytes(BytesKind::MakeResponse),
    InspectKind::Bytes(BytesKind::MakeRequest),
    InspectKind::Bytes(BytesKind::GetResponse),
    InspectKind::Bytes(BytesKind::GetRequest),
    InspectKind::Ctap(CtapKind::Key),
    InspectKind::Bytes(BytesKind::HmacInput),
    InspectKind::Ctap(CtapKind::BlobsEntry),
    InspectKind::Ctap(CtapKind::CredentialRequest),
    InspectKind::Ctap(CtapKind::PinRequest),
    InspectKind::Ctap(CtapKind::ConfigRequest),
    InspectKind::Ctap(CtapKind::ConfigVendor),
    InspectKind::Ctap(CtapKind::BlobsRequest),
    InspectKind::Ctap(CtapKind::BioRequest),
    InspectKind::Ctap(CtapKind::CredentialResponse),
    InspectKind::Ctap(CtapKind::BioResponse),
    InspectKind::Ctap(CtapKind::PinResponse),
    InspectKind::Ctap(CtapKind::BlobsResponse),
    InspectKind::Ctap(CtapKind::ConfigMinPinLength),
    InspectKind::Bytes(BytesKind::Auth),
    CBOR,
];

/// The kinds of JSON that are found where none is named, those that accept least first.
pub const FOUND_JSON_KINDS: [InspectKind; 5] = [
    InspectKind::Json(JsonKind::ClientData),
    InspectKind::Json(JsonKind::Created),
    InspectKind::Json(JsonKind::Authenticated),
    InspectKind::Json(JsonKind::Creation),
    InspectKind::Json(JsonKind::Request),
];

/// Returns whether bytes of the kind are a data item. Authenticator data and the structures of a TPM
/// aren't.
pub fn is_data_item(kind: InspectKind) -> bool {
    !matches!(
        kind,
        InspectKind::Bytes(BytesKind::Auth)
            | InspectKind::Ctap(CtapKind::CertInfo | CtapKind::PubArea)
    )
}

/// Returns the kind with this name.
pub fn kind_named(name: &str) -> Option<InspectKind> {
    InspectKind::from_name(name)
}

/// Returns the kind's name.
pub fn name_of(kind: InspectKind) -> &'static str {
    kind.name()
}
