//! Messages of any kind, decoded and encoded in several ways.
use crate::again_bytes::{Copied, auth_again, item_again, message_again};
use crate::again_json::json_again;
use crate::by_item::{by_item, info_by_items};
use crate::decoding::{Source, decode_as};
use crate::heads::{Counts, heads};
use crate::hexadecimal::{decode, encode};
use crate::tries::Tries;
use passkey_catalogue::{CtapKind, Form, Kind, of_ctap_kind};
use passkey_rewrite::{BytesKind, RunFault, of_bytes_kind};
use passkey_types::attestation::AttestationFormat;
use passkey_types::ctap2::extensions::HmacGetSecretInput;
use passkey_types::ctap2::registered::{self, extensions};
use passkey_types::ctap2::{
    Message, ToCbor, bio_enrollment, client_pin, config, credential_management, get_assertion,
    get_info, large_blobs, make_credential,
};
use std::alloc::Global;

/// What is done with a message.
#[derive(Clone, Copy)]
pub enum Way {
    /// It is decoded and encoded.
    Once,
    /// The same with copies of its parts.
    Again,
    /// It is decoded from a data item, and encoded by way of one.
    ByItem,
    /// What decoding costs is counted.
    Counted(Counts),
    /// It is decoded as the body of a request or a response, which may be empty.
    Body,
    /// It is decoded, and its whole item is encoded in canonical form.
    Whole,
}

/// Bytes of which the parts are replaced by copies, or which go by way of data items.
#[derive(Drop)]
struct InParts<'a, 'b> {
    alloc: Global,
    tries: &'a mut Tries,
    is_by_item: bool,
    bytes: &'b [u8],
}

/// The calls of the dispatches.
impl<'a, 'b> InParts<'a, 'b> {
    fn visit_item(self) -> Result<Vec<u8>, RunFault> {
        let (alloc, bytes) = (self.alloc, self.bytes);
        if self.is_by_item {
            return Err(RunFault::UnknownKind);
        }
        item_again(alloc, self.tries, bytes)
    }

    fn visit_data(self) -> Result<Vec<u8>, RunFault> {
        let (alloc, bytes) = (self.alloc, self.bytes);
        if self.is_by_item {
            return Err(RunFault::UnknownKind);
        }
        auth_again(alloc, self.tries, bytes)
    }

    fn visit_message<M: Message + Copied + ToCbor>(self) -> Result<Vec<u8>, RunFault> {
        let (alloc, bytes) = (self.alloc, self.bytes);
        if self.is_by_item {
            by_item::<M>(alloc, self.tries, bytes)
        } else {
            message_again::<M>(alloc, self.tries, bytes)
        }
    }

    fn visit_info(self) -> Result<Vec<u8>, RunFault> {
        let (alloc, bytes) = (self.alloc, self.bytes);
        if self.is_by_item {
            info_by_items(alloc, self.tries, bytes)
        } else {
            message_again::<get_info::Response>(alloc, self.tries, bytes)
        }
    }

    fn visit_other(self, _what: Form) -> Result<Vec<u8>, RunFault> {
        Err(RunFault::UnknownKind)
    }
}

/// Returns what bytes of this kind are encoded as.
fn in_parts(kind: Kind, parts: InParts<'_, '_>) -> Result<Vec<u8>, RunFault> {
    match kind {
        Kind::Bytes(kind) => of_bytes_kind!(kind, parts, parts.visit_info()),
        Kind::Ctap(kind) => of_ctap_kind!(kind, parts),
        Kind::Json(_) | Kind::Client(_) => Err(RunFault::UnknownKind),
    }
}

/// Decodes and encodes a message.
fn once(
    alloc: Global,
    tries: &mut Tries,
    source: Source,
    kind: Kind,
    bytes: &[u8],
) -> Result<Vec<u8>, RunFault> {
    let decoded = decode_as(alloc, tries, kind, source, bytes).ok_or(RunFault::UnknownKind)?;
    let (encoding, _len) = decoded.outcome?;
    Ok(encoding)
}

/// Returns the output of a message's row.
pub fn message_row(
    alloc: Global,
    tries: &mut Tries,
    way: Way,
    kind: Kind,
    input: &str,
) -> Result<String, RunFault> {
    let is_by_item = match (way, kind) {
        (Way::Counted(counts), kind) => return heads(alloc, tries, counts, kind, input),
        (Way::Again, Kind::Json(kind)) => return json_again(alloc, tries, kind, input),
        (Way::ByItem, _) => true,
        _ => false,
    };
    let bytes = decode(alloc, input)?;
    let encoding = match way {
        Way::Once => once(alloc, tries, Source::Bytes, kind, &bytes)?,
        Way::Body => once(alloc, tries, Source::Body, kind, &bytes)?,
        Way::Whole => once(alloc, tries, Source::Whole, kind, &bytes)?,
        _ => {
            let bytes = bytes.as_slice();
            in_parts(
                kind,
                InParts {
                    alloc,
                    tries,
                    is_by_item,
                    bytes,
                },
            )?
        }
    };
    encode(alloc, &encoding)
}
