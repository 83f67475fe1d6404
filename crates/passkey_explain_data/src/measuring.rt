//! How many bytes authenticator data take.
ghost use Rattle.std.specs.Prelude.{◌≡◌, ℕ, drop};
ghost use Rattle.passkey_cbor.specs.Item.{Item};
ghost use Rattle.passkey_cbor.specs.LeadingItem.{IsLeadingItem};
ghost use Rattle.passkey_core.specs.DataReading.{read_map, ReadsItem, ReadsAttested, ReadsWhere};
ghost use Rattle.passkey_explain_data.specs.DataLength.{EndsAt, IsDataLength};

use crate::passing::{offset_in, pass_fixed, pass_ids};
use passkey_cbor::item_len;
use passkey_core::Flags;

/// Returns the bytes after the data item that begins them, if one does.
fn after_item(bytes: &[u8]) -> &[u8]
    ensures { (x : Item) (len : ℕ) → IsLeadingItem bytes.now x len → result.now ≡ drop len bytes.now }
{
    match item_len(bytes) {
        Some(len) => bytes.split_at(len).1,
        None => bytes,
    }
}

/// Returns the bytes after the attested credential data that begin the rest, if they do.
fn after_attested<'a>(whole: &[u8], rest: &'a [u8]) -> &'a [u8]
    ensures { EndsAt (ReadsAttested rest.now) result.now }
{
    match pass_ids(whole, rest) {
        Ok(key) => after_item(key),
        Err(_) => rest,
    }
}

/// The same, if they are to be there.
fn after_attested_where<'a>(is_there: bool, whole: &[u8], rest: &'a [u8]) -> &'a [u8]
    ensures { EndsAt (ReadsWhere is_there ReadsAttested rest.now) result.now }
{
    if is_there {
        after_attested(whole, rest)
    } else {
        rest
    }
}

/// Returns the bytes after the extension outputs that begin the rest, if they are to be there.
fn after_extensions_where(is_there: bool, rest: &[u8]) -> &[u8]
    ensures { EndsAt (ReadsWhere is_there (ReadsItem read_map) rest.now) result.now }
{
    if is_there { after_item(rest) } else { rest }
}

/// Returns how many bytes the authenticator data take that begin these, if `from_slice` of
/// `AuthenticatorData` decodes them. Allocates nothing. (WebAuthn Level 3, section 6.1.)
pub fn data_len(bytes: &[u8]) -> usize
    ensures { IsDataLength bytes.now result }
{
    let (flags, rest) = match pass_fixed(bytes) {
        Ok(fixed) => fixed,
        Err(_) => return 0,
    };
    let has_attested = bitflags::Flags::contains(&flags, Flags::AT);
    let following = after_attested_where(has_attested, bytes, rest);
    let has_extensions = bitflags::Flags::contains(&flags, Flags::ED);
    let last = after_extensions_where(has_extensions, following);
    offset_in(bytes, last)
}
