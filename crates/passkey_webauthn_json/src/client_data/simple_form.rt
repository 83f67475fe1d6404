//! Client data in the simple form, which clients write, looked at in its text.
ghost use Rattle.std.specs.Prelude.{◌≡◌, IfSome};
ghost use Rattle.passkey_webauthn_json.specs.client_data.SimpleForm.{IsPlainAfter, IsSimple, end_text};

use crate::client_data::client_data_text::is_plain;
use crate::client_data::client_data_type::ClientDataType;
use passkey_webauthn::EnumNames;

/// The members of client data in the simple form, whose strings lie in its text.
#[derive(Clone, Copy)]
pub(crate) struct SimpleForm<'a> {
    pub(crate) ty: ClientDataType,
    pub(crate) challenge: &'a str,
    pub(crate) origin: &'a str,
    pub(crate) cross_origin: bool,
}

/// Returns the string that lies between this front and a quote, and what follows the quote; `None`
/// if the text doesn't begin with the front, or the string has an escape.
fn plain_after<'a>(text: &'a str, front: &str) -> Option<(&'a str, &'a str)>
    ensures { IfSome result (λ parts. IsPlainAfter front.now text.now parts.0.now parts.1.now) }
{
    let (string, rest) = text.strip_prefix(front)?.split_once('"')?;
    if is_plain(string) {
        Some((string, rest))
    } else {
        None
    }
}

/// Returns `crossOrigin`, if this member and no other follows `origin`.
fn cross_origin_at_end(text: &str) -> Option<bool>
    ensures { IfSome result (λ cross_origin. text.now ≡ end_text cross_origin) }
{
    if text == ",\"crossOrigin\":false}" {
        Some(false)
    } else if text == ",\"crossOrigin\":true}" {
        Some(true)
    } else {
        None
    }
}

impl SimpleForm<'_> {
    /// Returns the members of client data in the simple form; `None` for any other text.
    pub(crate) fn find(text: &str) -> Option<SimpleForm<'_>>
        ensures { IfSome result (IsSimple text.now) }
    {
        let (ty, rest) = plain_after(text, "{\"type\":\"")?;
        let (challenge, rest) = plain_after(rest, ",\"challenge\":\"")?;
        let (origin, rest) = plain_after(rest, ",\"origin\":\"")?;
        let cross_origin = cross_origin_at_end(rest)?;
        let ty = ClientDataType::from_name(ty)?;
        Some(SimpleForm {
            ty,
            challenge,
            origin,
            cross_origin,
        })
    }
}
