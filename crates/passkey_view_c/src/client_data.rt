//! Client data looked at for C.
ghost use Rattle.std.specs.Prelude.{◌≡◌, false};
ghost use Rattle.std.specs.Str.{IsUtf8};
ghost use Rattle.passkey_view.specs.ClientData.{is_client_data};
ghost use Rattle.passkey_view_c.specs.ClientData.{top_origin_of};

use passkey_view::is_client_data;
use std::str;

/// Returns whether the bytes begin as the client data that a client writes for this type
/// (`webauthn.create` or `webauthn.get`), these bytes of the challenge, this origin and this top
/// origin, which is empty unless the ceremony is in a frame of another origin. Other members may
/// follow. If the top origin isn't required, clients of WebAuthn Level 2, which don't write it, pass
/// too. JSON isn't parsed. Returns false if a string isn't UTF-8. (WebAuthn Level 3, section
/// 5.8.1.2.)
#[unsafe(no_mangle)]
pub extern "C" fn puffgrit_is_client_data(
    bytes: &[u8],
    ty: &[u8],
    challenge: &[u8],
    origin: &[u8],
    top_origin: &[u8],
    requires_top_origin: bool,
) -> bool
    ensures texts { IsUtf8 ty.now → IsUtf8 origin.now → IsUtf8 top_origin.now
        → result ≡ is_client_data ty.now challenge.now origin.now (top_origin_of top_origin.now)
        requires_top_origin bytes.now }
    ensures other { ((IsUtf8 ty.now × IsUtf8 origin.now × IsUtf8 top_origin.now) → ⊥) → result ≡ false }
{
    let (Ok(ty), Ok(origin), Ok(top_origin)) = (
        str::from_utf8(ty),
        str::from_utf8(origin),
        str::from_utf8(top_origin),
    ) else {
        return false;
    };
    let top_origin = if top_origin.is_empty() {
        None
    } else {
        Some(top_origin)
    };
    is_client_data(
        bytes,
        ty,
        challenge,
        origin,
        top_origin,
        requires_top_origin,
    )
}
