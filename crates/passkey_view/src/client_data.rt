//! Client data compared with what a client writes (WebAuthn Level 3, section 5.8.1.2).
ghost use Rattle.std.specs.Prelude.{◌≡◌, ◌<◌, ◌++◌, ◌∷◌, [], ℕ, map, option_map};
ghost use Rattle.passkey_view.specs.ClientData.{after, after_base64url, after_challenge, after_cross_origin, after_fixed_members};
ghost use Rattle.passkey_view.specs.ClientData.{after_string, after_top_origin, escaped, hex_digit, is_client_data, symbol};

/// Returns what follows the piece, if the text begins with it.
#[tactic(auto, using(crate::proofs::Prefixes::after_taken))]
fn after<'a>(text: &'a [u8], piece: &[u8]) -> Option<&'a [u8]>
    ensures { option_map (λ rest. rest.now) result ≡ after piece.now text.now }
{
    text.strip_prefix(piece)
}

fn hex_digit(n: u8) -> u8
    requires { n < 16 }
    ensures { result ≡ hex_digit n }
{
    if n < 10 { b'0' + n } else { b'a' - 10 + n }
}

/// Returns what follows a byte of a string, if the text begins with it as a client writes it: a
/// quote, a backslash and a control character with an escape (`CCDToString`).
fn after_byte<'a>(text: &'a [u8], byte: u8) -> Option<&'a [u8]>
    ensures { option_map (λ rest. rest.now) result ≡ after (escaped byte) text.now }
{
    match byte {
        b'"' => after(text, b"\\\""),
        b'\\' => after(text, b"\\\\"),
        0..=31 => {
            let digits = [
                b'\\',
                b'u',
                b'0',
                b'0',
                hex_digit(byte / 16),
                hex_digit(byte % 16),
            ];
            after(text, &digits)
        }
        _ => after(text, &[byte]),
    }
}

/// Returns what follows the string in quotes, if the text begins with it.
#[tactic(auto, unfolding(crate::specs::ClientData::after_string))]
fn after_string<'a>(text: &'a [u8], string: &str) -> Option<&'a [u8]>
    ensures { option_map (λ rest. rest.now) result ≡ after_string string.now text.now }
{
    let mut rest = after(text, b"\"")?;
    let mut left = string.as_bytes();
    while let Some((byte, others)) = left.split_first() {
        rest = after_byte(rest, *byte)?;
        left = others;
    }
    after(rest, b"\"")
}

/// Returns the symbol of six bits (RFC 4648, section 5).
fn symbol(n: u8) -> u8
    requires { n < 64 }
    ensures { result ≡ symbol n }
{
    if n < 26 {
        b'A' + n
    } else if n < 52 {
        b'a' - 26 + n
    } else if n < 62 {
        n - 4
    } else if n == 62 {
        b'-'
    } else {
        b'_'
    }
}

/// Returns what follows the bytes in base64url without padding, if the text begins with that.
#[tactic(auto, unfolding(crate::specs::ClientData::after_base64url))]
fn after_base64url<'a>(text: &'a [u8], bytes: &[u8]) -> Option<&'a [u8]>
    ensures { option_map (λ rest. rest.now) result ≡ after_base64url bytes.now text.now }
{
    let (mut rest, mut left) = (text, bytes);
    while let [a, b, c, others @ ..] = left {
        let group = [
            symbol(*a / 4),
            symbol(*a % 4 * 16 + *b / 16),
            symbol(*b % 16 * 4 + *c / 64),
            symbol(*c % 64),
        ];
        rest = after(rest, &group)?;
        left = others;
    }
    match left {
        [a, b] => {
            let group = [
                symbol(*a / 4),
                symbol(*a % 4 * 16 + *b / 16),
                symbol(*b % 16 * 4),
            ];
            after(rest, &group)
        }
        [a] => after(rest, &[symbol(*a / 4), symbol(*a % 4 * 16)]),
        _ => Some(rest),
    }
}

/// Returns what follows the type and the challenge.
#[tactic(auto, unfolding(crate::specs::ClientData::after_challenge))]
fn after_challenge<'a>(text: &'a [u8], ty: &str, challenge: &[u8]) -> Option<&'a [u8]>
    ensures { option_map (λ rest. rest.now) result ≡ after_challenge ty.now challenge.now text.now }
{
    let rest = after(text, b"{\"type\":")?;
    let rest = after_string(rest, ty)?;
    let rest = after(rest, b",\"challenge\":\"")?;
    let rest = after_base64url(rest, challenge)?;
    after(rest, b"\"")
}

/// Returns what follows the name `crossOrigin` and the members before it.
fn after_fixed_members<'a>(
    text: &'a [u8],
    ty: &str,
    challenge: &[u8],
    origin: &str,
) -> Option<&'a [u8]>
    ensures { option_map (λ rest. rest.now) result
        ≡ after_fixed_members ty.now challenge.now origin.now text.now }
{
    let rest = after_challenge(text, ty, challenge)?;
    let rest = after(rest, b",\"origin\":")?;
    let rest = after_string(rest, origin)?;
    after(rest, b",\"crossOrigin\":")
}

/// Returns what follows the member `topOrigin`, which may be absent unless it is required.
fn after_top_origin<'a>(text: &'a [u8], top_origin: &str, is_required: bool) -> Option<&'a [u8]>
    ensures { option_map (λ rest. rest.now) result
        ≡ after_top_origin is_required top_origin.now text.now }
{
    match after(text, b",\"topOrigin\":") {
        Some(rest) => after_string(rest, top_origin),
        None => if is_required { None } else { Some(text) },
    }
}

/// Returns what follows the value of `crossOrigin`, and `topOrigin` where one is expected.
fn after_cross_origin<'a>(
    text: &'a [u8],
    top_origin: Option<&str>,
    is_required: bool,
) -> Option<&'a [u8]>
    ensures { option_map (λ rest. rest.now) result
        ≡ after_cross_origin is_required (option_map (λ t. t.now) top_origin.entry) text.now }
{
    match top_origin {
        Some(top_origin) => after_top_origin(after(text, b"true")?, top_origin, is_required),
        None => after(text, b"false"),
    }
}

/// Returns whether the bytes begin as the client data that a client writes for this type
/// (`webauthn.create` or `webauthn.get`), these bytes of the challenge, this origin and this top
/// origin, without parsing JSON and without memory. Other members may follow. A top origin is
/// expected of a ceremony in a frame of another origin; if it isn't required, clients of WebAuthn
/// Level 2, which don't write it, pass too. (WebAuthn Level 3, section 5.8.1.2.)
pub fn is_client_data(
    bytes: &[u8],
    ty: &str,
    challenge: &[u8],
    origin: &str,
    top_origin: Option<&str>,
    requires_top_origin: bool,
) -> bool
    ensures { result ≡ is_client_data ty.now challenge.now origin.now
        (option_map (λ t. t.now) top_origin.entry) requires_top_origin bytes.now }
{
    let Some(rest) = after_fixed_members(bytes, ty, challenge, origin) else {
        return false;
    };
    match after_cross_origin(rest, top_origin, requires_top_origin) {
        Some([b'}' | b',', ..]) => true,
        _ => false,
    }
}
