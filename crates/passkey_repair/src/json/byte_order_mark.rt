//! The byte order mark before client data.
ghost use Rattle.std.specs.Prelude.{◌≡◌};
ghost use Rattle.passkey_repair.specs.json.ByteOrderMark.{without_byte_order_mark};

/// Returns client data without the byte order mark in front, EF BB BF, if there is one. WebAuthn
/// Level 3, section 7.1, decodes client data by "UTF-8 decode", which drops it (Encoding Standard,
/// section 6); `CollectedClientData::from_slice` rejects it. The authenticator signs over all the
/// bytes, with the mark.
pub fn without_byte_order_mark(client_data: &[u8]) -> &[u8]
    ensures { result.now ≡ without_byte_order_mark client_data.now }
{
    match client_data {
        [0xEF, 0xBB, 0xBF, text @ ..] => text,
        _ => client_data,
    }
}
