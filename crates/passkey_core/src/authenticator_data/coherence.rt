//! Whether the encoding of authenticator data decodes to the data.
ghost use Rattle.std.specs.Prelude.{◌≡◌, option_map};
ghost use Rattle.passkey_cbor.specs.View.{item_of};
ghost use Rattle.passkey_cose.specs.KeyReadable.{is_key_readable};
ghost use Rattle.passkey_core.specs.Coherent.{are_extensions_readable, agrees, is_coherent};
ghost use Rattle.passkey_core.specs.DataParts.{AttestedParts};
ghost use Rattle.passkey_core.specs.DataViews.{attested_parts, data_parts};

use crate::attested::AttestedCredentialData;
use crate::authenticator_data::AuthenticatorData;
use crate::flags::Flags;
use passkey_cbor::{MAX_DEPTH, Value};

fn are_extensions_readable(extensions: &Value) -> bool
    ensures { result ≡ are_extensions_readable (item_of extensions.now) }
{
    match extensions {
        Value::Map(_) => extensions.depth() <= MAX_DEPTH,
        _ => false,
    }
}

fn attested_agrees(flagged: bool, attested: &Option<AttestedCredentialData>) -> bool
    ensures { result
        ≡ agrees (λ (a : AttestedParts). is_key_readable a.key) flagged (option_map attested_parts attested.now) }
{
    match attested {
        Some(attested) => flagged && attested.key.is_readable(),
        None => !flagged,
    }
}

fn extensions_agree(flagged: bool, extensions: &Option<Value>) -> bool
    ensures { result ≡ agrees are_extensions_readable flagged (option_map item_of extensions.now) }
{
    match extensions {
        Some(extensions) => flagged && are_extensions_readable(extensions),
        None => !flagged,
    }
}

impl AuthenticatorData {
    /// Whether the bytes that `to_vec` returns decode to this data: AT and ED are set exactly if
    /// attested credential data and extensions are present, bits 1 and 5 of the flags are clear,
    /// the key's type isn't the reserved number 0, the extensions are a map, and the key and the
    /// extensions have at most 256 levels each. Allocates nothing.
    pub fn is_coherent(&self) -> bool
        ensures { result ≡ is_coherent (data_parts self.now) }
    {
        let has_attested = bitflags::Flags::contains(&self.flags, Flags::AT);
        let has_extensions = bitflags::Flags::contains(&self.flags, Flags::ED);
        Flags::try_from(u8::from(self.flags)).is_ok()
            && attested_agrees(has_attested, &self.attested_credential_data)
            && extensions_agree(has_extensions, &self.extensions)
    }
}
