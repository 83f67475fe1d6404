//! Extensions that an authenticator supports.
ghost use Rattle.std.specs.Prelude.{◌≡◌, true, Some};
ghost use Rattle.passkey_kinds.specs.Words.{text_as};
ghost use Rattle.passkey_ctap2.specs.GetInfo.{extension_name, extension_named, extension, extension_tree, normal_extension};
ghost use Rattle.passkey_ctap2.specs.declared.get_info.extension.Extension.{Extension as Told};

use passkey_bytes::Text;
use passkey_cbor::{Cursor, Encoder, Value};
use passkey_kinds::{
    Form, FromCbor, FromText, Look, ReadBack, Refusal, ToCbor, Wanted, looked, read_text_value,
};
use passkey_memory::OutOfMemory;
use std::alloc::Global;
use std::fmt;

/// An extension that an authenticator supports (CTAP 2.1, section 6.4).
#[derive(Debug, Drop, PartialEq, Eq)]
pub enum Extension {
    /// `hmac-secret` (CTAP 2.1, section 12.5).
    HmacSecret,
    /// `hmac-secret-mc`: hmac-secret at registration (CTAP 2.2).
    HmacSecretMakeCredential,
    /// `prf` (WebAuthn Level 3, section 10.1.4).
    Prf,
    /// Another name. If it is one of the names above, its encoding decodes to that extension.
    Unknown(Text),
}

impl Extension {
    fn name(&self) -> &str
        ensures { result.now ≡ extension_name self.now }
    {
        match self {
            Extension::HmacSecret => "hmac-secret",
            Extension::HmacSecretMakeCredential => "hmac-secret-mc",
            Extension::Prf => "prf",
            Extension::Unknown(name) => name.as_str(),
        }
    }
}

impl fmt::Display for Extension {
    ghost output = { λ e. Some (extension_name e) };

    /// The extension's identifier in authenticatorGetInfo responses.
    fn fmt<W: fmt::Write>(&self, f: &mut fmt::Formatter<W>) -> fmt::Result {
        f.write_str(self.name())
    }
}

impl FromText for Extension {
    ghost of_text = { extension_named };

    fn from_text(alloc: Global, text: &str) -> Result<Extension, OutOfMemory> {
        match text {
            "hmac-secret" => Ok(Extension::HmacSecret),
            "hmac-secret-mc" => Ok(Extension::HmacSecretMakeCredential),
            "prf" => Ok(Extension::Prf),
            _ => Ok(Extension::Unknown(Text::from_str(alloc, text)?)),
        }
    }
}

impl FromCbor for Extension {
    ghost view = { λ e. e };

    ghost typed = { text_as extension };

    fn from_value(alloc: Global, value: &Value) -> Result<Extension, Refusal> {
        match value {
            Value::Text(name) => Ok(Extension::from_text(alloc, name.as_str())?),
            _ => Err(Refusal::Refused),
        }
    }

    fn read(alloc: Global, cursor: &mut Cursor<'_>) -> Result<Extension, Refusal> {
        read_text_value(alloc, cursor)
    }

    fn look(alloc: Global, _way: &[u8], value: &Value) -> Result<Look, OutOfMemory> {
        looked(
            Extension::from_value(alloc, value),
            Form::Leaf(Wanted::Text),
        )
    }
}

impl ToCbor for Extension {
    ghost tree = { extension_tree };

    fn to_value(&self, alloc: Global) -> Result<Value, OutOfMemory> {
        self.name().to_value(alloc)
    }

    fn append(&self, _alloc: Global, encoder: &mut Encoder) -> Result<(), OutOfMemory> {
        encoder.text_string(self.name())
    }
}

impl ReadBack for Extension {
    ghost normal = { normal_extension };

    #[tactic(auto, using(crate::proofs::GetInfos::extension_back))]
    fn read_back() {}
}
