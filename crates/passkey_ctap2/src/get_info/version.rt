//! Versions of CTAP that an authenticator supports.
ghost use Rattle.std.specs.Prelude.{◌≡◌, true, Some};
ghost use Rattle.passkey_kinds.specs.Words.{text_as};
ghost use Rattle.passkey_ctap2.specs.GetInfo.{version_name, version_named, version, version_tree, normal_version};
ghost use Rattle.passkey_ctap2.specs.declared.get_info.version.Version.{Version as Told};

use passkey_bytes::Text;
use passkey_cbor::{Cursor, Encoder, Value};
use passkey_kinds::{
    Form, FromCbor, FromText, Look, ReadBack, Refusal, ToCbor, Wanted, looked, read_text_value,
};
use passkey_memory::OutOfMemory;
use std::alloc::Global;
use std::fmt;

/// A version of CTAP that an authenticator supports (CTAP 2.1, section 6.4).
#[derive(Debug, Drop, PartialEq, Eq)]
pub enum Version {
    /// CTAP 2.0.
    FIDO_2_0,
    /// CTAP 2.1.
    FIDO_2_1,
    /// Another name. If it is one of the names above, its encoding decodes to that version.
    Unknown(Text),
}

impl Version {
    fn name(&self) -> &str
        ensures { result.now ≡ version_name self.now }
    {
        match self {
            Version::FIDO_2_0 => "FIDO_2_0",
            Version::FIDO_2_1 => "FIDO_2_1",
            Version::Unknown(name) => name.as_str(),
        }
    }
}

impl fmt::Display for Version {
    ghost output = { λ v. Some (version_name v) };

    /// The version's name in authenticatorGetInfo responses.
    fn fmt<W: fmt::Write>(&self, f: &mut fmt::Formatter<W>) -> fmt::Result {
        f.write_str(self.name())
    }
}

impl FromText for Version {
    ghost of_text = { version_named };

    fn from_text(alloc: Global, text: &str) -> Result<Version, OutOfMemory> {
        match text {
            "FIDO_2_0" => Ok(Version::FIDO_2_0),
            "FIDO_2_1" => Ok(Version::FIDO_2_1),
            _ => Ok(Version::Unknown(Text::from_str(alloc, text)?)),
        }
    }
}

impl FromCbor for Version {
    ghost view = { λ v. v };

    ghost typed = { text_as version };

    fn from_value(alloc: Global, value: &Value) -> Result<Version, Refusal> {
        match value {
            Value::Text(name) => Ok(Version::from_text(alloc, name.as_str())?),
            _ => Err(Refusal::Refused),
        }
    }

    fn read(alloc: Global, cursor: &mut Cursor<'_>) -> Result<Version, Refusal> {
        read_text_value(alloc, cursor)
    }

    fn look(alloc: Global, _way: &[u8], value: &Value) -> Result<Look, OutOfMemory> {
        looked(Version::from_value(alloc, value), Form::Leaf(Wanted::Text))
    }
}

impl ToCbor for Version {
    ghost tree = { version_tree };

    fn to_value(&self, alloc: Global) -> Result<Value, OutOfMemory> {
        self.name().to_value(alloc)
    }

    fn append(&self, _alloc: Global, encoder: &mut Encoder) -> Result<(), OutOfMemory> {
        encoder.text_string(self.name())
    }
}

impl ReadBack for Version {
    ghost normal = { normal_version };

    #[tactic(auto, using(crate::proofs::GetInfos::version_back))]
    fn read_back() {}
}
