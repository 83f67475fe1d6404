//! Credential types.
ghost use Rattle.std.specs.Prelude.{Some};
ghost use Rattle.passkey_webauthn.specs.CredentialType.{credential_type_name, credential_types};
ghost use Rattle.passkey_webauthn.specs.NameLaws.{credential_type_own};

use crate::names::EnumNames;
use std::fmt;

/// The type of a credential (WebAuthn Level 3, section 5.8.2).
#[derive(Clone, Copy, Debug, PartialEq, Eq)]
pub enum PublicKeyCredentialType {
    /// A public key credential.
    PublicKey,
    /// A type that this crate doesn't know.
    Unknown,
}

impl EnumNames for PublicKeyCredentialType {
    ghost table = { credential_types };

    ghost name_is_own = { credential_type_own };

    fn table() -> &'static [(&'static str, PublicKeyCredentialType)] {
        &[
            ("public-key", PublicKeyCredentialType::PublicKey),
            ("unknown", PublicKeyCredentialType::Unknown),
        ]
    }
}

impl fmt::Display for PublicKeyCredentialType {
    ghost output = { λ x. Some (credential_type_name x) };

    /// Writes the type's name.
    fn fmt<W: fmt::Write>(&self, f: &mut fmt::Formatter<W>) -> fmt::Result {
        f.write_str(self.name())
    }
}

impl Default for PublicKeyCredentialType {
    ghost use Rattle.std.specs.Prelude.{◌≡◌};
    ghost use Rattle.passkey_webauthn.specs.declared.credential_type.PublicKeyCredentialType.TheVariants.{Unknown};

    ghost is_default = { λ kind. kind ≡ Unknown };

    /// The unknown type.
    fn default() -> PublicKeyCredentialType {
        PublicKeyCredentialType::Unknown
    }
}
