//! Credential protection policies.
ghost use Rattle.std.specs.Prelude.{◌≡◌, ℕ, List, refl};
ghost use Rattle.passkey_commands.specs.credential_management.CredProtect.{cred_protect_byte, named_cred_protects};
ghost use Rattle.passkey_commands.specs.declared.credential_management.cred_protect.CredProtect.TheVariants.{Other};

use passkey_kinds::Code;

/// A credential protection policy, with its number (CTAP 2.1, section 12.1).
#[derive(Clone, Copy, Debug, PartialEq, Eq)]
pub enum CredProtect {
    /// 0x01: userVerificationOptional.
    UserVerificationOptional,
    /// 0x02: userVerificationOptionalWithCredentialIDList.
    UserVerificationOptionalWithCredentialIdList,
    /// 0x03: userVerificationRequired.
    UserVerificationRequired,
    /// Another number. If it is one of those above, its encoding decodes to that value.
    Other(u8),
}

impl Code for CredProtect {
    ghost byte_of = { cred_protect_byte };

    ghost named = { named_cred_protects };

    ghost other = { Other };

    ghost other_keeps = { λ n. refl };

    fn byte(&self) -> u8 {
        match self {
            CredProtect::UserVerificationOptional => 0x01,
            CredProtect::UserVerificationOptionalWithCredentialIdList => 0x02,
            CredProtect::UserVerificationRequired => 0x03,
            CredProtect::Other(byte) => *byte,
        }
    }

    fn named() -> &'static [CredProtect] {
        &[
            CredProtect::UserVerificationOptional,
            CredProtect::UserVerificationOptionalWithCredentialIdList,
            CredProtect::UserVerificationRequired,
        ]
    }

    fn other(byte: u8) -> CredProtect {
        CredProtect::Other(byte)
    }
}
