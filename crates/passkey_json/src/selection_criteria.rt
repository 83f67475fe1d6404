//! Authenticator selection criteria, decoded from JSON objects and encoded.
ghost use Rattle.std.specs.Prelude.{◌≡◌};
ghost use Rattle.passkey_json.specs.SelectionCriteria.{any_authenticator, selection_criteria};

use crate::json_encoder::{EncodeResult, JsonEncoder};
use crate::json_fault::JsonFault;
use crate::member::{Member, place};
use crate::plain_json_record::PlainJsonRecord;
use crate::requirements::{
    AuthenticatorAttachment, ResidentKeyRequirement, UserVerificationRequirement,
};
use crate::row::Row;
use crate::truth_text::TruthText;
use std::alloc::Global;

/// The relying party's requirements for the authenticator that creates the credential (WebAuthn
/// Level 3, section 5.4.4).
#[derive(Debug, Drop)]
pub struct AuthenticatorSelectionCriteria {
    /// The attachment; `None` means the member is absent, and that any attachment is allowed.
    /// Decoding ignores an unknown value.
    pub authenticator_attachment: Option<AuthenticatorAttachment>,
    /// Whether the relying party wants a discoverable credential; `None` means the member is
    /// absent, and then it is `required` if `require_resident_key` is true, and else `discouraged`.
    /// Decoding ignores an unknown value.
    pub resident_key: Option<ResidentKeyRequirement>,
    /// The same for clients of WebAuthn Level 1: a relying party should set it to true exactly if
    /// `resident_key` is `required`. An absent member decodes to false.
    pub require_resident_key: bool,
    /// Whether the relying party wants user verification. An absent or unknown value decodes to
    /// `Preferred`.
    pub user_verification: UserVerificationRequirement,
}

impl Default for AuthenticatorSelectionCriteria {
    ghost is_default = { λ x. x ≡ any_authenticator };

    /// Returns criteria for any authenticator, with user verification preferred.
    fn default() -> AuthenticatorSelectionCriteria {
        AuthenticatorSelectionCriteria {
            authenticator_attachment: None,
            resident_key: None,
            require_resident_key: false,
            user_verification: UserVerificationRequirement::Preferred,
        }
    }
}

impl PlainJsonRecord for AuthenticatorSelectionCriteria {
    ghost table = { selection_criteria };

    fn rows() -> &'static [Row] {
        &[
            Row::Named(1, "authenticatorAttachment"),
            Row::Named(2, "residentKey"),
            Row::Named(3, "requireResidentKey"),
            Row::Named(4, "userVerification"),
        ]
    }

    fn blank(_alloc: Global) -> AuthenticatorSelectionCriteria {
        AuthenticatorSelectionCriteria::default()
    }

    fn put(&mut self, number: u8, member: &mut Member<'_>) -> Result<(), JsonFault> {
        match number {
            1 => place(&mut self.authenticator_attachment, member.tolerated(None)),
            2 => place(&mut self.resident_key, member.tolerated(None)),
            3 => {
                self.require_resident_key = member.or_default(TruthText(false))?.get();
                Ok(())
            }
            4 => place(
                &mut self.user_verification,
                member.tolerated(UserVerificationRequirement::Preferred),
            ),
            _ => Ok(()),
        }
    }

    fn encode(&self, number: u8, encoder: JsonEncoder) -> EncodeResult {
        match number {
            1 => encoder.optional(&self.authenticator_attachment),
            2 => encoder.optional(&self.resident_key),
            3 => encoder.value(&TruthText(self.require_resident_key)),
            4 => encoder.value(&self.user_verification),
            _ => Ok(None),
        }
    }
}
