//! What a relying party may require of an authenticator, decoded from JSON values and encoded.
ghost use Rattle.passkey_json.specs.Shape.{leaf};
ghost use Rattle.passkey_json.specs.declared.wanted.WantedJson.TheVariants as want;
ghost use Rattle.std.specs.Prelude.{Some};
ghost use Rattle.passkey_json.specs.Requirements.{attachment_name, attachment_own, attachment_value, attachments};
ghost use Rattle.passkey_json.specs.Requirements.{resident_key_name, resident_key_own, resident_key_value, resident_keys};
ghost use Rattle.passkey_json.specs.Requirements.{user_verification_name, user_verification_own, user_verification_value};
ghost use Rattle.passkey_json.specs.Requirements.{user_verifications};

use crate::blame::JsonBlame;
use crate::bytes_form::BytesForm;
use crate::dropped::DroppedValue;
use crate::from_json::FromJson;
use crate::json_refusal::JsonRefusal;
use crate::names::{read_name, written_name};
use crate::to_json::ToJson;
use crate::wanted::WantedJson;
use passkey_memory::OutOfMemory;
use passkey_webauthn::EnumNames;
use serde_json::Value;
use std::alloc::Global;
use std::fmt;

/// Authenticator attachment (WebAuthn Level 3, section 5.4.5).
#[derive(Clone, Copy, Debug, PartialEq, Eq)]
pub enum AuthenticatorAttachment {
    /// A platform authenticator, which can't be removed from the client device.
    Platform,
    /// A roaming authenticator, which can be used on other devices.
    CrossPlatform,
}

impl EnumNames for AuthenticatorAttachment {
    ghost table = { attachments };

    ghost name_is_own = { attachment_own };

    fn table() -> &'static [(&'static str, AuthenticatorAttachment)] {
        &[
            ("platform", AuthenticatorAttachment::Platform),
            ("cross-platform", AuthenticatorAttachment::CrossPlatform),
        ]
    }
}

impl fmt::Display for AuthenticatorAttachment {
    ghost output = { λ x. Some (attachment_name x) };

    /// The attachment's name in WebAuthn Level 3.
    fn fmt<W: fmt::Write>(&self, f: &mut fmt::Formatter<W>) -> fmt::Result {
        f.write_str(self.name())
    }
}

impl FromJson for AuthenticatorAttachment {
    ghost kind = { attachment_value.kind };

    ghost shape = { leaf want.Name };

    fn from_value(_alloc: Global, value: &Value) -> Result<AuthenticatorAttachment, JsonRefusal> {
        read_name(value)
    }

    fn blame(alloc: Global, _value: &Value) -> Result<JsonBlame, OutOfMemory> {
        Ok(JsonBlame::wanted(alloc, WantedJson::Name))
    }

    fn dropped(alloc: Global, _value: &Value) -> Result<Vec<DroppedValue>, OutOfMemory> {
        Ok(Vec::new(alloc))
    }
}

impl ToJson for AuthenticatorAttachment {
    ghost json = { attachment_value.json };

    fn to_json(&self, alloc: Global, _form: BytesForm) -> Result<Value, OutOfMemory> {
        written_name(alloc, *self)
    }
}

/// Whether the relying party wants a client-side discoverable credential (WebAuthn Level 3, section
/// 5.4.6).
#[derive(Clone, Copy, Debug, PartialEq, Eq)]
pub enum ResidentKeyRequirement {
    /// Discouraged, but a discoverable credential is accepted.
    Discouraged,
    /// Preferred, if the authenticator can create one.
    Preferred,
    /// Required: the client fails if no authenticator can create one.
    Required,
}

impl EnumNames for ResidentKeyRequirement {
    ghost table = { resident_keys };

    ghost name_is_own = { resident_key_own };

    fn table() -> &'static [(&'static str, ResidentKeyRequirement)] {
        &[
            ("discouraged", ResidentKeyRequirement::Discouraged),
            ("preferred", ResidentKeyRequirement::Preferred),
            ("required", ResidentKeyRequirement::Required),
        ]
    }
}

impl fmt::Display for ResidentKeyRequirement {
    ghost output = { λ x. Some (resident_key_name x) };

    /// The requirement's name in WebAuthn Level 3.
    fn fmt<W: fmt::Write>(&self, f: &mut fmt::Formatter<W>) -> fmt::Result {
        f.write_str(self.name())
    }
}

impl FromJson for ResidentKeyRequirement {
    ghost kind = { resident_key_value.kind };

    ghost shape = { leaf want.Name };

    fn from_value(_alloc: Global, value: &Value) -> Result<ResidentKeyRequirement, JsonRefusal> {
        read_name(value)
    }

    fn blame(alloc: Global, _value: &Value) -> Result<JsonBlame, OutOfMemory> {
        Ok(JsonBlame::wanted(alloc, WantedJson::Name))
    }

    fn dropped(alloc: Global, _value: &Value) -> Result<Vec<DroppedValue>, OutOfMemory> {
        Ok(Vec::new(alloc))
    }
}

impl ToJson for ResidentKeyRequirement {
    ghost json = { resident_key_value.json };

    fn to_json(&self, alloc: Global, _form: BytesForm) -> Result<Value, OutOfMemory> {
        written_name(alloc, *self)
    }
}

/// Whether the relying party wants user verification (WebAuthn Level 3, section 5.8.6).
#[derive(Clone, Copy, Debug, PartialEq, Eq)]
pub enum UserVerificationRequirement {
    /// Required: the ceremony fails if the response doesn't have the flag UV set.
    Required,
    /// Preferred: the ceremony doesn't fail without user verification.
    Preferred,
    /// Discouraged: the relying party prefers no user verification.
    Discouraged,
}

impl EnumNames for UserVerificationRequirement {
    ghost table = { user_verifications };

    ghost name_is_own = { user_verification_own };

    fn table() -> &'static [(&'static str, UserVerificationRequirement)] {
        &[
            ("required", UserVerificationRequirement::Required),
            ("preferred", UserVerificationRequirement::Preferred),
            ("discouraged", UserVerificationRequirement::Discouraged),
        ]
    }
}

impl fmt::Display for UserVerificationRequirement {
    ghost output = { λ x. Some (user_verification_name x) };

    /// The requirement's name in WebAuthn Level 3.
    fn fmt<W: fmt::Write>(&self, f: &mut fmt::Formatter<W>) -> fmt::Result {
        f.write_str(self.name())
    }
}

impl FromJson for UserVerificationRequirement {
    ghost kind = { user_verification_value.kind };

    ghost shape = { leaf want.Name };

    fn from_value(
        _alloc: Global,
        value: &Value,
    ) -> Result<UserVerificationRequirement, JsonRefusal> {
        read_name(value)
    }

    fn blame(alloc: Global, _value: &Value) -> Result<JsonBlame, OutOfMemory> {
        Ok(JsonBlame::wanted(alloc, WantedJson::Name))
    }

    fn dropped(alloc: Global, _value: &Value) -> Result<Vec<DroppedValue>, OutOfMemory> {
        Ok(Vec::new(alloc))
    }
}

impl ToJson for UserVerificationRequirement {
    ghost json = { user_verification_value.json };

    fn to_json(&self, alloc: Global, _form: BytesForm) -> Result<Value, OutOfMemory> {
        written_name(alloc, *self)
    }
}

impl Default for UserVerificationRequirement {
    ghost use Rattle.std.specs.Prelude.{◌≡◌};
    ghost use Rattle.passkey_json.specs.declared.requirements.UserVerificationRequirement.TheVariants.{Preferred};

    ghost is_default = { λ x. x ≡ Preferred };

    fn default() -> UserVerificationRequirement {
        UserVerificationRequirement::Preferred
    }
}
