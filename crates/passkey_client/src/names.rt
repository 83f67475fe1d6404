//! Names of credential protection policies and of mediation.
ghost use Rattle.std.specs.Prelude.{Some};
ghost use Rattle.passkey_client.specs.Names.{mediation_name, mediation_own, mediation_value, mediations, policies, policy_name, policy_own, policy_value};
ghost use Rattle.passkey_json.specs.Shape.{leaf};
ghost use Rattle.passkey_json.specs.declared.wanted.WantedJson.TheVariants.{Name};

use passkey_json::{
    BytesForm, DroppedValue, FromJson, JsonBlame, JsonRefusal, ToJson, WantedJson, read_name,
    written_name,
};
use passkey_memory::OutOfMemory;
use passkey_webauthn::EnumNames;
use serde_json::Value;
use std::alloc::Global;
use std::fmt;

/// A credential protection policy, as a client extension names it (CTAP 2.1, section 12.1).
#[derive(Clone, Copy, Debug, PartialEq, Eq)]
pub enum CredentialProtectionPolicy {
    /// The credential can be used without user verification.
    UserVerificationOptional,
    /// It can be used without user verification where its credential id is given.
    UserVerificationOptionalWithCredentialIdList,
    /// It can be used only with user verification.
    UserVerificationRequired,
}

impl EnumNames for CredentialProtectionPolicy {
    ghost table = { policies };

    ghost name_is_own = { policy_own };

    fn table() -> &'static [(&'static str, CredentialProtectionPolicy)] {
        &[
            (
                "userVerificationOptional",
                CredentialProtectionPolicy::UserVerificationOptional,
            ),
            (
                "userVerificationOptionalWithCredentialIDList",
                CredentialProtectionPolicy::UserVerificationOptionalWithCredentialIdList,
            ),
            (
                "userVerificationRequired",
                CredentialProtectionPolicy::UserVerificationRequired,
            ),
        ]
    }
}

impl fmt::Display for CredentialProtectionPolicy {
    ghost output = { λ x. Some (policy_name x) };

    /// The name in the standard.
    fn fmt<W: fmt::Write>(&self, f: &mut fmt::Formatter<W>) -> fmt::Result {
        f.write_str(self.name())
    }
}

impl FromJson for CredentialProtectionPolicy {
    ghost kind = { policy_value.kind };

    ghost shape = { leaf Name };

    fn from_value(
        _alloc: Global,
        value: &Value,
    ) -> Result<CredentialProtectionPolicy, JsonRefusal> {
        read_name(value)
    }

    fn blame(alloc: Global, _value: &Value) -> Result<JsonBlame, OutOfMemory> {
        Ok(JsonBlame::wanted(alloc, WantedJson::Name))
    }

    fn dropped(alloc: Global, _value: &Value) -> Result<Vec<DroppedValue>, OutOfMemory> {
        Ok(Vec::new(alloc))
    }
}

impl ToJson for CredentialProtectionPolicy {
    ghost json = { policy_value.json };

    fn to_json(&self, alloc: Global, _form: BytesForm) -> Result<Value, OutOfMemory> {
        written_name(alloc, *self)
    }
}

/// How far the client may ask the user (Credential Management Level 1, section 2.3.2).
#[derive(Clone, Copy, Debug, PartialEq, Eq)]
pub enum CredentialMediationRequirement {
    /// Nothing may be shown to the user.
    Silent,
    /// What is needed may be shown. This is the default.
    Optional,
    /// The user must be asked.
    Required,
    /// Credentials are offered where the user looks at a form, and nothing is shown if there are
    /// none.
    Conditional,
}

impl EnumNames for CredentialMediationRequirement {
    ghost table = { mediations };

    ghost name_is_own = { mediation_own };

    fn table() -> &'static [(&'static str, CredentialMediationRequirement)] {
        &[
            ("silent", CredentialMediationRequirement::Silent),
            ("optional", CredentialMediationRequirement::Optional),
            ("required", CredentialMediationRequirement::Required),
            ("conditional", CredentialMediationRequirement::Conditional),
        ]
    }
}

impl fmt::Display for CredentialMediationRequirement {
    ghost output = { λ x. Some (mediation_name x) };

    /// The name in the standard.
    fn fmt<W: fmt::Write>(&self, f: &mut fmt::Formatter<W>) -> fmt::Result {
        f.write_str(self.name())
    }
}

impl FromJson for CredentialMediationRequirement {
    ghost kind = { mediation_value.kind };

    ghost shape = { leaf Name };

    fn from_value(
        _alloc: Global,
        value: &Value,
    ) -> Result<CredentialMediationRequirement, JsonRefusal> {
        read_name(value)
    }

    fn blame(alloc: Global, _value: &Value) -> Result<JsonBlame, OutOfMemory> {
        Ok(JsonBlame::wanted(alloc, WantedJson::Name))
    }

    fn dropped(alloc: Global, _value: &Value) -> Result<Vec<DroppedValue>, OutOfMemory> {
        Ok(Vec::new(alloc))
    }
}

impl ToJson for CredentialMediationRequirement {
    ghost json = { mediation_value.json };

    fn to_json(&self, alloc: Global, _form: BytesForm) -> Result<Value, OutOfMemory> {
        written_name(alloc, *self)
    }
}
