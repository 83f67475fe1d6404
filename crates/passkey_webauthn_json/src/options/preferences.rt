//! What a relying party prefers, decoded from JSON values and encoded.
ghost use Rattle.std.specs.Prelude.{Some};
ghost use Rattle.passkey_webauthn_json.specs.options.Preferences.{conveyance_name, conveyance_own, conveyance_value, conveyances};
ghost use Rattle.passkey_webauthn_json.specs.options.Preferences.{format_name, format_own, format_value, formats, hint_name};
ghost use Rattle.passkey_webauthn_json.specs.options.Preferences.{hint_own, hint_value, hints};
ghost use Rattle.passkey_json.specs.Shape.{leaf};
ghost use Rattle.passkey_json.specs.declared.wanted.WantedJson.TheVariants.{Name};

use passkey_json::{
    BytesForm, DroppedValue, FromJson, JsonBlame, JsonRefusal, ToJson, WantedJson, read_name,
    written_name,
};
use passkey_memory::OutOfMemory;
use passkey_webauthn::EnumNames;
use serde_json::Value;
use std::alloc::Global;
use std::fmt;

/// Which kind of authenticator the user will probably use (WebAuthn Level 3, section 5.8.8).
#[derive(Clone, Copy, Debug, PartialEq, Eq)]
pub enum PublicKeyCredentialHints {
    /// A physical security key.
    SecurityKey,
    /// A platform authenticator on the client's device.
    ClientDevice,
    /// A general-purpose authenticator, such as a phone.
    Hybrid,
}

impl EnumNames for PublicKeyCredentialHints {
    ghost table = { hints };

    ghost name_is_own = { hint_own };

    fn table() -> &'static [(&'static str, PublicKeyCredentialHints)] {
        &[
            ("security-key", PublicKeyCredentialHints::SecurityKey),
            ("client-device", PublicKeyCredentialHints::ClientDevice),
            ("hybrid", PublicKeyCredentialHints::Hybrid),
        ]
    }
}

impl fmt::Display for PublicKeyCredentialHints {
    ghost output = { λ x. Some (hint_name x) };

    /// The hint's name in WebAuthn Level 3.
    fn fmt<W: fmt::Write>(&self, f: &mut fmt::Formatter<W>) -> fmt::Result {
        f.write_str(self.name())
    }
}

impl FromJson for PublicKeyCredentialHints {
    ghost kind = { hint_value.kind };

    ghost shape = { leaf Name };

    fn from_value(_alloc: Global, value: &Value) -> Result<PublicKeyCredentialHints, JsonRefusal> {
        read_name(value)
    }

    fn blame(alloc: Global, _value: &Value) -> Result<JsonBlame, OutOfMemory> {
        Ok(JsonBlame::wanted(alloc, WantedJson::Name))
    }

    fn dropped(alloc: Global, _value: &Value) -> Result<Vec<DroppedValue>, OutOfMemory> {
        Ok(Vec::new(alloc))
    }
}

impl ToJson for PublicKeyCredentialHints {
    ghost json = { hint_value.json };

    fn to_json(&self, alloc: Global, _form: BytesForm) -> Result<Value, OutOfMemory> {
        written_name(alloc, *self)
    }
}

/// Which attestation the relying party wants (WebAuthn Level 3, section 5.4.7).
#[derive(Clone, Copy, Debug, PartialEq, Eq)]
pub enum AttestationConveyancePreference {
    /// No attestation.
    None,
    /// A verifiable attestation, which the client may replace by an anonymous one.
    Indirect,
    /// The attestation from the authenticator, unchanged.
    Direct,
    /// An attestation that may identify the authenticator, within an enterprise.
    Enterprise,
}

impl EnumNames for AttestationConveyancePreference {
    ghost table = { conveyances };

    ghost name_is_own = { conveyance_own };

    fn table() -> &'static [(&'static str, AttestationConveyancePreference)] {
        &[
            ("none", AttestationConveyancePreference::None),
            ("indirect", AttestationConveyancePreference::Indirect),
            ("direct", AttestationConveyancePreference::Direct),
            ("enterprise", AttestationConveyancePreference::Enterprise),
        ]
    }
}

impl fmt::Display for AttestationConveyancePreference {
    ghost output = { λ x. Some (conveyance_name x) };

    /// The preference's name in WebAuthn Level 3.
    fn fmt<W: fmt::Write>(&self, f: &mut fmt::Formatter<W>) -> fmt::Result {
        f.write_str(self.name())
    }
}

impl FromJson for AttestationConveyancePreference {
    ghost kind = { conveyance_value.kind };

    ghost shape = { leaf Name };

    fn from_value(
        _alloc: Global,
        value: &Value,
    ) -> Result<AttestationConveyancePreference, JsonRefusal> {
        read_name(value)
    }

    fn blame(alloc: Global, _value: &Value) -> Result<JsonBlame, OutOfMemory> {
        Ok(JsonBlame::wanted(alloc, WantedJson::Name))
    }

    fn dropped(alloc: Global, _value: &Value) -> Result<Vec<DroppedValue>, OutOfMemory> {
        Ok(Vec::new(alloc))
    }
}

impl ToJson for AttestationConveyancePreference {
    ghost json = { conveyance_value.json };

    fn to_json(&self, alloc: Global, _form: BytesForm) -> Result<Value, OutOfMemory> {
        written_name(alloc, *self)
    }
}

impl Default for AttestationConveyancePreference {
    ghost use Rattle.std.specs.Prelude.{◌≡◌};
    ghost use Rattle.passkey_webauthn_json.specs.declared.options.preferences.AttestationConveyancePreference.TheVariants.{None as NoAttestation};

    ghost is_default = { λ x. x ≡ NoAttestation };

    fn default() -> AttestationConveyancePreference {
        AttestationConveyancePreference::None
    }
}

/// An attestation statement format (WebAuthn Level 3, section 8.1).
#[derive(Clone, Copy, Debug, PartialEq, Eq)]
pub enum AttestationStatementFormatIdentifiers {
    /// packed, a format for WebAuthn (section 8.2).
    Packed,
    /// tpm, for trusted platform modules (section 8.3).
    Tpm,
    /// android-key, for Android's key store (section 8.4).
    AndroidKey,
    /// android-safetynet (section 8.5).
    AndroidSafetynet,
    /// fido-u2f (section 8.6).
    FidoU2f,
    /// apple, for anonymous attestation by Apple (section 8.8).
    Apple,
    /// none, without a statement (section 8.7).
    None,
}

impl EnumNames for AttestationStatementFormatIdentifiers {
    ghost table = { formats };

    ghost name_is_own = { format_own };

    fn table() -> &'static [(&'static str, AttestationStatementFormatIdentifiers)] {
        &[
            ("packed", AttestationStatementFormatIdentifiers::Packed),
            ("tpm", AttestationStatementFormatIdentifiers::Tpm),
            (
                "android-key",
                AttestationStatementFormatIdentifiers::AndroidKey,
            ),
            (
                "android-safetynet",
                AttestationStatementFormatIdentifiers::AndroidSafetynet,
            ),
            ("fido-u2f", AttestationStatementFormatIdentifiers::FidoU2f),
            ("apple", AttestationStatementFormatIdentifiers::Apple),
            ("none", AttestationStatementFormatIdentifiers::None),
        ]
    }
}

impl fmt::Display for AttestationStatementFormatIdentifiers {
    ghost output = { λ x. Some (format_name x) };

    /// The format's identifier in WebAuthn Level 3.
    fn fmt<W: fmt::Write>(&self, f: &mut fmt::Formatter<W>) -> fmt::Result {
        f.write_str(self.name())
    }
}

impl FromJson for AttestationStatementFormatIdentifiers {
    ghost kind = { format_value.kind };

    ghost shape = { leaf Name };

    fn from_value(
        _alloc: Global,
        value: &Value,
    ) -> Result<AttestationStatementFormatIdentifiers, JsonRefusal> {
        read_name(value)
    }

    fn blame(alloc: Global, _value: &Value) -> Result<JsonBlame, OutOfMemory> {
        Ok(JsonBlame::wanted(alloc, WantedJson::Name))
    }

    fn dropped(alloc: Global, _value: &Value) -> Result<Vec<DroppedValue>, OutOfMemory> {
        Ok(Vec::new(alloc))
    }
}

impl ToJson for AttestationStatementFormatIdentifiers {
    ghost json = { format_value.json };

    fn to_json(&self, alloc: Global, _form: BytesForm) -> Result<Value, OutOfMemory> {
        written_name(alloc, *self)
    }
}

impl Default for AttestationStatementFormatIdentifiers {
    ghost use Rattle.std.specs.Prelude.{◌≡◌};
    ghost use Rattle.passkey_webauthn_json.specs.declared.options.preferences.AttestationStatementFormatIdentifiers.TheVariants.{None as NoStatement};

    ghost is_default = { λ x. x ≡ NoStatement };

    fn default() -> AttestationStatementFormatIdentifiers {
        AttestationStatementFormatIdentifiers::None
    }
}
