//! authenticatorGetInfo responses of CTAP 2.3.
ghost use Rattle.std.specs.Prelude.{◌≡◌, ◌++◌, ℕ, is_ok, true, OnOk};
ghost use Rattle.passkey_kinds.specs.Placed.{members_of};
ghost use Rattle.passkey_kinds.specs.Words.{AllAccepted, EachFits, Item, Puts, cost_at, fields_with, keeps_at, places_of, put_all, shape_at};
ghost use Rattle.passkey_registered.specs.get_info.Information.{after_first, after_middle, first_members, information};
ghost use Rattle.passkey_registered.specs.get_info.Information.{last_members, middle_members, newest_members};

use crate::get_info::{CredentialParameters, Options};
use passkey_bytes::{Bytes, List, Text};
use passkey_core::Aaguid;
use passkey_kinds::{
    Kept, OutOfMemory, Refusal, Row, Sink, Source, TableMessage, TableRecord, set,
    set_accepted_or_none,
};
use std::alloc::Global;

/// An authenticatorGetInfo response with all members of CTAP 2.1 to 2.3 (section 6.4). Names are
/// kept as they came: of versions, extensions, transports and attestation statement formats; so are
/// the identifiers of algorithms. `None` means that the member is absent; null also decodes to
/// `None`.
#[derive(Debug, Drop)]
pub struct Response {
    /// 0x01: the supported versions, such as `FIDO_2_3` and `U2F_V2`.
    pub versions: List<Text>,
    /// 0x02: the identifiers of the supported extensions.
    pub extensions: Option<List<Text>>,
    /// 0x03: the AAGUID, 16 bytes.
    pub aaguid: Aaguid,
    /// 0x04: the options.
    pub options: Option<Options>,
    /// 0x05: the maximum size of a message, in bytes. If it is absent, platforms MUST NOT send more
    /// than 1024 bytes (section 8).
    pub max_msg_size: Option<u64>,
    /// 0x06: the supported PIN/UV auth protocols, the preferred first.
    pub pin_uv_auth_protocols: Option<List<u8>>,
    /// 0x07: the maximum number of credentials in a list of credential ids.
    pub max_credential_count_in_list: Option<u64>,
    /// 0x08: the maximum length of a credential id, in bytes.
    pub max_credential_id_length: Option<u64>,
    /// 0x09: the supported transports, such as `usb` and `smart-card`. Decoding drops what is no
    /// text.
    pub transports: Option<List<Text>>,
    /// 0x0A: the supported credential types and algorithms, the preferred first. Decoding drops
    /// elements that can't be decoded.
    pub algorithms: Option<List<CredentialParameters>>,
    /// 0x0B: the maximum size of the serialized large-blob array, in bytes.
    pub max_serialized_large_blob_array: Option<u64>,
    /// 0x0C: whether the PIN must be changed before a pinUvAuthToken is issued for it.
    pub force_pin_change: Option<bool>,
    /// 0x0D: the minimum PIN length, in Unicode code points.
    pub min_pin_length: Option<u64>,
    /// 0x0E: the firmware version.
    pub firmware_version: Option<u64>,
    /// 0x0F: the maximum length of a credBlob, in bytes.
    pub max_cred_blob_length: Option<u64>,
    /// 0x10: the maximum number of relying party ids that setMinPINLength takes.
    pub max_rpids_for_set_min_pin_length: Option<u64>,
    /// 0x11: how many attempts at built-in user verification the platform should make before it
    /// asks for a PIN.
    pub preferred_platform_uv_attempts: Option<u64>,
    /// 0x12: the user verification methods, as flags of FIDO's registry of predefined values.
    pub uv_modality: Option<u64>,
    /// 0x13: the authenticator's certifications, a map from their names to levels. Any data item
    /// but null is accepted and kept unchanged.
    pub certifications: Option<Kept>,
    /// 0x14: an estimate of how many more discoverable credentials can be stored.
    pub remaining_discoverable_credentials: Option<u64>,
    /// 0x15: the ids of the vendor's authenticatorConfig subcommands. Decoding drops elements that
    /// can't be decoded.
    pub vendor_prototype_config_commands: Option<List<u64>>,
    /// 0x16: the supported attestation statement formats. Decoding drops what is no text.
    pub attestation_formats: Option<List<Text>>,
    /// 0x17: the number of built-in user verifications since the last PIN entry.
    pub uv_count_since_last_pin_entry: Option<u64>,
    /// 0x18: whether authenticatorReset requires a long touch.
    pub long_touch_for_reset: Option<bool>,
    /// 0x19: the encrypted device identifier.
    pub enc_identifier: Option<Bytes>,
    /// 0x1A: the transports over which authenticatorReset is supported. Decoding drops what is no
    /// text.
    pub transports_for_reset: Option<List<Text>>,
    /// 0x1B: whether a PIN must meet a policy beyond the minimum length.
    pub pin_complexity_policy: Option<bool>,
    /// 0x1C: a URL that describes this policy, as bytes.
    pub pin_complexity_policy_url: Option<Bytes>,
    /// 0x1D: the maximum PIN length, in Unicode code points.
    pub max_pin_length: Option<u64>,
    /// 0x1E: the state of the credential store, encrypted: it changes as credentials do (CTAP 2.3).
    pub enc_cred_store_state: Option<Bytes>,
    /// 0x1F: the supported subcommands of authenticatorConfig (CTAP 2.3).
    pub authenticator_config_commands: Option<List<u8>>,
}

impl TableRecord for Response {
    ghost table = { information };

    ghost kept = { λ r. r.certifications };

    fn is_numbered() -> bool {
        true
    }

    fn rows() -> &'static [Row] {
        &[
            Row::Required(0x01, "versions"),
            Row::Optional(0x02, "extensions"),
            Row::Required(0x03, "aaguid"),
            Row::Optional(0x04, "options"),
            Row::Optional(0x05, "maxMsgSize"),
            Row::Aliased(0x06, "pinUvAuthProtocols", "pinProtocols"),
            Row::Optional(0x07, "maxCredentialCountInList"),
            Row::Optional(0x08, "maxCredentialIdLength"),
            Row::Optional(0x09, "transports"),
            Row::Optional(0x0a, "algorithms"),
            Row::Aliased(
                0x0b,
                "maxSerializedLargeBlobArray",
                "macSerializedLargeBlobArray",
            ),
            Row::Aliased(0x0c, "forcePINChange", "forcePinChange"),
            Row::Aliased(0x0d, "minPINLength", "minPinLength"),
            Row::Optional(0x0e, "firmwareVersion"),
            Row::Optional(0x0f, "maxCredBlobLength"),
            Row::Aliased(
                0x10,
                "maxRPIDsForSetMinPINLength",
                "maxRpidsForSetMinPinLength",
            ),
            Row::Optional(0x11, "preferredPlatformUvAttempts"),
            Row::Optional(0x12, "uvModality"),
            Row::Optional(0x13, "certifications"),
            Row::Optional(0x14, "remainingDiscoverableCredentials"),
            Row::Optional(0x15, "vendorPrototypeConfigCommands"),
            Row::Optional(0x16, "attestationFormats"),
            Row::Optional(0x17, "uvCountSinceLastPinEntry"),
            Row::Optional(0x18, "longTouchForReset"),
            Row::Optional(0x19, "encIdentifier"),
            Row::Optional(0x1a, "transportsForReset"),
            Row::Optional(0x1b, "pinComplexityPolicy"),
            Row::Aliased(0x1c, "pinComplexityPolicyURL", "pinComplexityPolicyUrl"),
            Row::Aliased(0x1d, "maxPINLength", "maxPinLength"),
            Row::Optional(0x1e, "encCredStoreState"),
            Row::Optional(0x1f, "authenticatorConfigCommands"),
        ]
    }

    fn blank(alloc: Global) -> Response {
        Response::empty(alloc)
    }

    fn put<S: Source>(&mut self, alloc: Global, number: u8, source: &mut S) -> Result<(), Refusal> {
        match number {
            0x01 => set(&mut self.versions, alloc, source),
            0x02 => set(&mut self.extensions, alloc, source),
            0x03 => set(&mut self.aaguid, alloc, source),
            0x04 => set(&mut self.options, alloc, source),
            0x05 => set(&mut self.max_msg_size, alloc, source),
            0x06 => set(&mut self.pin_uv_auth_protocols, alloc, source),
            0x07 => set(&mut self.max_credential_count_in_list, alloc, source),
            0x08 => set(&mut self.max_credential_id_length, alloc, source),
            _ => self.set_middle_member(alloc, number, source),
        }
    }

    #[tactic(auto, using(passkey_kinds::proofs::Sinks::accepted_both))]
    fn put_members<S: Sink>(&self, alloc: Global, sink: &mut S) -> Result<(), OutOfMemory> {
        self.put_first_members(alloc, sink)?;
        self.put_middle_members(alloc, sink)?;
        self.put_last_members(alloc, sink)?;
        self.put_newest_members(alloc, sink)?;
        Ok(())
    }

    #[tactic(auto, using(crate::proofs::Information::information_law))]
    fn lawful() {}
}

impl TableMessage for Response {
    ghost cost = { 8 };

    fn kept(&self) -> Option<&Kept> {
        self.certifications.as_ref()
    }

    #[tactic(auto, using(crate::proofs::Information::information_law))]
    fn is_message() {}
}

impl Response {
    /// Returns a response without versions, with an AAGUID of zeros, and with all other members
    /// absent. Allocates nothing.
    pub fn empty(alloc: Global) -> Response
        ensures { result ≡ information.blank }
    {
        Response {
            versions: List::empty(alloc),
            extensions: None,
            aaguid: Aaguid::new_empty(),
            options: None,
            max_msg_size: None,
            pin_uv_auth_protocols: None,
            max_credential_count_in_list: None,
            max_credential_id_length: None,
            transports: None,
            algorithms: None,
            max_serialized_large_blob_array: None,
            force_pin_change: None,
            min_pin_length: None,
            firmware_version: None,
            max_cred_blob_length: None,
            max_rpids_for_set_min_pin_length: None,
            preferred_platform_uv_attempts: None,
            uv_modality: None,
            certifications: None,
            remaining_discoverable_credentials: None,
            vendor_prototype_config_commands: None,
            attestation_formats: None,
            uv_count_since_last_pin_entry: None,
            long_touch_for_reset: None,
            enc_identifier: None,
            transports_for_reset: None,
            pin_complexity_policy: None,
            pin_complexity_policy_url: None,
            max_pin_length: None,
            enc_cred_store_state: None,
            authenticator_config_commands: None,
        }
    }

    /// Decodes the value of a row from 0x09 on.
    fn set_middle_member<S: Source>(
        &mut self,
        alloc: Global,
        number: u8,
        source: &mut S,
    ) -> Result<(), Refusal>
        ensures puts { (i : Item) (to : ℕ) → S.At source.old i to
            → Puts (fields_with true information.blank after_first) number i self.old self.new result }
        ensures spends { (i : Item) (to : ℕ) → S.At source.old i to → S.HasCost (cost_at (members_of after_first) number)
            (keeps_at (members_of after_first) number) (shape_at (members_of after_first) number) i to
            source.old source.new (is_ok result) }
        ensures onward { S.IsOnward source.old source.new }
        ensures further { OnOk result (S.IsFurther source.old source.new) }
    {
        match number {
            0x09 => set_accepted_or_none(&mut self.transports, alloc, source),
            0x0a => set_accepted_or_none(&mut self.algorithms, alloc, source),
            0x0b => set(&mut self.max_serialized_large_blob_array, alloc, source),
            0x0c => set(&mut self.force_pin_change, alloc, source),
            0x0d => set(&mut self.min_pin_length, alloc, source),
            0x0e => set(&mut self.firmware_version, alloc, source),
            0x0f => set(&mut self.max_cred_blob_length, alloc, source),
            0x10 => set(&mut self.max_rpids_for_set_min_pin_length, alloc, source),
            0x11 => set(&mut self.preferred_platform_uv_attempts, alloc, source),
            0x12 => set(&mut self.uv_modality, alloc, source),
            _ => self.set_last_member(alloc, number, source),
        }
    }

    /// Decodes the value of a row from 0x13 on.
    fn set_last_member<S: Source>(
        &mut self,
        alloc: Global,
        number: u8,
        source: &mut S,
    ) -> Result<(), Refusal>
        ensures puts { (i : Item) (to : ℕ) → S.At source.old i to
            → Puts (fields_with true information.blank after_middle) number i self.old self.new result }
        ensures spends { (i : Item) (to : ℕ) → S.At source.old i to → S.HasCost (cost_at (members_of after_middle) number)
            (keeps_at (members_of after_middle) number) (shape_at (members_of after_middle) number) i to
            source.old source.new (is_ok result) }
        ensures onward { S.IsOnward source.old source.new }
        ensures further { OnOk result (S.IsFurther source.old source.new) }
    {
        match number {
            0x13 => set(&mut self.certifications, alloc, source),
            0x14 => set(&mut self.remaining_discoverable_credentials, alloc, source),
            0x15 => set_accepted_or_none(&mut self.vendor_prototype_config_commands, alloc, source),
            0x16 => set_accepted_or_none(&mut self.attestation_formats, alloc, source),
            0x17 => set(&mut self.uv_count_since_last_pin_entry, alloc, source),
            0x18 => set(&mut self.long_touch_for_reset, alloc, source),
            0x19 => set(&mut self.enc_identifier, alloc, source),
            0x1a => set_accepted_or_none(&mut self.transports_for_reset, alloc, source),
            _ => self.set_newest_member(alloc, number, source),
        }
    }

    /// Decodes the value of a row from 0x1B on.
    fn set_newest_member<S: Source>(
        &mut self,
        alloc: Global,
        number: u8,
        source: &mut S,
    ) -> Result<(), Refusal>
        ensures puts { (i : Item) (to : ℕ) → S.At source.old i to
            → Puts (fields_with true information.blank newest_members) number i self.old self.new result }
        ensures spends { (i : Item) (to : ℕ) → S.At source.old i to → S.HasCost (cost_at (members_of newest_members) number)
            (keeps_at (members_of newest_members) number) (shape_at (members_of newest_members) number) i to
            source.old source.new (is_ok result) }
        ensures onward { S.IsOnward source.old source.new }
        ensures further { OnOk result (S.IsFurther source.old source.new) }
    {
        match number {
            0x1b => set(&mut self.pin_complexity_policy, alloc, source),
            0x1c => set(&mut self.pin_complexity_policy_url, alloc, source),
            0x1d => set(&mut self.max_pin_length, alloc, source),
            0x1e => set(&mut self.enc_cred_store_state, alloc, source),
            0x1f => set(&mut self.authenticator_config_commands, alloc, source),
            _ => Err(Refusal::Refused),
        }
    }

    fn put_first_members<S: Sink>(&self, alloc: Global, sink: &mut S) -> Result<(), OutOfMemory>
        ensures put { OnOk result
            (S.state sink.new ≡ put_all S.step (S.state sink.old) (places_of first_members self.now)) }
        ensures accepts { OnOk result (AllAccepted S.Accepts (places_of first_members self.now)) }
        ensures fits { OnOk result (S.Encodes → EachFits first_members self.now) }
    {
        sink.put(alloc, 0x01_u8, &self.versions)?;
        sink.put_some(alloc, 0x02_u8, &self.extensions)?;
        sink.put(alloc, 0x03_u8, &self.aaguid)?;
        sink.put_some(alloc, 0x04_u8, &self.options)?;
        sink.put_some(alloc, 0x05_u8, &self.max_msg_size)?;
        sink.put_some(alloc, 0x06_u8, &self.pin_uv_auth_protocols)?;
        sink.put_some(alloc, 0x07_u8, &self.max_credential_count_in_list)?;
        sink.put_some(alloc, 0x08_u8, &self.max_credential_id_length)?;
        Ok(())
    }

    fn put_middle_members<S: Sink>(&self, alloc: Global, sink: &mut S) -> Result<(), OutOfMemory>
        ensures put { OnOk result
            (S.state sink.new ≡ put_all S.step (S.state sink.old) (places_of middle_members self.now)) }
        ensures accepts { OnOk result (AllAccepted S.Accepts (places_of middle_members self.now)) }
        ensures fits { OnOk result (S.Encodes → EachFits middle_members self.now) }
    {
        sink.put_some(alloc, 0x09_u8, &self.transports)?;
        sink.put_some(alloc, 0x0a_u8, &self.algorithms)?;
        sink.put_some(alloc, 0x0b_u8, &self.max_serialized_large_blob_array)?;
        sink.put_some(alloc, 0x0c_u8, &self.force_pin_change)?;
        sink.put_some(alloc, 0x0d_u8, &self.min_pin_length)?;
        sink.put_some(alloc, 0x0e_u8, &self.firmware_version)?;
        sink.put_some(alloc, 0x0f_u8, &self.max_cred_blob_length)?;
        sink.put_some(alloc, 0x10_u8, &self.max_rpids_for_set_min_pin_length)?;
        sink.put_some(alloc, 0x11_u8, &self.preferred_platform_uv_attempts)?;
        sink.put_some(alloc, 0x12_u8, &self.uv_modality)?;
        Ok(())
    }

    fn put_last_members<S: Sink>(&self, alloc: Global, sink: &mut S) -> Result<(), OutOfMemory>
        ensures put { OnOk result
            (S.state sink.new ≡ put_all S.step (S.state sink.old) (places_of last_members self.now)) }
        ensures accepts { OnOk result (AllAccepted S.Accepts (places_of last_members self.now)) }
        ensures fits { OnOk result (S.Encodes → EachFits last_members self.now) }
    {
        sink.put_some(alloc, 0x13_u8, &self.certifications)?;
        sink.put_some(alloc, 0x14_u8, &self.remaining_discoverable_credentials)?;
        sink.put_some(alloc, 0x15_u8, &self.vendor_prototype_config_commands)?;
        sink.put_some(alloc, 0x16_u8, &self.attestation_formats)?;
        sink.put_some(alloc, 0x17_u8, &self.uv_count_since_last_pin_entry)?;
        sink.put_some(alloc, 0x18_u8, &self.long_touch_for_reset)?;
        sink.put_some(alloc, 0x19_u8, &self.enc_identifier)?;
        sink.put_some(alloc, 0x1a_u8, &self.transports_for_reset)?;
        Ok(())
    }

    fn put_newest_members<S: Sink>(&self, alloc: Global, sink: &mut S) -> Result<(), OutOfMemory>
        ensures put { OnOk result
            (S.state sink.new ≡ put_all S.step (S.state sink.old) (places_of newest_members self.now)) }
        ensures accepts { OnOk result (AllAccepted S.Accepts (places_of newest_members self.now)) }
        ensures fits { OnOk result (S.Encodes → EachFits newest_members self.now) }
    {
        sink.put_some(alloc, 0x1b_u8, &self.pin_complexity_policy)?;
        sink.put_some(alloc, 0x1c_u8, &self.pin_complexity_policy_url)?;
        sink.put_some(alloc, 0x1d_u8, &self.max_pin_length)?;
        sink.put_some(alloc, 0x1e_u8, &self.enc_cred_store_state)?;
        sink.put_some(alloc, 0x1f_u8, &self.authenticator_config_commands)?;
        Ok(())
    }
}
