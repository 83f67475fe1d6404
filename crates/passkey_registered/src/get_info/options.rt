//! Options of authenticatorGetInfo responses.
ghost use Rattle.std.specs.Prelude.{◌≡◌, OnOk};
ghost use Rattle.passkey_kinds.specs.Words.{places_of, AllAccepted, put_all};
ghost use Rattle.passkey_registered.specs.get_info.Options.{first_options, last_options, options};

use passkey_kinds::{OutOfMemory, PlainRecord, Refusal, Row, Sink, Source, set};
use std::alloc::Global;

/// The options of an authenticatorGetInfo response: what the authenticator supports, and how it is
/// configured (CTAP 2.3, section 6.4). `None` means that the option is absent, so that its default
/// counts; where none is named, the authenticator doesn't support the feature. Null also decodes to
/// `None`.
#[derive(Debug, Default, Drop, PartialEq, Eq)]
pub struct Options {
    /// `ep`: whether enterprise attestation is enabled, if it supports that.
    pub ep: Option<bool>,
    /// `rk`: whether it can create discoverable credentials. The default is false.
    pub rk: Option<bool>,
    /// `up`: whether it can test user presence. The default is true.
    pub up: Option<bool>,
    /// `uv`: whether its built-in user verification is configured, if it has one.
    pub uv: Option<bool>,
    /// `plat`: whether it is a platform authenticator, which can't be removed from the client
    /// device. The default is false.
    pub plat: Option<bool>,
    /// `uvAcfg`: whether built-in user verification can grant the permission for
    /// authenticatorConfig.
    pub uv_acfg: Option<bool>,
    /// `alwaysUv`: whether user verification is always required, if the authenticator supports this
    /// setting.
    pub always_uv: Option<bool>,
    /// `credMgmt`: whether it supports authenticatorCredentialManagement.
    pub cred_mgmt: Option<bool>,
    /// `authnrCfg`: whether it supports authenticatorConfig.
    pub authnr_cfg: Option<bool>,
    /// `bioEnroll`: whether a biometric template is enrolled, if it supports
    /// authenticatorBioEnrollment.
    pub bio_enroll: Option<bool>,
    /// `clientPin`: whether a PIN is set, if it supports PINs.
    pub client_pin: Option<bool>,
    /// `largeBlobs`: whether it supports authenticatorLargeBlobs.
    pub large_blobs: Option<bool>,
    /// `uvBioEnroll`: whether built-in user verification can grant the permission to enroll
    /// templates.
    pub uv_bio_enroll: Option<bool>,
    /// `perCredMgmtRO`: whether it issues pinUvAuthTokens with the persistent permission to read
    /// what authenticatorCredentialManagement returns (CTAP 2.2).
    pub per_cred_mgmt_ro: Option<bool>,
    /// `pinUvAuthToken`: whether it issues pinUvAuthTokens with permissions.
    pub pin_uv_auth_token: Option<bool>,
    /// `setMinPINLength`: whether it supports the subcommand setMinPINLength.
    pub set_min_pin_length: Option<bool>,
    /// `makeCredUvNotRqd`: whether it creates non-discoverable credentials without user
    /// verification.
    pub make_cred_uv_not_rqd: Option<bool>,
    /// `credentialMgmtPreview`: the same as `credMgmt`, for the prototype command of
    /// `FIDO_2_1_PRE`.
    pub credential_mgmt_preview: Option<bool>,
    /// `userVerificationMgmtPreview`: the same as `bioEnroll`, for the prototype command of
    /// `FIDO_2_1_PRE`.
    pub user_verification_mgmt_preview: Option<bool>,
    /// `noMcGaPermissionsWithClientPin`: whether a pinUvAuthToken that was obtained by PIN can't
    /// have the permissions for authenticatorMakeCredential and authenticatorGetAssertion.
    pub no_mc_ga_permissions_with_client_pin: Option<bool>,
}

impl Options {
    fn put_first<S: Sink>(&self, alloc: Global, sink: &mut S) -> Result<(), OutOfMemory>
        ensures put { OnOk result (S.state sink.new ≡ put_all S.step (S.state sink.old) (places_of first_options self.now)) }
        ensures accepts { OnOk result (AllAccepted S.Accepts (places_of first_options self.now)) }
    {
        sink.put_some(alloc, "ep", &self.ep)?;
        sink.put_some(alloc, "rk", &self.rk)?;
        sink.put_some(alloc, "up", &self.up)?;
        sink.put_some(alloc, "uv", &self.uv)?;
        sink.put_some(alloc, "plat", &self.plat)?;
        sink.put_some(alloc, "uvAcfg", &self.uv_acfg)?;
        sink.put_some(alloc, "alwaysUv", &self.always_uv)?;
        sink.put_some(alloc, "credMgmt", &self.cred_mgmt)?;
        sink.put_some(alloc, "authnrCfg", &self.authnr_cfg)?;
        sink.put_some(alloc, "bioEnroll", &self.bio_enroll)?;
        Ok(())
    }

    fn put_last<S: Sink>(&self, alloc: Global, sink: &mut S) -> Result<(), OutOfMemory>
        ensures put { OnOk result (S.state sink.new ≡ put_all S.step (S.state sink.old) (places_of last_options self.now)) }
        ensures accepts { OnOk result (AllAccepted S.Accepts (places_of last_options self.now)) }
    {
        sink.put_some(alloc, "clientPin", &self.client_pin)?;
        sink.put_some(alloc, "largeBlobs", &self.large_blobs)?;
        sink.put_some(alloc, "uvBioEnroll", &self.uv_bio_enroll)?;
        sink.put_some(alloc, "perCredMgmtRO", &self.per_cred_mgmt_ro)?;
        sink.put_some(alloc, "pinUvAuthToken", &self.pin_uv_auth_token)?;
        sink.put_some(alloc, "setMinPINLength", &self.set_min_pin_length)?;
        sink.put_some(alloc, "makeCredUvNotRqd", &self.make_cred_uv_not_rqd)?;
        sink.put_some(
            alloc,
            "credentialMgmtPreview",
            &self.credential_mgmt_preview,
        )?;
        sink.put_some(
            alloc,
            "userVerificationMgmtPreview",
            &self.user_verification_mgmt_preview,
        )?;
        sink.put_some(
            alloc,
            "noMcGaPermissionsWithClientPin",
            &self.no_mc_ga_permissions_with_client_pin,
        )?;
        Ok(())
    }
}

impl PlainRecord for Options {
    ghost table = { options };

    fn rows() -> &'static [Row] {
        &[
            Row::Optional(1, "ep"),
            Row::Optional(2, "rk"),
            Row::Optional(3, "up"),
            Row::Optional(4, "uv"),
            Row::Optional(5, "plat"),
            Row::Optional(6, "uvAcfg"),
            Row::Optional(7, "alwaysUv"),
            Row::Optional(8, "credMgmt"),
            Row::Optional(9, "authnrCfg"),
            Row::Optional(10, "bioEnroll"),
            Row::Optional(11, "clientPin"),
            Row::Optional(12, "largeBlobs"),
            Row::Optional(13, "uvBioEnroll"),
            Row::Optional(14, "perCredMgmtRO"),
            Row::Optional(15, "pinUvAuthToken"),
            Row::Optional(16, "setMinPINLength"),
            Row::Optional(17, "makeCredUvNotRqd"),
            Row::Optional(18, "credentialMgmtPreview"),
            Row::Optional(19, "userVerificationMgmtPreview"),
            Row::Optional(20, "noMcGaPermissionsWithClientPin"),
        ]
    }

    fn blank(_alloc: Global) -> Options {
        Options::default()
    }

    fn put<S: Source>(&mut self, alloc: Global, number: u8, source: &mut S) -> Result<(), Refusal> {
        match number {
            1 => set(&mut self.ep, alloc, source),
            2 => set(&mut self.rk, alloc, source),
            3 => set(&mut self.up, alloc, source),
            4 => set(&mut self.uv, alloc, source),
            5 => set(&mut self.plat, alloc, source),
            6 => set(&mut self.uv_acfg, alloc, source),
            7 => set(&mut self.always_uv, alloc, source),
            8 => set(&mut self.cred_mgmt, alloc, source),
            9 => set(&mut self.authnr_cfg, alloc, source),
            10 => set(&mut self.bio_enroll, alloc, source),
            11 => set(&mut self.client_pin, alloc, source),
            12 => set(&mut self.large_blobs, alloc, source),
            13 => set(&mut self.uv_bio_enroll, alloc, source),
            14 => set(&mut self.per_cred_mgmt_ro, alloc, source),
            15 => set(&mut self.pin_uv_auth_token, alloc, source),
            16 => set(&mut self.set_min_pin_length, alloc, source),
            17 => set(&mut self.make_cred_uv_not_rqd, alloc, source),
            18 => set(&mut self.credential_mgmt_preview, alloc, source),
            19 => set(&mut self.user_verification_mgmt_preview, alloc, source),
            20 => set(
                &mut self.no_mc_ga_permissions_with_client_pin,
                alloc,
                source,
            ),
            _ => Err(Refusal::Refused),
        }
    }

    #[tactic(auto, using(passkey_kinds::proofs::Sinks::accepted_both))]
    fn put_members<S: Sink>(&self, alloc: Global, sink: &mut S) -> Result<(), OutOfMemory> {
        self.put_first(alloc, sink)?;
        self.put_last(alloc, sink)?;
        Ok(())
    }

    #[tactic(auto, using(crate::proofs::Information::options_law))]
    fn lawful() {}
}
