//! The options of a ceremony with how far the client may ask the user.
ghost use Rattle.passkey_client.specs.Mediated.{mediated_options};

use crate::CredentialMediationRequirement;
use passkey_bytes::Text;
use passkey_json::{EncodeResult, JsonEncoder, JsonFault, Member, PlainJsonRecord, Row, place};
use std::alloc::Global;

/// The argument of `navigator.credentials.create()` or `get()`: the options of a ceremony, and how
/// far the client may ask the user (WebAuthn Level 3, section 5.1.4; Credential Management Level 1,
/// section 2.3.2).
#[derive(Debug, Drop)]
pub struct MediatedOptions<O: PlainJsonRecord> {
    /// publicKey: the options.
    pub public_key: O,
    /// mediation: how far the client may ask the user. `None` means that the member is absent, and
    /// so `optional`; null also decodes to `None`.
    pub mediation: Option<CredentialMediationRequirement>,
    /// uiMode: how the client asks the user, such as `immediate`, in Chromium. Any name is kept. `None`
    /// means that the member is absent; null also decodes to `None`.
    pub ui_mode: Option<Text>,
}

impl<O: PlainJsonRecord> PlainJsonRecord for MediatedOptions<O> {
    ghost table = { mediated_options O.table };

    fn rows() -> &'static [Row] {
        &[
            Row::Named(1, "publicKey"),
            Row::Named(2, "mediation"),
            Row::Named(3, "uiMode"),
        ]
    }

    fn blank(alloc: Global) -> MediatedOptions<O> {
        MediatedOptions {
            public_key: O::blank(alloc),
            mediation: None,
            ui_mode: None,
        }
    }

    fn put(&mut self, number: u8, member: &mut Member<'_>) -> Result<(), JsonFault> {
        match number {
            1 => place(&mut self.public_key, member.required()),
            2 => place(&mut self.mediation, member.or_default(None)),
            3 => place(&mut self.ui_mode, member.or_default(None)),
            _ => Ok(()),
        }
    }

    fn encode(&self, number: u8, encoder: JsonEncoder) -> EncodeResult {
        match number {
            1 => encoder.value(&self.public_key),
            2 => encoder.optional(&self.mediation),
            3 => encoder.optional(&self.ui_mode),
            _ => Ok(None),
        }
    }
}
