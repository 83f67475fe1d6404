//! The argument of `navigator.credentials.create()` and `get()`, decoded from JSON objects and encoded.
ghost use Rattle.passkey_webauthn_json.specs.options.Options.{credential_options};

use crate::options::creation_options::PublicKeyCredentialCreationOptions;
use crate::options::request_options::PublicKeyCredentialRequestOptions;
use passkey_json::{EncodeResult, JsonEncoder, JsonFault, Member, PlainJsonRecord, Row};
use std::alloc::Global;

/// The options of a ceremony, as the argument of a call.
#[derive(Debug, Drop)]
pub struct CredentialOptions<O: PlainJsonRecord> {
    /// The options.
    pub public_key: O,
}

/// The argument of `navigator.credentials.create()` (WebAuthn Level 3, section 5.1.1).
pub type CredentialCreationOptions = CredentialOptions<PublicKeyCredentialCreationOptions>;

/// The argument of `navigator.credentials.get()` (WebAuthn Level 3, section 5.1.2).
pub type CredentialRequestOptions = CredentialOptions<PublicKeyCredentialRequestOptions>;

impl<O: PlainJsonRecord> PlainJsonRecord for CredentialOptions<O> {
    ghost table = { credential_options O.table };

    fn rows() -> &'static [Row] {
        &[Row::Named(1, "publicKey")]
    }

    fn blank(alloc: Global) -> CredentialOptions<O> {
        CredentialOptions {
            public_key: O::blank(alloc),
        }
    }

    fn put(&mut self, number: u8, member: &mut Member<'_>) -> Result<(), JsonFault> {
        match number {
            1 => self.public_key = member.required()?,
            _ => {}
        }
        Ok(())
    }

    fn encode(&self, number: u8, encoder: JsonEncoder) -> EncodeResult {
        match number {
            1 => encoder.value(&self.public_key),
            _ => Ok(None),
        }
    }
}
