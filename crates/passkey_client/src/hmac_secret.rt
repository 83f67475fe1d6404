//! Inputs and outputs of the client extension hmacGetSecret.
ghost use Rattle.passkey_client.specs.ClientExtensions.{hmac_get_secret_inputs, hmac_get_secret_outputs};

use passkey_bytes::Bytes;
use passkey_json::{EncodeResult, JsonEncoder, JsonFault, Member, PlainJsonRecord, Row, place};
use std::alloc::Global;

/// Inputs of the client extension hmacGetSecret (CTAP 2.1, section 12.5). `None` means that the
/// member is absent; null also decodes to `None`. The salts are also decoded under the names
/// `output1` and `output2`, by which webauthn-rs sends them; both names of one are `Repeated`.
#[derive(Debug, Drop)]
pub struct HmacGetSecretInputs {
    /// salt1: the first salt, 32 bytes. The length isn't checked.
    pub salt1: Bytes,
    /// salt2: the second salt.
    pub salt2: Option<Bytes>,
}

impl PlainJsonRecord for HmacGetSecretInputs {
    ghost table = { hmac_get_secret_inputs };

    fn rows() -> &'static [Row] {
        &[
            Row::Aliased(1, "salt1", "output1"),
            Row::Aliased(2, "salt2", "output2"),
        ]
    }

    fn blank(alloc: Global) -> HmacGetSecretInputs {
        HmacGetSecretInputs {
            salt1: Bytes::empty(alloc),
            salt2: None,
        }
    }

    fn put(&mut self, number: u8, member: &mut Member<'_>) -> Result<(), JsonFault> {
        match number {
            1 => place(&mut self.salt1, member.required()),
            2 => place(&mut self.salt2, member.or_default(None)),
            _ => Ok(()),
        }
    }

    fn encode(&self, number: u8, encoder: JsonEncoder) -> EncodeResult {
        match number {
            1 => encoder.value(&self.salt1),
            2 => encoder.optional(&self.salt2),
            _ => Ok(None),
        }
    }
}

/// Outputs of the client extension hmacGetSecret (CTAP 2.1, section 12.5). `None` means that the
/// member is absent; null also decodes to `None`.
#[derive(Debug, Drop)]
pub struct HmacGetSecretOutputs {
    /// output1: the output for the first salt.
    pub output1: Bytes,
    /// output2: the output for the second salt.
    pub output2: Option<Bytes>,
}

impl PlainJsonRecord for HmacGetSecretOutputs {
    ghost table = { hmac_get_secret_outputs };

    fn rows() -> &'static [Row] {
        &[Row::Named(1, "output1"), Row::Named(2, "output2")]
    }

    fn blank(alloc: Global) -> HmacGetSecretOutputs {
        HmacGetSecretOutputs {
            output1: Bytes::empty(alloc),
            output2: None,
        }
    }

    fn put(&mut self, number: u8, member: &mut Member<'_>) -> Result<(), JsonFault> {
        match number {
            1 => place(&mut self.output1, member.required()),
            2 => place(&mut self.output2, member.or_default(None)),
            _ => Ok(()),
        }
    }

    fn encode(&self, number: u8, encoder: JsonEncoder) -> EncodeResult {
        match number {
            1 => encoder.value(&self.output1),
            2 => encoder.optional(&self.output2),
            _ => Ok(None),
        }
    }
}
