//! Extension outputs in the authenticator data of a registration (CTAP 2.1, section 6.1).
ghost use Rattle.std.specs.Prelude.{◌≡◌, IfOk, IsSome, IsTrue, OnErr, option_map};
ghost use Rattle.passkey_cbor.specs.View.{item_of};
ghost use Rattle.passkey_core.specs.SignedOutputs.{make_credential_item, has_make_credential_member, where_some, make_credential_extensions};

use crate::signed_outputs::{bytes_value, push_output};
use passkey_bytes::Bytes;
use passkey_cbor::Value;
use passkey_memory::OutOfMemory;
use std::alloc::Global;

/// Extension outputs in the authenticator data of a registration (WebAuthn Level 3, section 9.5).
#[derive(Debug, Drop)]
pub struct SignedExtensionOutputs {
    /// `hmac-secret`: whether the credential supports it; `None` means the member is absent.
    pub hmac_secret: Option<bool>,
    /// `hmac-secret-mc` (CTAP 2.2): the encrypted outputs; `None` means the member is absent.
    pub hmac_secret_mc: Option<Bytes>,
}

impl SignedExtensionOutputs {
    /// `Some` with the outputs if one is present; `None` if all are absent.
    pub fn zip_contents(self) -> Option<SignedExtensionOutputs>
        ensures { result ≡ where_some (has_make_credential_member self) self }
    {
        if self.hmac_secret.is_some() || self.hmac_secret_mc.is_some() {
            Some(self)
        } else {
            None
        }
    }

    /// The outputs as a map: `hmac-secret` and `hmac-secret-mc`, each if present. `OutOfMemory` if
    /// an allocation fails, which can't happen if both are absent.
    pub fn to_value(&self, alloc: Global) -> Result<Value, OutOfMemory>
        ensures value { IfOk result (λ v. item_of v ≡ make_credential_item self.now) }
        ensures grows { OnErr result (IsTrue (has_make_credential_member self.now)) }
    {
        let mut outputs = Vec::new(alloc);
        let secret = self.hmac_secret.map(Value::Bool);
        push_output(alloc, &mut outputs, "hmac-secret", secret)?;
        let secrets = bytes_value(alloc, &self.hmac_secret_mc)?;
        push_output(alloc, &mut outputs, "hmac-secret-mc", secrets)?;
        Ok(Value::Map(outputs))
    }
}

/// The outputs as a map, if one is present. `OutOfMemory` if an allocation fails.
pub(crate) fn to_extensions(
    alloc: Global,
    outputs: Option<SignedExtensionOutputs>,
) -> Result<Option<Value>, OutOfMemory>
    ensures value { IfOk result (λ v. option_map item_of v ≡ make_credential_extensions outputs) }
    ensures grows { OnErr result (IsSome (make_credential_extensions outputs)) }
{
    let Some(outputs) = outputs else {
        return Ok(None);
    };
    match outputs.zip_contents() {
        Some(outputs) => Ok(Some(outputs.to_value(alloc)?)),
        None => Ok(None),
    }
}
