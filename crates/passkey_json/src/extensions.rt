//! Inputs and outputs of client extensions, decoded from JSON objects and encoded.
ghost use Rattle.passkey_json.specs.Extensions.{client_inputs, client_outputs, credential_properties, no_inputs, no_outputs};
ghost use Rattle.passkey_json.specs.Extensions.{no_prf_inputs, prf_inputs, where_any};
ghost use Rattle.std.specs.FinMap as fin;
ghost use Rattle.std.specs.Option.{IsSomeAnd};
ghost use Rattle.std.specs.Prelude.{IfOk, OnErr, length, ◌<◌, ◌≡◌, ◌⊎◌};

use crate::json_encoder::{EncodeResult, JsonEncoder};
use crate::json_fault::JsonFault;
use crate::member::{Member, place};
use crate::plain_json_record::PlainJsonRecord;
use crate::row::Row;
use passkey_bytes::{Map, Text};
use passkey_memory::OutOfMemory;
use passkey_webauthn::{AuthenticationExtensionsPrfOutputs, AuthenticationExtensionsPrfValues};
use std::alloc::Global;

/// Client extension inputs: what a relying party asks of extensions (WebAuthn Level 3, section
/// 9.3).
#[derive(Debug, Drop)]
pub struct AuthenticationExtensionsClientInputs {
    /// credProps: whether the relying party asks for properties of the new credential; `None` means
    /// the member is absent.
    pub cred_props: Option<bool>,
    /// prf: the salts; `None` means the member is absent.
    pub prf: Option<AuthenticationExtensionsPrfInputs>,
    /// prfAlreadyHashed, which WebAuthn Level 3 doesn't define: the same as prf, but the salts are
    /// already hashed; `None` means the member is absent.
    pub prf_already_hashed: Option<AuthenticationExtensionsPrfInputs>,
}

impl AuthenticationExtensionsClientInputs {
    /// Returns inputs without members.
    pub fn empty() -> AuthenticationExtensionsClientInputs
        ensures { result ≡ no_inputs }
    {
        AuthenticationExtensionsClientInputs {
            cred_props: None,
            prf: None,
            prf_already_hashed: None,
        }
    }

    /// Returns the inputs, or `None` if no member is present.
    pub fn zip_contents(self) -> Option<AuthenticationExtensionsClientInputs>
        ensures { result ≡ where_any self }
    {
        if self.cred_props.is_some() || self.prf.is_some() || self.prf_already_hashed.is_some() {
            Some(self)
        } else {
            None
        }
    }
}

impl PlainJsonRecord for AuthenticationExtensionsClientInputs {
    ghost table = { client_inputs };

    fn rows() -> &'static [Row] {
        &[
            Row::Named(1, "credProps"),
            Row::Named(2, "prf"),
            Row::Named(3, "prfAlreadyHashed"),
        ]
    }

    fn blank(_alloc: Global) -> AuthenticationExtensionsClientInputs {
        AuthenticationExtensionsClientInputs::empty()
    }

    fn put(&mut self, number: u8, member: &mut Member<'_>) -> Result<(), JsonFault> {
        match number {
            1 => place(&mut self.cred_props, member.or_default(None)),
            2 => place(&mut self.prf, member.or_default(None)),
            3 => place(&mut self.prf_already_hashed, member.or_default(None)),
            _ => Ok(()),
        }
    }

    fn encode(&self, number: u8, encoder: JsonEncoder) -> EncodeResult {
        match number {
            1 => encoder.optional(&self.cred_props),
            2 => encoder.optional(&self.prf),
            3 => encoder.optional(&self.prf_already_hashed),
            _ => Ok(None),
        }
    }
}

/// Inputs of the extension prf (WebAuthn Level 3, section 10.1.4).
#[derive(Debug, Drop)]
pub struct AuthenticationExtensionsPrfInputs {
    /// eval: the salts for any credential without salts of its own; `None` means the member is
    /// absent.
    pub eval: Option<AuthenticationExtensionsPrfValues>,
    /// evalByCredential: the salts for single credentials, by their credential ids in base64url.
    /// Only a sign-in with a list of allowed credentials may have it; otherwise the client fails
    /// with NotSupportedError. `None` means the member is absent.
    pub eval_by_credential: Option<Map<Text, AuthenticationExtensionsPrfValues>>,
}

impl AuthenticationExtensionsPrfInputs {
    /// Returns inputs without salts.
    pub fn empty() -> AuthenticationExtensionsPrfInputs
        ensures { result ≡ no_prf_inputs }
    {
        AuthenticationExtensionsPrfInputs {
            eval: None,
            eval_by_credential: None,
        }
    }

    /// Returns an equal value. Returns `OutOfMemory` if an allocation fails, which can't happen if
    /// no credential has salts of its own and the other salts are empty or absent.
    pub fn try_clone(&self, alloc: Global) -> Result<AuthenticationExtensionsPrfInputs, OutOfMemory>
        ensures same { IfOk result (λ copy. copy ≡ self.now) }
        ensures grows { OnErr result (IsSomeAnd self.now.eval
            (λ values. IsSomeAnd values.second (λ bytes. 0 < length bytes) ⊎ (0 < length values.first))
            ⊎ IsSomeAnd self.now.eval_by_credential (λ salts. ¬ (salts ≡ fin.empty))) }
    {
        let eval = match &self.eval {
            Some(values) => Some(values.try_clone(alloc)?),
            None => None,
        };
        let eval_by_credential = match &self.eval_by_credential {
            Some(salts) => Some(copied(alloc, salts)?),
            None => None,
        };
        Ok(AuthenticationExtensionsPrfInputs {
            eval,
            eval_by_credential,
        })
    }
}

fn copied(
    alloc: Global,
    salts: &Map<Text, AuthenticationExtensionsPrfValues>,
) -> Result<Map<Text, AuthenticationExtensionsPrfValues>, OutOfMemory>
    ensures same { IfOk result (λ copy. copy ≡ salts.now) }
    ensures grows { OnErr result (¬ (salts.now ≡ fin.empty)) }
{
    salts.try_clone(alloc)
}

impl PlainJsonRecord for AuthenticationExtensionsPrfInputs {
    ghost table = { prf_inputs };

    fn rows() -> &'static [Row] {
        &[Row::Named(1, "eval"), Row::Named(2, "evalByCredential")]
    }

    fn blank(_alloc: Global) -> AuthenticationExtensionsPrfInputs {
        AuthenticationExtensionsPrfInputs::empty()
    }

    fn put(&mut self, number: u8, member: &mut Member<'_>) -> Result<(), JsonFault> {
        match number {
            1 => place(&mut self.eval, member.or_default(None)),
            2 => place(&mut self.eval_by_credential, member.or_default(None)),
            _ => Ok(()),
        }
    }

    fn encode(&self, number: u8, encoder: JsonEncoder) -> EncodeResult {
        match number {
            1 => encoder.optional(&self.eval),
            2 => encoder.optional(&self.eval_by_credential),
            _ => Ok(None),
        }
    }
}

/// Client extension outputs: what extensions return to a relying party (WebAuthn Level 3, section
/// 9.4).
#[derive(Debug, Drop)]
pub struct AuthenticationExtensionsClientOutputs {
    /// credProps: properties of the new credential; `None` means the member is absent.
    pub cred_props: Option<CredentialPropertiesOutput>,
    /// prf: the outputs of the extension; `None` means the member is absent.
    pub prf: Option<AuthenticationExtensionsPrfOutputs>,
}

impl AuthenticationExtensionsClientOutputs {
    /// Returns outputs without members.
    pub fn empty() -> AuthenticationExtensionsClientOutputs
        ensures { result ≡ no_outputs }
    {
        AuthenticationExtensionsClientOutputs {
            cred_props: None,
            prf: None,
        }
    }
}

impl PlainJsonRecord for AuthenticationExtensionsClientOutputs {
    ghost table = { client_outputs };

    fn rows() -> &'static [Row] {
        &[Row::Named(1, "credProps"), Row::Named(2, "prf")]
    }

    fn blank(_alloc: Global) -> AuthenticationExtensionsClientOutputs {
        AuthenticationExtensionsClientOutputs::empty()
    }

    fn put(&mut self, number: u8, member: &mut Member<'_>) -> Result<(), JsonFault> {
        match number {
            1 => place(&mut self.cred_props, member.or_default(None)),
            2 => place(&mut self.prf, member.or_default(None)),
            _ => Ok(()),
        }
    }

    fn encode(&self, number: u8, encoder: JsonEncoder) -> EncodeResult {
        match number {
            1 => encoder.optional(&self.cred_props),
            2 => encoder.optional(&self.prf),
            _ => Ok(None),
        }
    }
}

/// Outputs of the extension credProps (WebAuthn Level 3, section 10.1.3).
#[derive(Debug, Drop)]
pub struct CredentialPropertiesOutput {
    /// rk: whether the new credential is a client-side discoverable credential; `None` means the
    /// member is absent, because the client doesn't know.
    pub discoverable: Option<bool>,
}

impl PlainJsonRecord for CredentialPropertiesOutput {
    ghost table = { credential_properties };

    fn rows() -> &'static [Row] {
        &[Row::Named(1, "rk")]
    }

    fn blank(_alloc: Global) -> CredentialPropertiesOutput {
        CredentialPropertiesOutput { discoverable: None }
    }

    fn put(&mut self, number: u8, member: &mut Member<'_>) -> Result<(), JsonFault> {
        match number {
            1 => self.discoverable = member.or_default(None)?,
            _ => {}
        }
        Ok(())
    }

    fn encode(&self, number: u8, encoder: JsonEncoder) -> EncodeResult {
        match number {
            1 => encoder.optional(&self.discoverable),
            _ => Ok(None),
        }
    }
}
