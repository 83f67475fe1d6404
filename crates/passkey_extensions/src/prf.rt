//! Inputs and outputs of the extension prf.
ghost use Rattle.std.specs.Prelude.{true, ◌≡◌, is_some, IfOk, OnErr};
ghost use Rattle.std.specs.Option.{IsSomeAnd};
ghost use Rattle.std.specs.FinMap as fin;
ghost use Rattle.passkey_extensions.specs.Prf.{prf_inputs, prf_values, make_credential_prf, get_assertion_prf, webauthn_values};
ghost use Rattle.passkey_extensions.specs.Prf.{registration_prf, authentication_prf};

use passkey_bytes::{Bytes, Map};
use passkey_kinds::{PlainRecord, Refusal, Row, Sink, Source, set};
use passkey_memory::OutOfMemory;
use passkey_webauthn::{AuthenticationExtensionsPrfOutputs, AuthenticationExtensionsPrfValues};
use std::alloc::Global;

/// The salts for which the extension prf is to return outputs (WebAuthn Level 3, section 10.1.4).
/// `None` means that the member is absent; null also decodes to `None`.
#[derive(Debug, Drop, PartialEq, Eq)]
pub struct AuthenticatorPrfInputs {
    /// The salts for credentials without salts of their own.
    pub eval: Option<AuthenticatorPrfValues>,
    /// The salts for single credentials, by their credential ids.
    pub eval_by_credential: Option<Map<Bytes, AuthenticatorPrfValues>>,
}

fn copied(values: &Option<AuthenticatorPrfValues>) -> Option<AuthenticatorPrfValues>
    ensures { result ≡ values.now }
{
    match values {
        Some(values) => Some(AuthenticatorPrfValues {
            first: values.first,
            second: values.second,
        }),
        None => None,
    }
}

fn copied_map(
    alloc: Global,
    salts: &Map<Bytes, AuthenticatorPrfValues>,
) -> Result<Map<Bytes, AuthenticatorPrfValues>, OutOfMemory>
    ensures same { IfOk result (λ copy. copy ≡ salts.now) }
    ensures grows { OnErr result (¬ (salts.now ≡ fin.empty)) }
{
    salts.try_clone(alloc)
}

impl AuthenticatorPrfInputs {
    /// Returns an equal value. Returns `OutOfMemory` if an allocation fails, which can't happen if
    /// no credential has salts of its own.
    pub fn try_clone(&self, alloc: Global) -> Result<AuthenticatorPrfInputs, OutOfMemory>
        ensures same { IfOk result (λ copy. copy ≡ self.now) }
        ensures grows { OnErr result (IsSomeAnd self.now.eval_by_credential (λ salts. ¬ (salts ≡ fin.empty))) }
    {
        let eval_by_credential = match &self.eval_by_credential {
            Some(salts) => Some(copied_map(alloc, salts)?),
            None => None,
        };
        Ok(AuthenticatorPrfInputs {
            eval: copied(&self.eval),
            eval_by_credential,
        })
    }
}

impl PlainRecord for AuthenticatorPrfInputs {
    ghost table = { prf_inputs };

    fn rows() -> &'static [Row] {
        &[
            Row::Optional(1, "eval"),
            Row::Optional(2, "eval_by_credential"),
        ]
    }

    fn blank(_alloc: Global) -> AuthenticatorPrfInputs {
        AuthenticatorPrfInputs {
            eval: None,
            eval_by_credential: None,
        }
    }

    fn put<S: Source>(&mut self, alloc: Global, number: u8, source: &mut S) -> Result<(), Refusal> {
        match number {
            1 => set(&mut self.eval, alloc, source),
            2 => set(&mut self.eval_by_credential, alloc, source),
            _ => Err(Refusal::Refused),
        }
    }

    fn put_members<S: Sink>(&self, alloc: Global, sink: &mut S) -> Result<(), OutOfMemory> {
        sink.put_some(alloc, "eval", &self.eval)?;
        sink.put_some(alloc, "eval_by_credential", &self.eval_by_credential)?;
        Ok(())
    }

    #[tactic(auto, using(crate::proofs::Extensions::inputs_law))]
    fn lawful() {}
}

/// One or two salts of the extension prf, or the outputs for them, each of 32 bytes (WebAuthn Level
/// 3, section 10.1.4). They are encoded as arrays of integers, and can be decoded from byte
/// strings, too.
#[derive(Clone, Debug, Drop, PartialEq, Eq)]
pub struct AuthenticatorPrfValues {
    /// The first salt, or the output for it.
    pub first: [u8; 32],
    /// The second salt, or the output for it. `None` means that the member is absent; null also
    /// decodes to `None`.
    pub second: Option<[u8; 32]>,
}

impl AuthenticatorPrfValues {
    /// Returns the values in WebAuthn's type. Returns `OutOfMemory` if an allocation fails.
    pub fn to_webauthn(
        &self,
        alloc: Global,
    ) -> Result<AuthenticationExtensionsPrfValues, OutOfMemory>
        ensures { IfOk result (λ values. values ≡ webauthn_values self.now) }
    {
        let second = match &self.second {
            Some(bytes) => Some(Bytes::from_slice(alloc, bytes.as_slice())?),
            None => None,
        };
        Ok(AuthenticationExtensionsPrfValues {
            first: Bytes::from_slice(alloc, self.first.as_slice())?,
            second,
        })
    }
}

impl PlainRecord for AuthenticatorPrfValues {
    ghost table = { prf_values };

    fn rows() -> &'static [Row] {
        &[Row::Required(1, "first"), Row::Optional(2, "second")]
    }

    fn blank(_alloc: Global) -> AuthenticatorPrfValues {
        AuthenticatorPrfValues {
            first: [0; 32],
            second: None,
        }
    }

    fn put<S: Source>(&mut self, alloc: Global, number: u8, source: &mut S) -> Result<(), Refusal> {
        match number {
            1 => set(&mut self.first, alloc, source),
            2 => set(&mut self.second, alloc, source),
            _ => Err(Refusal::Refused),
        }
    }

    fn put_members<S: Sink>(&self, alloc: Global, sink: &mut S) -> Result<(), OutOfMemory> {
        sink.put(alloc, "first", &self.first)?;
        sink.put_some(alloc, "second", &self.second)?;
        Ok(())
    }

    #[tactic(auto, using(crate::proofs::Extensions::values_law))]
    fn lawful() {}
}

/// The outputs of the extension prf at a registration (WebAuthn Level 3, section 10.1.4).
#[derive(Clone, Debug, Drop)]
pub struct AuthenticatorPrfMakeOutputs {
    /// Whether the new credential supports the extension.
    pub enabled: bool,
    /// The outputs for the salts. `None` means that the member is absent; null also decodes to
    /// `None`.
    pub results: Option<AuthenticatorPrfValues>,
}

impl AuthenticatorPrfMakeOutputs {
    /// Returns the outputs in WebAuthn's type, with `enabled`. Returns `OutOfMemory` if an
    /// allocation fails, which can't happen if there are no results.
    pub fn to_webauthn(
        &self,
        alloc: Global,
    ) -> Result<AuthenticationExtensionsPrfOutputs, OutOfMemory>
        ensures same { IfOk result (λ outputs. outputs ≡ registration_prf self.now) }
        ensures grows { OnErr result (is_some self.now.results ≡ true) }
    {
        let results = match &self.results {
            Some(values) => Some(values.to_webauthn(alloc)?),
            None => None,
        };
        Ok(AuthenticationExtensionsPrfOutputs {
            enabled: Some(self.enabled),
            results,
        })
    }
}

impl PlainRecord for AuthenticatorPrfMakeOutputs {
    ghost table = { make_credential_prf };

    fn rows() -> &'static [Row] {
        &[Row::Required(1, "enabled"), Row::Optional(2, "results")]
    }

    fn blank(_alloc: Global) -> AuthenticatorPrfMakeOutputs {
        AuthenticatorPrfMakeOutputs {
            enabled: false,
            results: None,
        }
    }

    fn put<S: Source>(&mut self, alloc: Global, number: u8, source: &mut S) -> Result<(), Refusal> {
        match number {
            1 => set(&mut self.enabled, alloc, source),
            2 => set(&mut self.results, alloc, source),
            _ => Err(Refusal::Refused),
        }
    }

    fn put_members<S: Sink>(&self, alloc: Global, sink: &mut S) -> Result<(), OutOfMemory> {
        sink.put(alloc, "enabled", &self.enabled)?;
        sink.put_some(alloc, "results", &self.results)?;
        Ok(())
    }

    #[tactic(auto, using(crate::proofs::Extensions::make_credential_prf_law))]
    fn lawful() {}
}

/// The outputs of the extension prf at an assertion (WebAuthn Level 3, section 10.1.4).
#[derive(Clone, Debug, Drop)]
pub struct AuthenticatorPrfGetOutputs {
    /// The outputs for the salts.
    pub results: AuthenticatorPrfValues,
}

impl AuthenticatorPrfGetOutputs {
    /// Returns the outputs in WebAuthn's type, with `enabled` absent. Returns `OutOfMemory` if an
    /// allocation fails.
    pub fn to_webauthn(
        &self,
        alloc: Global,
    ) -> Result<AuthenticationExtensionsPrfOutputs, OutOfMemory>
        ensures { IfOk result (λ outputs. outputs ≡ authentication_prf self.now) }
    {
        Ok(AuthenticationExtensionsPrfOutputs {
            enabled: None,
            results: Some(self.results.to_webauthn(alloc)?),
        })
    }
}

impl PlainRecord for AuthenticatorPrfGetOutputs {
    ghost table = { get_assertion_prf };

    fn rows() -> &'static [Row] {
        &[Row::Required(1, "results")]
    }

    fn blank(alloc: Global) -> AuthenticatorPrfGetOutputs {
        AuthenticatorPrfGetOutputs {
            results: AuthenticatorPrfValues::blank(alloc),
        }
    }

    fn put<S: Source>(&mut self, alloc: Global, number: u8, source: &mut S) -> Result<(), Refusal> {
        match number {
            1 => set(&mut self.results, alloc, source),
            _ => Err(Refusal::Refused),
        }
    }

    fn put_members<S: Sink>(&self, alloc: Global, sink: &mut S) -> Result<(), OutOfMemory> {
        sink.put(alloc, "results", &self.results)?;
        Ok(())
    }

    #[tactic(auto, using(crate::proofs::Extensions::get_assertion_prf_law))]
    fn lawful() {}
}
