//! Inputs and outputs of the extension prf, as browsers send them to authenticators.
ghost use Rattle.std.specs.Prelude.{◌≡◌, length};
ghost use Rattle.passkey_kinds.specs.Words.{byte_string, sized_bytes};
ghost use Rattle.passkey_registered.specs.extensions.Prf.{prf_inputs, prf_outputs, prf_values};

use passkey_bytes::{Bytes, Map};
use passkey_cbor::{Cursor, Encoder, Value};
use passkey_kinds::{
    Form, FromCbor, Look, OutOfMemory, PlainRecord, Refusal, Row, Sink, Source, ToCbor, Wanted,
    looked, set,
};
use std::alloc::Global;
use std::marker::Model;

/// A salt of the extension prf, or the output for one: 32 bytes. It is encoded as a byte string, and
/// can be decoded from an array of integers, too.
#[derive(Clone, Copy, Debug, PartialEq, Eq)]
pub struct PrfValue([u8; 32]);

/// Contracts see the bytes.
impl Model for PrfValue {
    ghost use Rattle.std.specs.Prelude.{ℕ, List};

    ghost Value = { List ℕ };

    ghost view = { λ v. v.0 };

    ghost inverse = { λ bytes. record { 0 = bytes } };
}

impl PrfValue {
    /// Returns the value with these bytes.
    pub fn new(bytes: [u8; 32]) -> PrfValue
        ensures { result ≡ bytes }
    {
        PrfValue(bytes)
    }

    /// Returns the bytes.
    pub fn bytes(&self) -> [u8; 32]
        ensures { result ≡ self.now }
    {
        self.0
    }
}

impl FromCbor for PrfValue {
    ghost use Rattle.std.specs.Prelude.{ℕ, List};

    ghost Meaning = { List ℕ };

    ghost view = { λ v. v };

    ghost typed = { (sized_bytes 32).typed };

    fn from_value(alloc: Global, value: &Value) -> Result<PrfValue, Refusal> {
        Ok(PrfValue(<[u8; 32]>::from_value(alloc, value)?))
    }

    fn read(alloc: Global, cursor: &mut Cursor<'_>) -> Result<PrfValue, Refusal> {
        Ok(PrfValue(<[u8; 32]>::read(alloc, cursor)?))
    }

    fn look(alloc: Global, _way: &[u8], value: &Value) -> Result<Look, OutOfMemory> {
        looked(
            PrfValue::from_value(alloc, value),
            Form::Leaf(Wanted::SizedBytes(32)),
        )
    }
}

impl ToCbor for PrfValue {
    ghost tree = { byte_string };

    ghost fits = { λ v. length v ≡ 32 };

    fn to_value(&self, alloc: Global) -> Result<Value, OutOfMemory> {
        Ok(Value::Bytes(Vec::from_slice(alloc, &self.0)?))
    }

    fn append(&self, _alloc: Global, encoder: &mut Encoder) -> Result<(), OutOfMemory> {
        encoder.byte_string(&self.0)
    }
}

/// One or two salts of the extension prf, or the outputs for them (WebAuthn Level 3, section 10.1.4).
/// `None` means that the member is absent; null also decodes to `None`.
#[derive(Clone, Debug, Drop, PartialEq, Eq)]
pub struct PrfValues {
    /// `first`: the first salt, or the output for it.
    pub first: PrfValue,
    /// `second`: the second salt, or the output for it.
    pub second: Option<PrfValue>,
}

impl PlainRecord for PrfValues {
    ghost table = { prf_values };

    fn rows() -> &'static [Row] {
        &[Row::Required(1, "first"), Row::Optional(2, "second")]
    }

    fn blank(_alloc: Global) -> PrfValues {
        PrfValues {
            first: PrfValue([0; 32]),
            second: None,
        }
    }

    fn put<S: Source>(&mut self, alloc: Global, number: u8, source: &mut S) -> Result<(), Refusal> {
        match number {
            1 => set(&mut self.first, alloc, source),
            2 => set(&mut self.second, alloc, source),
            _ => Err(Refusal::Refused),
        }
    }

    fn put_members<S: Sink>(&self, alloc: Global, sink: &mut S) -> Result<(), OutOfMemory> {
        sink.put(alloc, "first", &self.first)?;
        sink.put_some(alloc, "second", &self.second)?;
        Ok(())
    }

    #[tactic(auto, using(crate::proofs::ExtensionsLaws::prf_values_law))]
    fn lawful() {}
}

/// The salts for which the extension prf is to return outputs (WebAuthn Level 3, section 10.1.4).
/// `None` means that the member is absent; null also decodes to `None`.
#[derive(Debug, Default, Drop, PartialEq, Eq)]
pub struct PrfInputs {
    /// `eval`: the salts for credentials without salts of their own.
    pub eval: Option<PrfValues>,
    /// `evalByCredential`: the salts for single credentials, by their credential ids. It is also
    /// decoded under the name `eval_by_credential`; under both names it is there twice.
    pub eval_by_credential: Option<Map<Bytes, PrfValues>>,
}

impl PlainRecord for PrfInputs {
    ghost table = { prf_inputs };

    fn rows() -> &'static [Row] {
        &[
            Row::Optional(1, "eval"),
            Row::Aliased(2, "evalByCredential", "eval_by_credential"),
        ]
    }

    fn blank(_alloc: Global) -> PrfInputs {
        PrfInputs::default()
    }

    fn put<S: Source>(&mut self, alloc: Global, number: u8, source: &mut S) -> Result<(), Refusal> {
        match number {
            1 => set(&mut self.eval, alloc, source),
            2 => set(&mut self.eval_by_credential, alloc, source),
            _ => Err(Refusal::Refused),
        }
    }

    fn put_members<S: Sink>(&self, alloc: Global, sink: &mut S) -> Result<(), OutOfMemory> {
        sink.put_some(alloc, "eval", &self.eval)?;
        sink.put_some(alloc, "evalByCredential", &self.eval_by_credential)?;
        Ok(())
    }

    #[tactic(auto, using(crate::proofs::ExtensionsLaws::prf_inputs_law))]
    fn lawful() {}
}

/// The outputs of the extension prf (WebAuthn Level 3, section 10.1.4). `None` means that the member
/// is absent; null also decodes to `None`.
#[derive(Debug, Default, Drop, PartialEq, Eq)]
pub struct PrfOutputs {
    /// `enabled`: whether the new credential supports the extension.
    pub enabled: Option<bool>,
    /// `results`: the outputs for the salts.
    pub results: Option<PrfValues>,
}

impl PlainRecord for PrfOutputs {
    ghost table = { prf_outputs };

    fn rows() -> &'static [Row] {
        &[Row::Optional(1, "enabled"), Row::Optional(2, "results")]
    }

    fn blank(_alloc: Global) -> PrfOutputs {
        PrfOutputs::default()
    }

    fn put<S: Source>(&mut self, alloc: Global, number: u8, source: &mut S) -> Result<(), Refusal> {
        match number {
            1 => set(&mut self.enabled, alloc, source),
            2 => set(&mut self.results, alloc, source),
            _ => Err(Refusal::Refused),
        }
    }

    fn put_members<S: Sink>(&self, alloc: Global, sink: &mut S) -> Result<(), OutOfMemory> {
        sink.put_some(alloc, "enabled", &self.enabled)?;
        sink.put_some(alloc, "results", &self.results)?;
        Ok(())
    }

    #[tactic(auto, using(crate::proofs::ExtensionsLaws::prf_outputs_law))]
    fn lawful() {}
}
