//! Authenticator data that are kept as they came.
ghost use Rattle.std.specs.Prelude.{◌≡◌, Err, ◌+◌, ◌*◌, ◌≤◌, ℕ, List, length, replicate};
ghost use Rattle.passkey_core.specs.DataReading.{DataGrows};
ghost use Rattle.passkey_kinds.specs.Words.{Answers, CountsData, CountsDataItems, UnlessOutOfMemory, byte_string, data_nodes};
ghost use Rattle.passkey_kinds.specs.declared.fault.Refusal.TheVariants.{OutOfMemory as NoRoom};
ghost use Rattle.passkey_registered.specs.Kept.{IsAuthenticatorData, kept_data};

use crate::exact::ExactBytes;
use passkey_bytes::Bytes;
use passkey_cbor::{Count, Cursor, Encoder, Value};
use passkey_core::{AuthenticatorData, laws};
use passkey_cose::CoseError;
use passkey_kinds::{Form, FromCbor, Look, OutOfMemory, Refusal, ToCbor, Wanted, looked};
use std::alloc::Global;
use std::marker::Model;

/// Authenticator data, kept as the bytes that came, since signatures are over them (WebAuthn Level 3,
/// section 6.1). `AuthenticatorData::from_slice` decodes them.
#[derive(Debug, Drop)]
pub struct KeptAuthenticatorData {
    /// `None` is 37 bytes that are 0.
    bytes: Option<Bytes>,
}

/// Contracts see the bytes.
impl Model for KeptAuthenticatorData {
    ghost use Rattle.std.specs.Prelude.{ℕ, List, replicate, unwrap_or};
    ghost use Rattle.passkey_registered.specs.Kept.{IsAuthenticatorData};

    ghost Value = { List ℕ };

    ghost view = { λ d. unwrap_or d.bytes (replicate 37 0) };

    ghost invariant = { λ d. IsAuthenticatorData (unwrap_or d.bytes (replicate 37 0)) };
}

impl KeptAuthenticatorData {
    /// Returns these bytes. Returns `Refused` exactly if they don't begin with authenticator data, and
    /// `OutOfMemory` if an allocation fails for the key or the extensions in them.
    pub fn new(alloc: Global, bytes: Bytes) -> Result<KeptAuthenticatorData, Refusal>
        ensures answers { Answers (λ d. d) kept_data.typed (byte_string bytes) result }
        ensures grows { result ≡ Err NoRoom → DataGrows bytes }
    {
        check_data(alloc, bytes.as_slice(), &mut Count { heads: 0, nodes: 0 })?;
        Ok(KeptAuthenticatorData { bytes: Some(bytes) })
    }

    /// Returns data with a hash of 32 zero bytes, no flags, the counter 0 and no other parts.
    #[tactic(auto, using(crate::proofs::KeptValues::blank_is_data))]
    pub(crate) fn blank() -> KeptAuthenticatorData
        ensures { result ≡ replicate 37 0 }
    {
        KeptAuthenticatorData { bytes: None }
    }

    /// Lends the bytes.
    pub fn as_slice(&self) -> &[u8]
        ensures bytes { result.now ≡ self.now }
        ensures data { IsAuthenticatorData self.now }
    {
        match &self.bytes {
            Some(bytes) => bytes.as_slice(),
            None => &[0; 37],
        }
    }
}

/// Decodes the bytes as authenticator data to see whether they are, and adds the cost to `count`.
#[tactic(auto, using(passkey_kinds::proofs::Lent::parts_grow, crate::proofs::KeptValues::kept_data_is))]
fn check_data(alloc: Global, bytes: &[u8], count: &mut Count) -> Result<(), Refusal>
    ensures answers { Answers (λ u. bytes.now) kept_data.typed (byte_string bytes.now) result }
    ensures grows { result ≡ Err NoRoom → DataGrows bytes.now }
    ensures heads { count.new.heads ≤ count.old.heads + (4 * length bytes.now + 4) }
    ensures nodes { count.new.nodes ≤ count.old.nodes + data_nodes bytes.now }
    ensures all { UnlessOutOfMemory result (CountsDataItems bytes.now count.old.heads count.old.nodes
        count.new.heads count.new.nodes) }
{
    laws::given_is_read();
    laws::one_reading();
    match AuthenticatorData::from_slice_counted(alloc, bytes, count) {
        Ok(_) => Ok(()),
        Err(CoseError::OutOfMemory) => Err(Refusal::OutOfMemory),
        Err(_) => Err(Refusal::Refused),
    }
}

/// Returns the bytes if they are authenticator data, and adds the cost to the cursor's counts.
fn decoded_at(
    alloc: Global,
    bytes: Bytes,
    cursor: &mut Cursor<'_>,
) -> Result<KeptAuthenticatorData, Refusal>
    ensures answers { Answers (λ d. d) kept_data.typed (byte_string bytes) result }
    ensures counts { CountsData bytes cursor.old cursor.new }
    ensures all { UnlessOutOfMemory result (CountsDataItems bytes cursor.old.heads cursor.old.nodes
        cursor.new.heads cursor.new.nodes) }
{
    let mut count = Count { heads: 0, nodes: 0 };
    let checked = check_data(alloc, bytes.as_slice(), &mut count);
    cursor.add(count);
    checked?;
    Ok(KeptAuthenticatorData { bytes: Some(bytes) })
}

impl FromCbor for KeptAuthenticatorData {
    ghost Meaning = { List ℕ };

    ghost view = { λ d. d };

    ghost typed = { kept_data.typed };

    fn from_value(alloc: Global, value: &Value) -> Result<KeptAuthenticatorData, Refusal> {
        let bytes = ExactBytes::from_value(alloc, value)?;
        KeptAuthenticatorData::new(alloc, bytes.into_bytes())
    }

    fn read(alloc: Global, cursor: &mut Cursor<'_>) -> Result<KeptAuthenticatorData, Refusal> {
        let bytes = ExactBytes::read(alloc, cursor)?;
        decoded_at(alloc, bytes.into_bytes(), cursor)
    }

    fn look(alloc: Global, _way: &[u8], value: &Value) -> Result<Look, OutOfMemory> {
        looked(
            KeptAuthenticatorData::from_value(alloc, value),
            Form::Leaf(Wanted::AuthenticatorData),
        )
    }
}

impl ToCbor for KeptAuthenticatorData {
    ghost tree = { byte_string };

    ghost fits = { IsAuthenticatorData };

    fn to_value(&self, alloc: Global) -> Result<Value, OutOfMemory> {
        Ok(Value::Bytes(Vec::from_slice(alloc, self.as_slice())?))
    }

    fn append(&self, _alloc: Global, encoder: &mut Encoder) -> Result<(), OutOfMemory> {
        encoder.byte_string(self.as_slice())
    }
}
