//! Authenticator data and AAGUIDs, decoded from byte strings and encoded as byte strings.
ghost use Rattle.std.specs.Prelude.{◌≡◌, ℕ, ◌+◌, ◌*◌, ◌≤◌, length, List};
ghost use Rattle.passkey_kinds.specs.Words.{byte_string, data_nodes, IsData, DataParts, data_parts, Answers, authenticator_data};
ghost use Rattle.passkey_kinds.specs.Words.{aaguid, CountsData, CountsDataItems, UnlessOutOfMemory, data_tree, aaguid_tree};

use crate::array::filled;
use crate::{Form, FromCbor, Look, OutOfMemory, Refusal, ToCbor, Wanted, looked};
use passkey_cbor::{Count, Cursor, Encoder, Value};
use passkey_core::{Aaguid, AuthenticatorData, laws};
use passkey_cose::CoseError;
use std::alloc::Global;

/// Decodes the content of a byte string as authenticator data, and adds the cost to `count`.
#[tactic(auto, using(crate::proofs::Lent::parts_grow))]
fn read_data(alloc: Global, bytes: &[u8], count: &mut Count) -> Result<AuthenticatorData, Refusal>
    ensures answers { Answers data_parts authenticator_data.typed (byte_string bytes.now) result }
    ensures heads { count.new.heads ≤ count.old.heads + (4 * length bytes.now + 4) }
    ensures nodes { count.new.nodes ≤ count.old.nodes + data_nodes bytes.now }
    ensures all { UnlessOutOfMemory result (CountsDataItems bytes.now count.old.heads count.old.nodes
        count.new.heads count.new.nodes) }
{
    laws::given_is_read();
    laws::one_reading();
    match AuthenticatorData::from_slice_counted(alloc, bytes, count) {
        Ok(data) => Ok(data),
        Err(CoseError::OutOfMemory) => Err(Refusal::OutOfMemory),
        Err(_) => Err(Refusal::Refused),
    }
}

/// Does the same, and adds the cost to the cursor's counts.
fn read_counted(
    alloc: Global,
    bytes: &[u8],
    cursor: &mut Cursor<'_>,
) -> Result<AuthenticatorData, Refusal>
    ensures answers { Answers data_parts authenticator_data.typed (byte_string bytes.now) result }
    ensures counts { CountsData bytes.now cursor.old cursor.new }
    ensures all { UnlessOutOfMemory result (CountsDataItems bytes.now cursor.old.heads cursor.old.nodes
        cursor.new.heads cursor.new.nodes) }
{
    let mut count = Count { heads: 0, nodes: 0 };
    let data = read_data(alloc, bytes, &mut count);
    cursor.add(count);
    data
}

impl FromCbor for AuthenticatorData {
    ghost Meaning = { DataParts };

    ghost view = { data_parts };

    ghost typed = { authenticator_data.typed };

    fn from_value(alloc: Global, value: &Value) -> Result<AuthenticatorData, Refusal> {
        match value {
            Value::Bytes(bytes) => read_data(alloc, bytes, &mut Count { heads: 0, nodes: 0 }),
            _ => Err(Refusal::Refused),
        }
    }

    #[tactic(auto, using(crate::proofs::Lent::data_further, crate::proofs::Cursor::on_ok, crate::proofs::Lent::looks_all))]
    fn read(alloc: Global, cursor: &mut Cursor<'_>) -> Result<AuthenticatorData, Refusal> {
        match cursor.bytes() {
            Some(token) => match token.lent() {
                Some(bytes) => read_counted(alloc, bytes, cursor),
                None => {
                    let bytes = token.copy(alloc, cursor)?;
                    read_counted(alloc, &bytes, cursor)
                }
            },
            None => Err(Refusal::Refused),
        }
    }

    fn look(alloc: Global, _way: &[u8], value: &Value) -> Result<Look, OutOfMemory> {
        looked(
            AuthenticatorData::from_value(alloc, value),
            Form::Leaf(Wanted::AuthenticatorData),
        )
    }
}

impl ToCbor for AuthenticatorData {
    ghost tree = { data_tree };

    ghost fits = { λ d. IsData (data_parts d) };

    fn to_value(&self, alloc: Global) -> Result<Value, OutOfMemory> {
        Ok(Value::Bytes(self.to_vec(alloc)?))
    }

    fn append(&self, alloc: Global, encoder: &mut Encoder) -> Result<(), OutOfMemory> {
        encoder.byte_string(self.to_vec(alloc)?.as_slice())
    }
}

/// Decodes the content of a byte string as an AAGUID. `Refused` unless it has 16 bytes.
fn read_aaguid(bytes: &[u8]) -> Result<Aaguid, Refusal>
    ensures { Answers (λ a. a.0) aaguid.typed (byte_string bytes.now) result }
{
    match <[u8; 16]>::try_from(bytes) {
        Ok(bytes) => Ok(Aaguid(bytes)),
        Err(_) => Err(Refusal::Refused),
    }
}

impl FromCbor for Aaguid {
    ghost Meaning = { List ℕ };

    ghost view = { λ a. a.0 };

    ghost typed = { aaguid.typed };

    fn from_value(_alloc: Global, value: &Value) -> Result<Aaguid, Refusal> {
        match value {
            Value::Bytes(bytes) => read_aaguid(bytes),
            _ => Err(Refusal::Refused),
        }
    }

    fn read(_alloc: Global, cursor: &mut Cursor<'_>) -> Result<Aaguid, Refusal> {
        match cursor.bytes() {
            Some(token) => Ok(Aaguid(filled(&token, cursor)?)),
            None => Err(Refusal::Refused),
        }
    }

    fn look(alloc: Global, _way: &[u8], value: &Value) -> Result<Look, OutOfMemory> {
        looked(
            Aaguid::from_value(alloc, value),
            Form::Leaf(Wanted::ByteString(16)),
        )
    }
}

impl ToCbor for Aaguid {
    ghost tree = { aaguid_tree };

    ghost fits = { λ a. length a.0 ≡ 16 };

    fn to_value(&self, alloc: Global) -> Result<Value, OutOfMemory> {
        Ok(Value::Bytes(Vec::from_slice(alloc, &self.0)?))
    }

    fn append(&self, _alloc: Global, encoder: &mut Encoder) -> Result<(), OutOfMemory> {
        encoder.byte_string(&self.0)
    }
}
