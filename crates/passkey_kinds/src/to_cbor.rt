//! Values that are encoded as data items, and records that are encoded as maps.
ghost use Rattle.std.specs.Prelude.{◌≡◌, ◌<◌, ◌^◌, ◌++◌, pos, List, IfOk, OnOk};
ghost use Rattle.passkey_kinds.specs.Words.{AllAccepted, put_all, Place, record_tree, KeysAscend, encoding, Item, boolean};
ghost use Rattle.passkey_kinds.specs.Words.{byte_string, text_string, item_of, IsWritable, written, IfPresent, Any, number_tree};
ghost use Rattle.passkey_kinds.specs.Words.{option_tree, transport_tree, credential_type_tree};
ghost use Rattle.passkey_webauthn.specs.Names.{name_in};

use crate::sink::Counted;
use crate::{MapBuilder, Sink};
use passkey_bytes::{Bytes, Text};
use passkey_cbor::{Encoder, Integer, Value};
use passkey_memory::OutOfMemory;
use passkey_webauthn::{AuthenticatorTransport, EnumNames, PublicKeyCredentialType};
use std::alloc::Global;

/// A type whose values are encoded as data items.
pub trait ToCbor {
    /// The data item that a value is encoded as.
    ghost tree: { Self → Item };

    /// What holds of a value that was encoded.
    ghost fits: { Self → Type 0 } = { Any };

    /// Returns the data item that the value is encoded as. Returns `OutOfMemory` if an allocation
    /// fails.
    fn to_value(&self, alloc: Global) -> Result<Value, OutOfMemory>
        ensures tree { IfOk result (λ v. item_of v ≡ tree self.now) }
        ensures fits { OnOk result (fits self.now) };

    /// Appends the encoding of the data item that `to_value` returns, which needn't be built.
    /// Returns `OutOfMemory` if an allocation fails; then the encoder's bytes may end within it.
    fn append(&self, alloc: Global, encoder: &mut Encoder) -> Result<(), OutOfMemory>
        ensures written { OnOk result (encoding encoder.new ≡ encoding encoder.old ++ written (tree self.now)) }
        ensures writable { OnOk result (IsWritable (tree self.now)) }
        ensures fits { OnOk result (fits self.now) }
    {
        encoder.item(&self.to_value(alloc)?)
    }
}

impl ToCbor for bool {
    ghost tree = { boolean };

    fn to_value(&self, _alloc: Global) -> Result<Value, OutOfMemory> {
        Ok(Value::Bool(*self))
    }

    fn append(&self, _alloc: Global, encoder: &mut Encoder) -> Result<(), OutOfMemory> {
        encoder.boolean(*self)
    }
}

pub(crate) fn integer(n: u64) -> Integer
    ensures { result ≡ pos n }
{
    Integer::new(i128::from(n)).unwrap()
}

pub(crate) fn number(n: u64) -> Value
    ensures { item_of result ≡ number_tree n }
{
    Value::Integer(integer(n))
}

impl ToCbor for u8 {
    ghost tree = { number_tree };

    ghost fits = { λ n. n < 2 ^ 8 };

    fn to_value(&self, _alloc: Global) -> Result<Value, OutOfMemory> {
        Ok(number(u64::from(*self)))
    }

    fn append(&self, _alloc: Global, encoder: &mut Encoder) -> Result<(), OutOfMemory> {
        encoder.integer(integer(u64::from(*self)))
    }
}

impl ToCbor for u32 {
    ghost tree = { number_tree };

    ghost fits = { λ n. n < 2 ^ 32 };

    fn to_value(&self, _alloc: Global) -> Result<Value, OutOfMemory> {
        Ok(number(u64::from(*self)))
    }

    fn append(&self, _alloc: Global, encoder: &mut Encoder) -> Result<(), OutOfMemory> {
        encoder.integer(integer(u64::from(*self)))
    }
}

pub(crate) fn text(alloc: Global, text: &str) -> Result<Value, OutOfMemory>
    ensures { IfOk result (λ v. item_of v ≡ text_string text.now) }
{
    Ok(Value::Text(String::from_str(alloc, text)?))
}

impl<'a> ToCbor for &'a str {
    ghost tree = { λ s. text_string s.now };

    fn to_value(&self, alloc: Global) -> Result<Value, OutOfMemory> {
        text(alloc, self)
    }

    fn append(&self, _alloc: Global, encoder: &mut Encoder) -> Result<(), OutOfMemory> {
        encoder.text_string(self)
    }
}

impl ToCbor for Text {
    ghost tree = { text_string };

    fn to_value(&self, alloc: Global) -> Result<Value, OutOfMemory> {
        text(alloc, self.as_str())
    }

    fn append(&self, _alloc: Global, encoder: &mut Encoder) -> Result<(), OutOfMemory> {
        encoder.text_string(self.as_str())
    }
}

impl ToCbor for Bytes {
    ghost tree = { byte_string };

    fn to_value(&self, alloc: Global) -> Result<Value, OutOfMemory> {
        Ok(Value::Bytes(Vec::from_slice(alloc, self.as_slice())?))
    }

    fn append(&self, _alloc: Global, encoder: &mut Encoder) -> Result<(), OutOfMemory> {
        encoder.byte_string(self.as_slice())
    }
}

impl ToCbor for Value {
    ghost tree = { item_of };

    fn to_value(&self, alloc: Global) -> Result<Value, OutOfMemory> {
        self.try_clone(alloc)
    }

    fn append(&self, _alloc: Global, encoder: &mut Encoder) -> Result<(), OutOfMemory> {
        encoder.item(self)
    }
}

impl<T: ToCbor> ToCbor for Option<T> {
    ghost tree = { λ o. option_tree T.tree o };

    ghost fits = { λ o. IfPresent T.fits o };

    fn to_value(&self, alloc: Global) -> Result<Value, OutOfMemory> {
        match self {
            Some(value) => value.to_value(alloc),
            None => Ok(Value::Null),
        }
    }

    fn append(&self, alloc: Global, encoder: &mut Encoder) -> Result<(), OutOfMemory> {
        match self {
            Some(value) => value.append(alloc, encoder),
            None => encoder.null(),
        }
    }
}

fn written_name<T: EnumNames>(alloc: Global, value: T) -> Result<Value, OutOfMemory>
    ensures { IfOk result (λ v. item_of v ≡ text_string (name_in T.eq T.table value)) }
{
    text(alloc, value.name())
}

impl ToCbor for PublicKeyCredentialType {
    ghost tree = { credential_type_tree };

    fn to_value(&self, alloc: Global) -> Result<Value, OutOfMemory> {
        written_name(alloc, *self)
    }

    fn append(&self, _alloc: Global, encoder: &mut Encoder) -> Result<(), OutOfMemory> {
        encoder.text_string(self.name())
    }
}

impl ToCbor for AuthenticatorTransport {
    ghost tree = { transport_tree };

    fn to_value(&self, alloc: Global) -> Result<Value, OutOfMemory> {
        written_name(alloc, *self)
    }

    fn append(&self, _alloc: Global, encoder: &mut Encoder) -> Result<(), OutOfMemory> {
        encoder.text_string(self.name())
    }
}

/// A record that is encoded as a map.
pub trait ToCborMap {
    /// Its map keys in the order in which they are encoded, each with its value if it is present.
    ghost places: { Self → List Place };

    /// What holds of a record that was encoded.
    ghost holds: { Self → Type 0 } = { Any };

    /// Puts the members into a sink. Returns `OutOfMemory` if an allocation fails.
    fn put_members<S: Sink>(&self, alloc: Global, sink: &mut S) -> Result<(), OutOfMemory>
        ensures put { OnOk result (S.state sink.new ≡ put_all S.step (S.state sink.old) (places self.now)) }
        ensures accepts { OnOk result (AllAccepted S.Accepts (places self.now)) }
        ensures fits { OnOk result (S.Encodes → holds self.now) };

    /// The map keys ascend in CTAP2's order (CTAP 2.1, section 8). Does nothing.
    fn ordered()
        ensures { KeysAscend places };
}

impl<R: ToCborMap> ToCbor for R {
    ghost tree = { λ r. record_tree (R.places r) };

    ghost fits = { R.holds };

    #[tactic(auto, using(crate::proofs::Sinks::appended_all))]
    fn to_value(&self, alloc: Global) -> Result<Value, OutOfMemory> {
        let mut members = MapBuilder::new(alloc);
        self.put_members(alloc, &mut members)?;
        Ok(members.into_value())
    }

    // The head needs the number of members, so they are counted first.
    #[tactic(auto, using(crate::proofs::Sinks::record_written))]
    fn append(&self, alloc: Global, encoder: &mut Encoder) -> Result<(), OutOfMemory> {
        let mut counted = Counted { members: 0 };
        self.put_members(alloc, &mut counted)?;
        encoder.map_head(counted.members)?;
        self.put_members(alloc, encoder)?;
        Ok(())
    }
}
