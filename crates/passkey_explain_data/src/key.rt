//! Why a data item isn't a COSE key.
ghost use Rattle.std.specs.Prelude.{◌≡◌, ℕ, Some, IfOk};
ghost use Rattle.passkey_cbor.specs.Item.{Item};
ghost use Rattle.passkey_cbor.specs.LeadingItem.{IsLeadingItem};
ghost use Rattle.passkey_cbor.specs.View.{item_of, pair_of};
ghost use Rattle.passkey_cose.specs.KeyReading.{read_key};
ghost use Rattle.passkey_explain.specs.Along.{IsLocated};
ghost use Rattle.passkey_explain.specs.Blame.{item_along};
ghost use Rattle.passkey_explain_data.specs.KeyBlame.{key_blame, key_path, IsVerdict};

use crate::checking::{blame_pairs, blame_type, type_number};
use passkey_cbor::Value;
use passkey_cose::CoseError;
use passkey_explain::{Extent, Step, locate};
use passkey_memory::OutOfMemory;
use std::alloc::Global;

/// What in a data item is to blame that is no key. Pairs are counted from 0, as they are encoded.
#[derive(Clone, Copy, Debug, PartialEq, Eq)]
pub enum KeyBlame {
    /// The data item: it is no map.
    NotAMap,
    /// The map: it has no key type, kty (1).
    NoType,
    /// The label of the pair at this index: it is neither an integer of 64 signed bits nor a text, or
    /// an earlier pair has it. With it the integer that it is, if it has 64 signed bits.
    Label(usize, Option<i64>),
    /// The value of the pair at this index, with its label, 1 to 5: the key type (1) or the algorithm
    /// (3) is neither an integer of 64 signed bits nor a text, or the key type is the reserved one;
    /// the key identifier (2) or the Base IV (5) is empty or no byte string; or the operations (4)
    /// are no array, are empty, repeat one, or one of them is no such integer and no text.
    Value(usize, Option<i64>),
}

/// Why a data item isn't a key.
#[derive(Clone, Copy, Debug, PartialEq, Eq)]
pub struct KeyRefusal {
    /// The error of `CoseKey::from_value`.
    pub fault: CoseError,
    /// The first pair that is bad, or the map if it has no key type.
    pub blame: KeyBlame,
    /// The key type, if the map has one that is an integer of 64 signed bits. It says what labels
    /// below 0 mean (RFC 9053, section 7).
    pub key_type: Option<i64>,
}

/// Explains why the data item isn't a COSE key (RFC 9052, section 7). Returns `None` exactly if it
/// is one, as by `CoseKey::from_value`. Pairs are checked in their order, and of each pair the label,
/// whether it repeats an earlier one, and then the value; after all pairs the key type. `OutOfMemory`
/// if an allocation fails: the labels are kept in ordered sets, so that it takes n log n time for n
/// of them.
pub fn explain_key(alloc: Global, value: &Value) -> Result<Option<KeyRefusal>, OutOfMemory>
    ensures blame { IfOk result (λ r. r ≡ key_blame (item_of value.now)) }
    ensures fault { IfOk result (λ r. IsVerdict (read_key (item_of value.now)) r) }
{
    match value {
        Value::Map(members) => {
            let key_type = type_number(members);
            match blame_pairs(alloc, key_type, members)? {
                Some(refusal) => Ok(Some(refusal)),
                None => Ok(blame_type(key_type, members)),
            }
        }
        _ => Ok(Some(KeyRefusal {
            fault: CoseError::UnexpectedItem,
            blame: KeyBlame::NotAMap,
            key_type: None,
        })),
    }
}

/// Returns where in the bytes what is to blame is encoded, if the data item at their beginning is
/// the one that was explained. Allocates nothing.
pub fn locate_key(bytes: &[u8], blame: KeyBlame) -> Option<Extent>
    ensures { (i part : Item) (len : ℕ) → IsLeadingItem bytes.now i len → item_along (key_path blame) i ≡ Some part
        → IsLocated (key_path blame) i bytes.now result }
{
    match blame {
        KeyBlame::NotAMap | KeyBlame::NoType => locate(bytes, &[]),
        KeyBlame::Label(index, _) => locate(bytes, &[Step::Key(index)]),
        KeyBlame::Value(index, _) => locate(bytes, &[Step::Value(index)]),
    }
}
