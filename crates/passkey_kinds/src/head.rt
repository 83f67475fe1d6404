//! Decodes one head at a cursor, by the type of data item that is wanted.
ghost use Rattle.std.specs.Prelude.{◌≡◌, ℕ, ◌+◌, ◌≤◌, IfSome};
ghost use Rattle.std.specs.Option.{option_and_then};
ghost use Rattle.passkey_kinds.specs.Words.{Item, null, IsEncodedAt, Onward, Further, Spends, max_depth, scalar_of, head_array};
ghost use Rattle.passkey_kinds.specs.Words.{head_map, ReadsScalar, elements_in, members_in, OpensAt};
ghost use Rattle.passkey_cbor.specs.Inside.{Within, PairWithin};

use passkey_cbor::{Cursor, Head};

fn array_len(head: Option<Head>) -> Option<Option<u64>>
    ensures { result ≡ option_and_then head_array head }
{
    match head {
        Some(Head::Array(left)) => Some(left),
        _ => None,
    }
}

/// Returns the length in the head of a map.
pub(crate) fn map_len(head: Option<Head>) -> Option<Option<u64>>
    ensures { result ≡ option_and_then head_map head }
{
    match head {
        Some(Head::Map(left)) => Some(left),
        _ => None,
    }
}

/// Decodes the head at the cursor, which is the whole data item if that is an integer or a boolean.
#[tactic(auto, using(crate::proofs::Cursor::heads))]
pub fn read_scalar(cursor: &mut Cursor<'_>) -> Option<Head>
    ensures reads { (i : Item) (to : ℕ) → IsEncodedAt i cursor.old.bytes cursor.old.place to
        → ReadsScalar i to cursor.old cursor.new (scalar_of result) }
    ensures onward { Onward cursor.old cursor.new }
    ensures further { (scalar_of result ≡ null → ⊥) → Further cursor.old cursor.new }
{
    cursor.head()
}

/// Decodes the head of the array at the cursor and returns its length, which is `Some(None)` if it
/// is indefinite. Returns `None` if no array is there.
#[tactic(auto, using(crate::proofs::Cursor::heads))]
pub(crate) fn read_array(cursor: &mut Cursor<'_>) -> Option<Option<u64>>
    ensures opens { (i : Item) (to : ℕ) → IsEncodedAt i cursor.old.bytes cursor.old.place to
        → OpensAt elements_in (Within max_depth) i to cursor.new result }
    ensures spends { (i : Item) (to : ℕ) → IsEncodedAt i cursor.old.bytes cursor.old.place to
        → Spends 1 0 to cursor.old cursor.new }
    ensures counted { cursor.new.heads ≤ cursor.old.heads + 1 }
    ensures onward { Onward cursor.old cursor.new }
    ensures further { IfSome result (λ _. Further cursor.old cursor.new) }
{
    array_len(cursor.head())
}

/// Decodes the head of the map at the cursor and returns its length, which is `Some(None)` if it is
/// indefinite. Returns `None` if no map is there.
#[tactic(auto, using(crate::proofs::Cursor::heads))]
pub(crate) fn read_map(cursor: &mut Cursor<'_>) -> Option<Option<u64>>
    ensures opens { (i : Item) (to : ℕ) → IsEncodedAt i cursor.old.bytes cursor.old.place to
        → OpensAt members_in (PairWithin max_depth) i to cursor.new result }
    ensures spends { (i : Item) (to : ℕ) → IsEncodedAt i cursor.old.bytes cursor.old.place to
        → Spends 1 0 to cursor.old cursor.new }
    ensures counted { cursor.new.heads ≤ cursor.old.heads + 1 }
    ensures onward { Onward cursor.old cursor.new }
    ensures further { IfSome result (λ _. Further cursor.old cursor.new) }
{
    map_len(cursor.head())
}
