//! What a message leaves out: data items where it tolerates any, and members that it doesn't know.
ghost use Rattle.std.specs.Prelude.{◌≡◌, ◌+◌, ◌++◌, ◌∷◌, [], ℕ, List, map, option_map, IfOk, Some};
ghost use Rattle.std.specs.List.{All};
ghost use Rattle.passkey_cbor.specs.EncodedAt.{IsEncodedAt};
ghost use Rattle.passkey_cbor.specs.LeadingItem.{IsLeadingItem};
ghost use Rattle.passkey_kinds.specs.Look.{tested};
ghost use Rattle.passkey_kinds.specs.Shape.{Tested, reached};
ghost use Rattle.passkey_kinds.specs.Words.{Item, item_of, pair_of};
ghost use Rattle.passkey_explain.specs.Along.{LiesAlong, parts_of, turns};
ghost use Rattle.passkey_explain.specs.Blame.{at_fault, key, step_of};
ghost use Rattle.passkey_explain.specs.Blaming.{blamed};
ghost use Rattle.passkey_explain.specs.Dropped.{Leaving, dropped_elements, dropped_list, dropped_map, dropped_pair, dropped_pairs};
ghost use Rattle.passkey_explain.specs.Dropped as spec;
ghost use Rattle.passkey_explain.specs.Drops.{Adds, AreDropped, GoesOn, IsOpened, Leaves, LiesIn, ListsDropped, PairStands, Stands, numbered_step, steps_by};
ghost use Rattle.passkey_kinds.specs.declared.fault.Fault.TheVariants.{BadKey};

use crate::descent::{Table, explain_at, further, name_of};
use crate::{Blame, Extent, Reason, Step};
use passkey_cbor::{CborError, Cursor, Value};
use passkey_kinds::{Fault, Form, FromCbor, Message, Named, OutOfMemory, row_of};
use std::alloc::Global;

/// A data item that a message leaves out, since what it would be decoded to doesn't accept it; or a
/// map key that is left out with its value, since it names no member.
#[derive(Debug, Drop)]
pub struct DroppedItem {
    /// The steps to it.
    pub path: Vec<Step>,
    /// Where it is encoded.
    pub extent: Extent,
    /// The innermost data item in it, or map key, that is refused: the steps to that from the
    /// dropped item, and why.
    pub blame: Blame,
}

/// What the keys of a map are.
#[derive(Clone, Copy)]
enum Keys {
    /// Byte strings.
    Bytes,
    /// The numbers and names of a record's members.
    Names(Table),
}

/// The type of a map: the way to it, and what its keys are.
#[derive(Clone, Copy)]
struct MapType<'a> {
    way: &'a [u8],
    keys: Keys,
}

/// Returns the path with one more step.
fn following(alloc: Global, path: &[Step], step: Step) -> Result<Vec<Step>, OutOfMemory>
    ensures { IfOk result (λ v. v.items ≡ path.now ++ step ∷ []) }
{
    let mut longer = Vec::from_slice(alloc, path)?;
    longer.push(step)?;
    Ok(longer)
}

/// Returns the step to the value under the key, and the number that leads to the value's type.
/// Returns `None` if the value has none: the record has no such member.
fn step_to(keys: &Keys, index: usize, key: &Value) -> Option<(Step, u8)>
    ensures { option_map numbered_step result ≡ steps_by keys.now index (item_of key.now) }
{
    match keys {
        Keys::Bytes => Some((Step::Value(index), 0)),
        Keys::Names(table) => match row_of(table.is_numbered, table.rows, key) {
            Some(Named::Row(number)) => {
                let name = name_of(table.rows, number);
                Some((Step::Member(index, number, name), number))
            }
            _ => None,
        },
    }
}

/// Passes the data item at the cursor, and returns where it is encoded.
fn pass(cursor: &mut Cursor<'_>) -> Extent
    ensures passes { (i : Item) (to : ℕ) → IsEncodedAt i cursor.old.bytes cursor.old.place to
        → (result.offset ≡ cursor.old.place) × (result.offset + result.len ≡ to) × (cursor.new.place ≡ to) }
    ensures moves { GoesOn cursor.old cursor.new }
{
    let offset = cursor.place();
    cursor.skip();
    Extent {
        offset,
        len: cursor.place() - offset,
    }
}

/// Adds the data item at the cursor, which the type to which the way leads leaves out.
fn put_one<M: FromCbor>(
    alloc: Global,
    way: &[u8],
    path: &[Step],
    value: &Value,
    cursor: &mut Cursor<'_>,
    dropped: &mut Vec<DroppedItem>,
) -> Result<(), OutOfMemory>
    requires { (t : Tested) × (reached way.now (tested M.typed) ≡ Some t) }
    ensures lists { (t : Tested) → reached way.now (tested M.typed) ≡ Some t → IfOk result (λ _. Adds
        (record { path = map step_of path.now; blame = blamed t.shape (item_of value.now) } ∷ [])
        dropped.old.items dropped.new.items) }
    ensures extents { (whole : Item) (bytes : List ℕ) → cursor.old.bytes ≡ bytes
        → Stands whole (map step_of path.now) (item_of value.now) bytes cursor.old.place
        → All (LiesIn whole bytes) dropped.old.items → IfOk result (λ _. All (LiesIn whole bytes) dropped.new.items) }
    ensures moves { GoesOn cursor.old cursor.new }
{
    let blame = explain_at::<M>(alloc, way, value)?;
    let path = Vec::from_slice(alloc, path)?;
    let extent = pass(cursor);
    dropped.push(DroppedItem {
        path,
        extent,
        blame,
    })?;
    Ok(())
}

/// Adds what is left out of the elements of an array, which follow at the cursor. The way leads to
/// their type.
#[cycle(dropped)]
fn put_elements<M: FromCbor>(
    alloc: Global,
    way: &[u8],
    path: &[Step],
    elements: &[Value],
    cursor: &mut Cursor<'_>,
    dropped: &mut Vec<DroppedItem>,
) -> Result<(), OutOfMemory>
    requires { (t : Tested) × (reached way.now (tested M.typed) ≡ Some t) }
    ensures lists { (t : Tested) → reached way.now (tested M.typed) ≡ Some t → IfOk result (λ _. Adds
        (dropped_elements (spec.dropped t.shape) (map step_of path.now) 0 (map item_of elements.now))
        dropped.old.items dropped.new.items) }
    ensures extents { (whole i : Item) (bytes : List ℕ) → cursor.old.bytes ≡ bytes
        → parts_of i ≡ map item_of elements.now
        → IsOpened whole (map step_of path.now) i bytes cursor.old.place
        → All (LiesIn whole bytes) dropped.old.items → IfOk result (λ _. All (LiesIn whole bytes) dropped.new.items) }
    ensures moves { GoesOn cursor.old cursor.new }
{
    for (index, element) in elements.iter().enumerate() {
        let place = cursor.place();
        let inner = following(alloc, path, Step::Element(index))?;
        put_dropped::<M>(alloc, way, &inner, element, cursor, dropped)?;
        cursor.go_back(place);
        cursor.skip();
    }
    Ok(())
}

/// Adds what is left out of the data item at the cursor if it is an array. The way leads to the
/// type of lists.
#[cycle(dropped)]
fn put_list<M: FromCbor>(
    alloc: Global,
    way: &[u8],
    path: &[Step],
    value: &Value,
    cursor: &mut Cursor<'_>,
    dropped: &mut Vec<DroppedItem>,
) -> Result<(), OutOfMemory>
    requires { (t : Tested) × (reached (way.now ++ 0 ∷ []) (tested M.typed) ≡ Some t) }
    ensures lists { (t : Tested) → reached (way.now ++ 0 ∷ []) (tested M.typed) ≡ Some t → IfOk result (λ _. Adds
        (dropped_list (spec.dropped t.shape) (map step_of path.now) (item_of value.now))
        dropped.old.items dropped.new.items) }
    ensures extents { (whole : Item) (bytes : List ℕ) → cursor.old.bytes ≡ bytes
        → Stands whole (map step_of path.now) (item_of value.now) bytes cursor.old.place
        → All (LiesIn whole bytes) dropped.old.items → IfOk result (λ _. All (LiesIn whole bytes) dropped.new.items) }
    ensures moves { GoesOn cursor.old cursor.new }
{
    match value {
        Value::Array(elements) => {
            let inner = further(alloc, way, 0)?;
            cursor.head();
            put_elements::<M>(alloc, &inner, path, elements, cursor, dropped)
        }
        _ => Ok(()),
    }
}

/// Adds a map key that names no member, which is encoded there. The path leads to the map.
fn put_unknown(
    alloc: Global,
    path: &[Step],
    index: usize,
    at: Extent,
    dropped: &mut Vec<DroppedItem>,
) -> Result<(), OutOfMemory>
    ensures lists { IfOk result (λ _. Adds
        (record { path = map step_of path.now ++ key index ∷ []; blame = at_fault BadKey } ∷ [])
        dropped.old.items dropped.new.items) }
    ensures extents { (whole : Item) (bytes : List ℕ)
        → LiesAlong (map step_of path.now ++ key index ∷ []) whole bytes 0 at.offset (at.offset + at.len)
        → All (LiesIn whole bytes) dropped.old.items → IfOk result (λ _. All (LiesIn whole bytes) dropped.new.items) }
{
    let blame = Blame {
        path: Vec::new(alloc),
        reason: Reason::Fault(Fault::BadKey),
    };
    dropped.push(DroppedItem {
        path: following(alloc, path, Step::Key(index))?,
        extent: at,
        blame,
    })?;
    Ok(())
}

/// Adds what is left out of the pair at the cursor, at this index of the map to which the path
/// leads.
#[cycle(dropped)]
fn put_pair<M: FromCbor>(
    alloc: Global,
    path: &[Step],
    ty: &MapType<'_>,
    index: usize,
    pair: &(Value, Value),
    cursor: &mut Cursor<'_>,
    dropped: &mut Vec<DroppedItem>,
) -> Result<(), OutOfMemory>
    requires { (of : ℕ → Leaving) × Leaves (tested M.typed) ty.now.way.now of (steps_by ty.now.keys) }
    ensures lists { (of : ℕ → Leaving) → Leaves (tested M.typed) ty.now.way.now of (steps_by ty.now.keys)
        → IfOk result (λ _. Adds (dropped_pair of (map step_of path.now) index
        (steps_by ty.now.keys index (pair_of pair.now).0) (pair_of pair.now).1)
        dropped.old.items dropped.new.items) }
    ensures extents { (whole : Item) (bytes : List ℕ) → cursor.old.bytes ≡ bytes
        → PairStands whole (map step_of path.now) index (pair_of pair.now) bytes cursor.old.place
        → All (LiesIn whole bytes) dropped.old.items → IfOk result (λ _. All (LiesIn whole bytes) dropped.new.items) }
    ensures moves { GoesOn cursor.old cursor.new }
{
    let (key, value) = pair;
    let key_at = pass(cursor);
    match step_to(&ty.keys, index, key) {
        Some((step, number)) => {
            let inner = further(alloc, ty.way, number)?;
            let longer = following(alloc, path, step)?;
            put_dropped::<M>(alloc, &inner, &longer, value, cursor, dropped)
        }
        None => put_unknown(alloc, path, index, key_at, dropped),
    }
}

/// Adds what is left out of a map of this type, whose pairs follow at the cursor.
#[cycle(dropped)]
fn put_pairs<M: FromCbor>(
    alloc: Global,
    path: &[Step],
    ty: &MapType<'_>,
    pairs: &[(Value, Value)],
    cursor: &mut Cursor<'_>,
    dropped: &mut Vec<DroppedItem>,
) -> Result<(), OutOfMemory>
    requires { (of : ℕ → Leaving) × Leaves (tested M.typed) ty.now.way.now of (steps_by ty.now.keys) }
    ensures lists { (of : ℕ → Leaving) → Leaves (tested M.typed) ty.now.way.now of (steps_by ty.now.keys)
        → IfOk result (λ _. Adds
        (dropped_pairs (steps_by ty.now.keys) of (map step_of path.now) 0 (map pair_of pairs.now))
        dropped.old.items dropped.new.items) }
    ensures extents { (whole i : Item) (bytes : List ℕ) → cursor.old.bytes ≡ bytes
        → parts_of i ≡ turns (map pair_of pairs.now)
        → IsOpened whole (map step_of path.now) i bytes cursor.old.place
        → All (LiesIn whole bytes) dropped.old.items → IfOk result (λ _. All (LiesIn whole bytes) dropped.new.items) }
    ensures moves { GoesOn cursor.old cursor.new }
{
    for (index, pair) in pairs.iter().enumerate() {
        let place = cursor.place();
        put_pair::<M>(alloc, path, ty, index, pair, cursor, dropped)?;
        cursor.go_back(place);
        cursor.skip();
        cursor.skip();
    }
    Ok(())
}

/// Adds what a map of this type leaves out of the data item at the cursor if it is a map.
#[cycle(dropped)]
fn put_map<M: FromCbor>(
    alloc: Global,
    path: &[Step],
    ty: &MapType<'_>,
    value: &Value,
    cursor: &mut Cursor<'_>,
    dropped: &mut Vec<DroppedItem>,
) -> Result<(), OutOfMemory>
    requires { (of : ℕ → Leaving) × Leaves (tested M.typed) ty.now.way.now of (steps_by ty.now.keys) }
    ensures lists { (of : ℕ → Leaving) → Leaves (tested M.typed) ty.now.way.now of (steps_by ty.now.keys)
        → IfOk result (λ _. Adds
        (dropped_map (steps_by ty.now.keys) of (map step_of path.now) (item_of value.now))
        dropped.old.items dropped.new.items) }
    ensures extents { (whole : Item) (bytes : List ℕ) → cursor.old.bytes ≡ bytes
        → Stands whole (map step_of path.now) (item_of value.now) bytes cursor.old.place
        → All (LiesIn whole bytes) dropped.old.items → IfOk result (λ _. All (LiesIn whole bytes) dropped.new.items) }
    ensures moves { GoesOn cursor.old cursor.new }
{
    match value {
        Value::Map(pairs) => {
            cursor.head();
            put_pairs::<M>(alloc, path, ty, pairs, cursor, dropped)
        }
        _ => Ok(()),
    }
}

/// Adds what the type to which the way leads leaves out of the data item at the cursor.
#[cycle(dropped)]
fn put_dropped<M: FromCbor>(
    alloc: Global,
    way: &[u8],
    path: &[Step],
    value: &Value,
    cursor: &mut Cursor<'_>,
    dropped: &mut Vec<DroppedItem>,
) -> Result<(), OutOfMemory>
    requires { (t : Tested) × (reached way.now (tested M.typed) ≡ Some t) }
    ensures lists { (t : Tested) → reached way.now (tested M.typed) ≡ Some t → IfOk result (λ _. Adds
        (spec.dropped t.shape (map step_of path.now) (item_of value.now)) dropped.old.items dropped.new.items) }
    ensures extents { (whole : Item) (bytes : List ℕ) → cursor.old.bytes ≡ bytes
        → Stands whole (map step_of path.now) (item_of value.now) bytes cursor.old.place
        → All (LiesIn whole bytes) dropped.old.items → IfOk result (λ _. All (LiesIn whole bytes) dropped.new.items) }
    ensures moves { GoesOn cursor.old cursor.new }
{
    let look = M::look(alloc, way, value)?;
    if !look.is_kept {
        return put_one::<M>(alloc, way, path, value, cursor, dropped);
    }
    match look.form {
        Form::Leaf(_) => Ok(()),
        Form::List => put_list::<M>(alloc, way, path, value, cursor, dropped),
        Form::Map => {
            let keys = Keys::Bytes;
            put_map::<M>(alloc, path, &MapType { way, keys }, value, cursor, dropped)
        }
        Form::Record(is_numbered, rows) => {
            let keys = Keys::Names(Table { is_numbered, rows });
            put_map::<M>(alloc, path, &MapType { way, keys }, value, cursor, dropped)
        }
    }
}

/// Lists what the message leaves out of the data item at the beginning of the bytes.
fn dropped_in<M: Message>(
    alloc: Global,
    bytes: &[u8],
    value: &Value,
) -> Result<Vec<DroppedItem>, OutOfMemory>
    requires { (len : ℕ) × IsLeadingItem bytes.now (item_of value.now) len }
    ensures { IfOk result (λ v. AreDropped M.Record.fields (item_of value.now) bytes.now v.items) }
{
    let mut dropped = Vec::new(alloc);
    let mut cursor = Cursor::new(bytes);
    put_dropped::<M>(alloc, &[], &[], value, &mut cursor, &mut dropped)?;
    Ok(dropped)
}

/// Lists what the message at the beginning of the bytes leaves out, at all levels and in the order
/// of the bytes. That is each data item that isn't kept where the message tolerates any, such as an
/// element of `transports`, with what in it is refused; and each map key that names no member
/// (`BadKey`), which is left out with its value. Each has the steps to it, and where it is encoded.
/// What is kept in another form isn't listed, such as a `type` that is decoded to `Unknown`.
/// Returns `None` exactly if the bytes don't begin with a well-formed data item of at most 256
/// levels, and `OutOfMemory` if an allocation fails. For a message that is refused as a whole,
/// which `explain` explains, it lists what would be left out beside that. It takes a few passes
/// over the bytes for each level at which records and lists are inside one another.
pub fn dropped<M: Message>(
    alloc: Global,
    bytes: &[u8],
) -> Result<Option<Vec<DroppedItem>>, OutOfMemory>
    ensures { IfOk result (ListsDropped M.Record.fields bytes.now) }
{
    match Value::from_slice(alloc, bytes) {
        Ok((value, _)) => Ok(Some(dropped_in::<M>(alloc, bytes, &value)?)),
        Err(CborError::OutOfMemory) => Err(OutOfMemory),
        Err(_) => Ok(None),
    }
}
