//! What a type that refuses a data item blames.
ghost use Rattle.std.specs.Prelude.{◌≡◌, ◌++◌, ◌∷◌, [], ℕ, true, false, length, map, get_or, option_map, is_some, IfOk, IfSome, Some, None};
ghost use Rattle.passkey_kinds.specs.Kind.{bytes_from};
ghost use Rattle.passkey_kinds.specs.Look.{tested, HasForm};
ghost use Rattle.passkey_kinds.specs.Record.{names};
ghost use Rattle.passkey_kinds.specs.Shape.{Rows, Tested, reached};
ghost use Rattle.passkey_kinds.specs.Words.{Item, item_of, pair_of, entry_of, elements_in, members_in};
ghost use Rattle.passkey_kinds.specs.declared.look.Form.TheVariants.{List, Map, Record};
ghost use Rattle.passkey_explain.specs.Blame.{Blame as Blamed, blame_of};
ghost use Rattle.passkey_explain.specs.Blaming.{accepts_in, blamed, blame_elements, blame_entries, blame_one, blame_from, name_at, seen_with};
ghost use Rattle.passkey_explain.specs.Next.{IntoRow, IsRecordAt, NextIs, blame_next};

use crate::{Blame, Reason, Step};
use passkey_bytes::Bytes;
use passkey_cbor::Value;
use passkey_kinds::{
    Fault, Form, FromCbor, Named, OutOfMemory, Refusal, Row, Wanted, first_missing, is_marked,
    mark, no_marks, row_of,
};
use std::alloc::Global;

/// Where what is to blame is, seen from a data item that is refused.
#[derive(Clone, Copy)]
enum Next<'a> {
    /// It is the item itself, for this reason.
    Here(Reason),
    /// It is the key of the pair at this index, for this reason.
    Key(usize, Reason),
    /// It is in the part of the item to which the step leads, or is that part. The number leads to
    /// the part's type.
    Into(Step, u8, &'a Value),
}

/// Returns the way with one more number.
pub(crate) fn further(alloc: Global, way: &[u8], number: u8) -> Result<Vec<u8>, OutOfMemory>
    ensures { IfOk result (λ v. v.items ≡ way.now ++ number ∷ []) }
{
    let mut longer = Vec::from_slice(alloc, way)?;
    longer.push(number)?;
    Ok(longer)
}

/// Returns the first of the elements that is refused. The way leads to their type.
fn next_element<'a, M: FromCbor>(
    alloc: Global,
    way: &[u8],
    elements: &'a [Value],
) -> Result<Next<'a>, OutOfMemory>
    ensures { (t : Tested) → reached way.now (tested M.typed) ≡ Some t → (of : Item → Blamed)
        → IfOk result (λ n. blame_next (λ k. of) n ≡ blame_elements t.accepts of 0 (map item_of elements.now)) }
{
    for (index, element) in elements.iter().enumerate() {
        if !M::look(alloc, way, element)?.is_accepted {
            return Ok(Next::Into(Step::Element(index), 0, element));
        }
    }
    Ok(Next::Here(Reason::Wanted(Wanted::Array)))
}

/// Returns whether the item is bytes.
fn is_bytes(alloc: Global, value: &Value) -> Result<bool, OutOfMemory>
    ensures { IfOk result (λ b. b ≡ is_some (bytes_from (item_of value.now))) }
{
    match Bytes::from_value(alloc, value) {
        Ok(_) => Ok(true),
        Err(Refusal::Refused) => Ok(false),
        Err(Refusal::OutOfMemory) => Err(OutOfMemory),
    }
}

/// Returns the first key that isn't bytes, or value that is refused. The way leads to the type of
/// the values.
fn next_entry<'a, M: FromCbor>(
    alloc: Global,
    way: &[u8],
    pairs: &'a [(Value, Value)],
) -> Result<Next<'a>, OutOfMemory>
    ensures { (t : Tested) → reached way.now (tested M.typed) ≡ Some t → (of : Item → Blamed)
        → IfOk result (λ n. blame_next (λ k. of) n ≡ blame_entries t.accepts of 0 (map pair_of pairs.now)) }
{
    for (index, (key, value)) in pairs.iter().enumerate() {
        if !is_bytes(alloc, key)? {
            return Ok(Next::Key(index, Reason::Wanted(Wanted::Bytes)));
        }
        if !M::look(alloc, way, value)?.is_accepted {
            return Ok(Next::Into(Step::Value(index), 0, value));
        }
    }
    Ok(Next::Here(Reason::Wanted(Wanted::Map)))
}

/// Returns the name of the row with this number.
pub(crate) fn name_of(rows: &[Row], number: u8) -> &'static str
    ensures { result.now ≡ name_at (map entry_of rows.now) number }
{
    for row in rows {
        if row.number() == number {
            return row.name();
        }
    }
    ""
}

/// The rows of a record.
#[derive(Clone, Copy)]
pub(crate) struct Table {
    pub(crate) is_numbered: bool,
    pub(crate) rows: &'static [Row],
}

/// Returns what is to blame for the fault of the pair at this index, if it has one. Otherwise marks
/// the row that its key names. The way leads to the record.
fn next_member<'a, M: FromCbor>(
    alloc: Global,
    way: &[u8],
    table: &Table,
    seen: &mut [bool; 256],
    index: usize,
    key: &Value,
    value: &'a Value,
) -> Result<Option<Next<'a>>, OutOfMemory>
    ensures blames { (rows : Rows) → IsRecordAt way.now (tested M.typed) rows table.now.is_numbered
        (map entry_of table.now.rows.now) → (of : ℕ → Item → Blamed) → IfOk result (λ o. option_map (blame_next of) o
        ≡ blame_one (map entry_of table.now.rows.now) (accepts_in rows) of index
        (names table.now.is_numbered (map entry_of table.now.rows.now) (item_of key.now)) (item_of value.now)
        (λ n. get_or seen.old n false)) }
    ensures into { (rows : Rows) → IsRecordAt way.now (tested M.typed) rows table.now.is_numbered
        (map entry_of table.now.rows.now) → IfOk result (λ o. IfSome o (IntoRow rows)) }
    ensures marks { (rows : Rows) → IsRecordAt way.now (tested M.typed) rows table.now.is_numbered
        (map entry_of table.now.rows.now) → result ≡ Ok None → (n : ℕ) → get_or seen.new n false
        ≡ seen_with (names table.now.is_numbered (map entry_of table.now.rows.now) (item_of key.now))
        (λ m. get_or seen.old m false) n }
{
    let number = match row_of(table.is_numbered, table.rows, key) {
        Some(Named::Row(number)) => number,
        Some(Named::Unknown) => return Ok(None),
        None => return Ok(Some(Next::Key(index, Reason::Fault(Fault::BadKey)))),
    };
    if is_marked(seen, number) {
        let reason = Reason::Fault(Fault::Repeated(number));
        return Ok(Some(Next::Key(index, reason)));
    }
    let inner = further(alloc, way, number)?;
    if M::look(alloc, &inner, value)?.is_accepted {
        mark(seen, number);
        Ok(None)
    } else {
        let step = Step::Member(index, number, name_of(table.rows, number));
        Ok(Some(Next::Into(step, number, value)))
    }
}

/// Returns what is to blame if one of the pairs has a fault, or a required member is absent. The way
/// leads to the record.
fn next_pair<'a, M: FromCbor>(
    alloc: Global,
    way: &[u8],
    table: &Table,
    pairs: &'a [(Value, Value)],
) -> Result<Next<'a>, OutOfMemory>
    ensures blames { (rows : Rows) → IsRecordAt way.now (tested M.typed) rows table.now.is_numbered
        (map entry_of table.now.rows.now) → (of : ℕ → Item → Blamed) → IfOk result (λ n. blame_next of n
        ≡ blame_from (map entry_of table.now.rows.now) (accepts_in rows) of table.now.is_numbered 0
        (map pair_of pairs.now) (λ n. false)) }
    ensures into { (rows : Rows) → IsRecordAt way.now (tested M.typed) rows table.now.is_numbered
        (map entry_of table.now.rows.now) → IfOk result (IntoRow rows) }
{
    let mut seen = no_marks();
    for (index, (key, value)) in pairs.iter().enumerate() {
        match next_member::<M>(alloc, way, table, &mut seen, index, key, value)? {
            Some(next) => return Ok(next),
            None => {}
        }
    }
    match first_missing(table.rows, &seen) {
        Some(number) => Ok(Next::Here(Reason::Fault(Fault::Missing(number)))),
        None => Ok(Next::Here(Reason::Wanted(Wanted::Map))),
    }
}

/// Returns the elements of an array.
#[tactic(auto, using(crate::proofs::Blames::in_array))]
fn elements_of(value: &Value) -> Option<&[Value]>
    ensures { option_map (λ xs. map item_of xs.now) result ≡ elements_in (item_of value.now) }
{
    match value {
        Value::Array(elements) => Some(elements),
        _ => None,
    }
}

/// Returns the pairs of a map.
#[tactic(auto, using(passkey_kinds::proofs::Members::reads_map))]
fn pairs_of(value: &Value) -> Option<&[(Value, Value)]>
    ensures { option_map (λ ps. map pair_of ps.now) result ≡ members_in (item_of value.now) }
{
    match value {
        Value::Map(pairs) => Some(pairs),
        _ => None,
    }
}

fn next_in_list<'a, M: FromCbor>(
    alloc: Global,
    way: &[u8],
    value: &'a Value,
) -> Result<Next<'a>, OutOfMemory>
    ensures { (t : Tested) → reached way.now (tested M.typed) ≡ Some t → HasForm t.shape List
        → IfOk result (NextIs t (item_of value.now)) }
{
    match elements_of(value) {
        Some(elements) => next_element::<M>(alloc, &further(alloc, way, 0)?, elements),
        None => Ok(Next::Here(Reason::Wanted(Wanted::Array))),
    }
}

fn next_in_map<'a, M: FromCbor>(
    alloc: Global,
    way: &[u8],
    value: &'a Value,
) -> Result<Next<'a>, OutOfMemory>
    ensures { (t : Tested) → reached way.now (tested M.typed) ≡ Some t → HasForm t.shape Map
        → IfOk result (NextIs t (item_of value.now)) }
{
    match pairs_of(value) {
        Some(pairs) => next_entry::<M>(alloc, &further(alloc, way, 0)?, pairs),
        None => Ok(Next::Here(Reason::Wanted(Wanted::Map))),
    }
}

fn next_in_record<'a, M: FromCbor>(
    alloc: Global,
    way: &[u8],
    table: &Table,
    value: &'a Value,
) -> Result<Next<'a>, OutOfMemory>
    ensures { (t : Tested) → reached way.now (tested M.typed) ≡ Some t
        → HasForm t.shape (Record table.now.is_numbered table.now.rows) → IfOk result (NextIs t (item_of value.now)) }
{
    match pairs_of(value) {
        Some(pairs) => next_pair::<M>(alloc, way, table, pairs),
        None => Ok(Next::Here(Reason::Fault(Fault::NotAMap))),
    }
}

/// Returns where what is to blame is in the item, if the type to which the way leads refuses it.
fn next_part<'a, M: FromCbor>(
    alloc: Global,
    way: &[u8],
    value: &'a Value,
) -> Result<Next<'a>, OutOfMemory>
    ensures { (t : Tested) → reached way.now (tested M.typed) ≡ Some t → IfOk result (NextIs t (item_of value.now)) }
{
    match M::look(alloc, way, value)?.form {
        Form::Leaf(wanted) => Ok(Next::Here(Reason::Wanted(wanted))),
        Form::List => next_in_list::<M>(alloc, way, value),
        Form::Map => next_in_map::<M>(alloc, way, value),
        Form::Record(is_numbered, rows) => {
            next_in_record::<M>(alloc, way, &Table { is_numbered, rows }, value)
        }
    }
}

/// Returns what is to blame if the type to which the way leads refuses the data item: the innermost
/// item, or map key, that is refused, and why. Nothing is promised for an item that the type
/// accepts. Returns `OutOfMemory` if an allocation fails.
pub fn explain_at<M: FromCbor>(
    alloc: Global,
    from: &[u8],
    value: &Value,
) -> Result<Blame, OutOfMemory>
    requires { (t : Tested) × (reached from.now (tested M.typed) ≡ Some t) }
    ensures { (t : Tested) → reached from.now (tested M.typed) ≡ Some t
        → IfOk result (λ b. blame_of b ≡ blamed t.shape (item_of value.now)) }
{
    let mut path = Vec::new(alloc);
    let mut way = Vec::from_slice(alloc, from)?;
    let mut here = value;
    loop {
        match next_part::<M>(alloc, &way, here)? {
            Next::Here(reason) => return Ok(Blame { path, reason }),
            Next::Key(index, reason) => {
                path.push(Step::Key(index))?;
                return Ok(Blame { path, reason });
            }
            Next::Into(step, number, part) => {
                path.push(step)?;
                way.push(number)?;
                here = part;
            }
        }
    }
}
