//! Data items of which nothing is known.
ghost use Rattle.std.specs.Prelude.{◌≡◌, ◌++◌, ◌∷◌, [], OnOk, IfOk, map};
ghost use Rattle.passkey_cbor.specs.Item as item;
ghost use Rattle.passkey_cbor.specs.View.{item_of, items_view, pairs_view};
ghost use Rattle.passkey_explain.specs.Described as spec;
ghost use Rattle.passkey_explain.specs.Described.{described_of, labelled};
ghost use Rattle.passkey_kinds.specs.declared.wanted.Wanted.TheVariants as wanted;
ghost use Rattle.passkey_explain.specs.DescribedData.{described_item, wanted_by};

use crate::description::Description;
use passkey_cbor::Value;
use passkey_kinds::Wanted;
use passkey_memory::OutOfMemory;
use std::alloc::Global;
use std::mem::{forget, replace};

/// Returns what is wanted after a map key of attestation statements (WebAuthn Level 3, section 8).
fn wanted_by(key: &Value) -> Wanted
    ensures { result ≡ wanted_by (item_of key.now) }
{
    match key {
        Value::Text(name) => match name.as_str() {
            "alg" => Wanted::Algorithm,
            _ => Wanted::Any,
        },
        _ => Wanted::Any,
    }
}

/// A description to be replaced, which takes no memory.
const BLANK: Description = Description::Leaf(Wanted::Any, Value::Null);

// Puts a description in a place that is blank, which needs no drop.
#[inline(always)]
fn put(out: &mut Description, description: Description)
    ensures { out.new ≡ description }
{
    forget(replace(out, description));
}

// A description is made in the place that its caller lends, by functions that aren't inlined: a level of
// nesting takes less of the stack.
#[inline(never)]
fn describe_whole(
    alloc: Global,
    wanted: Wanted,
    value: &Value,
    out: &mut Description,
) -> Result<(), OutOfMemory>
    ensures { OnOk result (described_of out.new ≡ spec.leaf wanted (item_of value.now)) }
{
    put(out, Description::Leaf(wanted, value.try_clone(alloc)?));
    Ok(())
}

/// Appends the description of an element.
#[inline(never)]
fn append_element(all: &mut Vec<Description>, description: Description) -> Result<(), OutOfMemory>
    ensures { OnOk result (all.new.items ≡ all.old.items ++ description ∷ []) }
{
    Ok(all.push(description)?)
}

#[cycle(described)]
#[inline(never)]
fn describe_array(
    alloc: Global,
    elements: &[Value],
    out: &mut Description,
) -> Result<(), OutOfMemory>
    ensures { OnOk result (described_of out.new
        ≡ described_item wanted.Any (item.array (items_view elements.now))) }
{
    let mut all = Vec::new(alloc);
    for element in elements {
        let mut description = BLANK;
        describe_as(alloc, Wanted::Any, element, &mut description)?;
        append_element(&mut all, description)?;
    }
    put(out, Description::List(all));
    Ok(())
}

/// Appends a key and the description of its value.
#[inline(never)]
fn append_pair(
    alloc: Global,
    all: &mut Vec<(Value, Description)>,
    key: &Value,
    description: Description,
) -> Result<(), OutOfMemory>
    ensures { OnOk result (map (λ p. labelled (spec.key (item_of p.0)) (described_of p.1)) all.new.items
        ≡ map (λ p. labelled (spec.key (item_of p.0)) (described_of p.1)) all.old.items
        ++ labelled (spec.key (item_of key.now)) (described_of description) ∷ []) }
{
    Ok(all.push((key.try_clone(alloc)?, description))?)
}

#[cycle(described)]
#[inline(never)]
fn describe_map(
    alloc: Global,
    pairs: &[(Value, Value)],
    out: &mut Description,
) -> Result<(), OutOfMemory>
    ensures { OnOk result (described_of out.new
        ≡ described_item wanted.Any (item.map (pairs_view pairs.now))) }
{
    let mut all = Vec::new(alloc);
    for (key, value) in pairs {
        let mut description = BLANK;
        describe_as(alloc, wanted_by(key), value, &mut description)?;
        append_pair(alloc, &mut all, key, description)?;
    }
    put(out, Description::Map(all));
    Ok(())
}

#[cycle(described)]
#[inline(always)]
fn describe_as(
    alloc: Global,
    wanted: Wanted,
    value: &Value,
    out: &mut Description,
) -> Result<(), OutOfMemory>
    ensures { OnOk result (described_of out.new ≡ described_item wanted (item_of value.now)) }
{
    match value {
        Value::Array(elements) => describe_array(alloc, elements, out),
        Value::Map(pairs) => describe_map(alloc, pairs, out),
        _ => describe_whole(alloc, wanted, value, out),
    }
}

/// Describes a data item of which nothing is known: its elements and members. Returns `OutOfMemory`
/// if an allocation fails.
pub fn describe_item(alloc: Global, value: &Value) -> Result<Description, OutOfMemory>
    ensures { IfOk result (λ d. described_of d ≡ described_item wanted.Any (item_of value.now)) }
{
    let mut description = BLANK;
    describe_as(alloc, Wanted::Any, value, &mut description)?;
    Ok(description)
}
