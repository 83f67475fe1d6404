//! The labels or operations before one.
ghost use Rattle.std.specs.List.{list_any};
ghost use Rattle.std.specs.Prelude.{◌≡◌, [], ◌∷◌, ◌++◌, List, None, not, IfOk, OnOk};
ghost use Rattle.passkey_cbor.specs.Item.{Item, number, text_string};
ghost use Rattle.passkey_cbor.specs.Same.{item_eq};
ghost use Rattle.passkey_cbor.specs.View.{item_of};
ghost use Rattle.passkey_cose.specs.KeyFaults.{name_fault};
ghost use Rattle.passkey_explain_data.specs.Names.{Holds};

use passkey_cbor::Value;
use passkey_memory::OutOfMemory;
use std::alloc::Global;
use std::collections::BTreeSet;

/// Integers and texts, ordered.
#[derive(Drop)]
pub(crate) struct Names<'a> {
    numbers: BTreeSet<i128>,
    texts: BTreeSet<&'a str>,
}

impl<'a> Names<'a> {
    pub(crate) fn new(alloc: Global) -> Names<'a>
        ensures { Holds result [] }
    {
        Names {
            numbers: BTreeSet::new(alloc),
            texts: BTreeSet::new(alloc),
        }
    }

    fn insert_number(&mut self, n: i128) -> Result<bool, OutOfMemory>
        ensures told { IfOk result (λ is_new. (names : List Item) → Holds self.old names →
            is_new ≡ not (list_any (item_eq (number n)) names)) }
        ensures held { OnOk result ((names : List Item) → Holds self.old names →
            Holds self.new (names ++ number n ∷ [])) }
    {
        match self.numbers.insert(n) {
            Ok(is_new) => Ok(is_new),
            Err(_) => Err(OutOfMemory),
        }
    }

    fn insert_text(&mut self, text: &'a str) -> Result<bool, OutOfMemory>
        ensures told { IfOk result (λ is_new. (names : List Item) → Holds self.old names →
            is_new ≡ not (list_any (item_eq (text_string text.now)) names)) }
        ensures held { OnOk result ((names : List Item) → Holds self.old names →
            Holds self.new (names ++ text_string text.now ∷ [])) }
    {
        match self.texts.insert(text) {
            Ok(is_new) => Ok(is_new),
            Err(_) => Err(OutOfMemory),
        }
    }

    /// Adds a label or an operation, and returns whether it is new.
    pub(crate) fn insert(&mut self, name: &'a Value) -> Result<bool, OutOfMemory>
        requires { name_fault (item_of name.now) ≡ None }
        ensures told { IfOk result (λ is_new. (names : List Item) → Holds self.old names →
            is_new ≡ not (list_any (item_eq (item_of name.now)) names)) }
        ensures held { OnOk result ((names : List Item) → Holds self.old names →
            Holds self.new (names ++ item_of name.now ∷ [])) }
    {
        match name {
            Value::Integer(n) => self.insert_number(n.get()),
            Value::Text(text) => self.insert_text(text.as_str()),
            _ => unreachable!(),
        }
    }
}
