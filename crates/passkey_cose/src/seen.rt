//! The labels or operations seen so far, to find repeated ones.
ghost use Rattle.std.specs.List.{list_any};
ghost use Rattle.std.specs.Prelude.{◌≡◌, [], ◌∷◌, ◌++◌, List, None, not, IfSome};
ghost use Rattle.passkey_cbor.specs.Item.{Item, number, text_string};
ghost use Rattle.passkey_cbor.specs.Same.{item_eq};
ghost use Rattle.passkey_cbor.specs.View.{item_of};
ghost use Rattle.passkey_cose.specs.KeyFaults.{name_fault};
ghost use Rattle.passkey_cose.specs.Seen.{HoldsNames, Holds};

use passkey_cbor::Value;
use std::alloc::Global;
use std::collections::BTreeSet;

/// Numbers and texts seen so far, ordered.
#[derive(Drop)]
pub(super) struct Seen<'a> {
    numbers: BTreeSet<i128>,
    texts: BTreeSet<&'a str>,
    /// False once some may be missing. From then on nothing is added.
    is_whole: bool,
}

impl<'a> Seen<'a> {
    /// The empty set. If `is_whole` is false, nothing is ever added.
    pub(super) fn new(alloc: Global, is_whole: bool) -> Seen<'a>
        ensures { Holds result [] }
    {
        Seen {
            numbers: BTreeSet::new(alloc),
            texts: BTreeSet::new(alloc),
            is_whole,
        }
    }

    fn insert_number(&mut self, n: i128) -> Option<bool>
        ensures told { IfSome result (λ is_new. (names : List Item) → HoldsNames self.old names →
            is_new ≡ not (list_any (item_eq (number n)) names)) }
        ensures held { (names : List Item) → HoldsNames self.old names →
            Holds self.new (names ++ number n ∷ []) }
    {
        match self.numbers.insert(n) {
            Ok(is_new) => Some(is_new),
            Err(_) => {
                self.is_whole = false;
                None
            }
        }
    }

    fn insert_text(&mut self, text: &'a str) -> Option<bool>
        ensures told { IfSome result (λ is_new. (names : List Item) → HoldsNames self.old names →
            is_new ≡ not (list_any (item_eq (text_string text.now)) names)) }
        ensures held { (names : List Item) → HoldsNames self.old names →
            Holds self.new (names ++ text_string text.now ∷ []) }
    {
        match self.texts.insert(text) {
            Ok(is_new) => Some(is_new),
            Err(_) => {
                self.is_whole = false;
                None
            }
        }
    }

    /// Adds a label or operation and returns whether it is new; `None` if earlier ones may be
    /// missing because an allocation failed.
    pub(super) fn insert(&mut self, name: &'a Value) -> Option<bool>
        requires { name_fault (item_of name.now) ≡ None }
        ensures told { IfSome result (λ is_new. (names : List Item) → Holds self.old names →
            is_new ≡ not (list_any (item_eq (item_of name.now)) names)) }
        ensures held { (names : List Item) → Holds self.old names →
            Holds self.new (names ++ item_of name.now ∷ []) }
    {
        if !self.is_whole {
            return None;
        }
        match name {
            Value::Integer(n) => self.insert_number(n.get()),
            Value::Text(text) => self.insert_text(text.as_str()),
            _ => unreachable!(),
        }
    }
}
