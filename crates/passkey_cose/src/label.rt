//! Labels.
ghost use Rattle.std.specs.Prelude.{◌≡◌, ◌↔◌, IsTrue, IfOk, OnErr};
ghost use Rattle.std.specs.Cmp.{on_equiv, on_per, partial_equiv_from_equiv};
ghost use Rattle.std.specs.Ordering.{on};
ghost use Rattle.passkey_cbor.specs.Grows.{Grows};
ghost use Rattle.passkey_cbor.specs.Same.{item_eq};
ghost use Rattle.passkey_cbor.specs.SameItems.{item_eq-equivalence};
ghost use Rattle.passkey_cose.specs.Label.{label_item};

use passkey_memory::OutOfMemory;
use std::alloc::Global;

/// The label of a key's parameter (RFC 9052, section 1.4).
#[derive(Debug, Drop)]
pub enum Label {
    /// An integer.
    Int(i64),
    /// A text string.
    Text(String),
}

impl Label {
    /// Returns an equal label. `OutOfMemory` if the allocation fails, which can't happen for a
    /// number.
    pub fn try_clone(&self, alloc: Global) -> Result<Label, OutOfMemory>
        ensures same { IfOk result (λ l. label_item l ≡ label_item self.now) }
        ensures grows { OnErr result (Grows (label_item self.now)) }
    {
        match self {
            Label::Int(n) => Ok(Label::Int(*n)),
            Label::Text(text) => Ok(Label::Text(String::from_str(alloc, text.as_str())?)),
        }
    }
}

impl PartialEq for Label {
    ghost eq = { on label_item item_eq };

    ghost laws = { on_per label_item (partial_equiv_from_equiv item_eq-equivalence) };

    /// Whether both are the same number or the same text.
    #[tactic(auto, using(passkey_cbor::specs::SameItems::item_Decides))]
    fn eq(&self, other: &Label) -> bool
        ensures value { result ≡ item_eq (label_item self.now) (label_item other.now) }
        ensures same { IsTrue result ↔ (label_item self.now ≡ label_item other.now) }
    {
        match (self, other) {
            (Label::Int(a), Label::Int(b)) => a == b,
            (Label::Text(a), Label::Text(b)) => a.as_str() == b.as_str(),
            _ => false,
        }
    }
}

impl Eq for Label {
    ghost laws = { on_equiv label_item item_eq-equivalence };
}
