//! Values in IANA's registries.
ghost use Rattle.std.specs.Prelude.{◌≡◌, ◌↔◌, IsTrue, IfOk, OnErr};
ghost use Rattle.std.specs.Cmp.{on_equiv, on_per, partial_equiv_from_equiv};
ghost use Rattle.std.specs.Ordering.{on};
ghost use Rattle.passkey_cose.specs.Registered.{named_of, named_eq, IsText};
ghost use Rattle.passkey_cose.specs.RegisteredSame.{named_eq-equivalence};

use crate::iana::EnumI64;
use passkey_memory::OutOfMemory;
use std::alloc::Global;

/// A value of an IANA registry: an assigned one, or another number or a text (RFC 9052, section
/// 7.1).
#[derive(Debug, Drop)]
pub enum Registered<T> {
    /// An assigned value.
    Assigned(T),
    /// A number. Decoding returns `Assigned` for a number that `T` assigns.
    Other(i64),
    /// A text.
    Text(String),
}

impl<T: EnumI64> Registered<T> {
    /// Returns an equal value. `OutOfMemory` if the allocation fails, which can happen only for a
    /// text.
    pub fn try_clone(&self, alloc: Global) -> Result<Registered<T>, OutOfMemory>
        ensures same { IfOk result (λ r. named_of r ≡ named_of self.now) }
        ensures grows { OnErr result (IsText (named_of self.now)) }
    {
        match self {
            Registered::Assigned(value) => Ok(Registered::Assigned(*value)),
            Registered::Other(n) => Ok(Registered::Other(*n)),
            Registered::Text(text) => Ok(Registered::Text(String::from_str(alloc, text.as_str())?)),
        }
    }
}

fn equal<T: EnumI64>(a: &Registered<T>, b: &Registered<T>) -> bool
    ensures { result ≡ named_eq T.number_of (named_of a.now) (named_of b.now) }
{
    match (a, b) {
        (Registered::Assigned(a), Registered::Assigned(b)) => a.to_i64() == b.to_i64(),
        (Registered::Other(a), Registered::Other(b)) => a == b,
        (Registered::Text(a), Registered::Text(b)) => a.as_str() == b.as_str(),
        _ => false,
    }
}

impl<T: EnumI64> PartialEq for Registered<T> {
    ghost eq = { on named_of (named_eq T.number_of) };

    ghost laws = { on_per named_of (partial_equiv_from_equiv (named_eq-equivalence T.numbers_name)) };

    /// Whether both are the same assigned value, the same other number, or the same text.
    #[tactic(auto, using(crate::specs::RegisteredSame::named_Decides))]
    fn eq(&self, other: &Registered<T>) -> bool
        ensures value { result ≡ named_eq T.number_of (named_of self.now) (named_of other.now) }
        ensures same { IsTrue result ↔ (named_of self.now ≡ named_of other.now) }
    {
        equal(self, other)
    }
}

impl<T: EnumI64> Eq for Registered<T> {
    ghost laws = { on_equiv named_of (named_eq-equivalence T.numbers_name) };
}
