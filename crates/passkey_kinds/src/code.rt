//! Open enumerations of numbers below 256.
ghost use Rattle.std.specs.Prelude.{◌≡◌, ◌<◌, ◌^◌, ℕ, List, suc, is_ok, OnOk, option_map, Some};
ghost use Rattle.passkey_kinds.specs.Words.{Item, Sets, IfPresent, MemberAccepted, nothing, number_tree, optional, put_one};
ghost use Rattle.passkey_kinds.specs.Numbered.{code_among, code_in};

use crate::{OutOfMemory, Refusal, Sink, Source};
use std::alloc::Global;

/// An open enumeration: each number below 256 has a value, so that numbers of later versions of the
/// standard are kept. A value without a name that has the number of a named one is decoded again as
/// the named one.
pub trait Code: Copy + 'static {
    /// The number of each value.
    ghost byte_of: { Self → ℕ };

    /// The values that have a name.
    ghost named: { List Self };

    /// The value of a number that no named one has.
    ghost other: { ℕ → Self };

    /// Returns the value's number.
    fn byte(&self) -> u8
        ensures { result ≡ byte_of self.now };

    /// Returns the values that have a name.
    fn named() -> &'static [Self]
        ensures { result.now ≡ named };

    /// Returns the value of a number that no named one has.
    fn other(byte: u8) -> Self
        ensures { result ≡ other byte };

    ghost other_keeps: { (n : ℕ) → byte_of (other n) ≡ n };

    /// Returns the number's value.
    fn from_byte(byte: u8) -> Self
        ensures { result ≡ code_in byte_of other named byte }
    {
        for value in Self::named() {
            if value.byte() == byte {
                return *value;
            }
        }
        Self::other(byte)
    }

    /// Each number is that of its value. Does nothing.
    #[tactic(auto, using(crate::proofs::Numbered::code_keeps))]
    fn keeps_numbers()
        ensures { (n : ℕ) → byte_of (code_in byte_of other named n) ≡ n }
    {}
}

/// Decodes the item, an unsigned integer below 256, into the field. Returns `Refused` for any other
/// item.
pub fn set_code<T: Code, S: Source>(
    field: &mut T,
    alloc: Global,
    source: &mut S,
) -> Result<(), Refusal>
    ensures sets { (i : Item) (to : ℕ) → S.At source.old i to
        → Sets (λ c. c) (code_among T.byte_of T.other T.named) i field.new result }
    ensures spends { (i : Item) (to : ℕ) → S.At source.old i to
        → S.HasCost 1 nothing (Some (code_among T.byte_of T.other T.named).shape) i to
        source.old source.new (is_ok result) }
    ensures onward { S.IsOnward source.old source.new }
    ensures further { OnOk result (S.IsFurther source.old source.new) }
{
    let byte: u8 = source.read(alloc)?;
    *field = T::from_byte(byte);
    Ok(())
}

/// Does the same for a field that becomes `None` if the item is null.
#[tactic(auto, using(crate::proofs::Numbered::some_code))]
pub fn set_some_code<T: Code, S: Source>(
    field: &mut Option<T>,
    alloc: Global,
    source: &mut S,
) -> Result<(), Refusal>
    ensures sets { (i : Item) (to : ℕ) → S.At source.old i to
        → Sets (λ c. c) (optional (code_among T.byte_of T.other T.named)) i field.new result }
    ensures spends { (i : Item) (to : ℕ) → S.At source.old i to
        → S.HasCost 2 nothing (Some (code_among T.byte_of T.other T.named).shape) i to
        source.old source.new (is_ok result) }
    ensures onward { S.IsOnward source.old source.new }
    ensures further { OnOk result (S.IsFurther source.old source.new) }
{
    let byte: Option<u8> = source.read(alloc)?;
    *field = match byte {
        Some(byte) => Some(T::from_byte(byte)),
        None => None,
    };
    Ok(())
}

/// Puts a member under this number if the value is present. Returns `OutOfMemory` if an allocation
/// fails.
#[tactic(auto, unfolding(crate::specs::Tree::put_one))]
pub fn put_some_code<T: Code, S: Sink>(
    sink: &mut S,
    alloc: Global,
    number: u8,
    code: &Option<T>,
) -> Result<(), OutOfMemory>
    ensures put { OnOk result (S.state sink.new ≡ put_one S.step (S.state sink.old) (number_tree number)
        (option_map (λ c. number_tree (T.byte_of c)) code.now)) }
    ensures accepts { OnOk result (MemberAccepted S.Accepts (number_tree number)
        (option_map (λ c. number_tree (T.byte_of c)) code.now)) }
    ensures fits { OnOk result (S.Encodes → IfPresent (λ c. T.byte_of c < 2 ^ 8) code.now) }
{
    match code {
        Some(code) => sink.put(alloc, number, &code.byte()),
        None => Ok(()),
    }
}
