//! Registries of numbers.
ghost use Rattle.std.specs.Prelude.{◌≡◌, ◌↔◌, ℤ, Option, Some};

/// The values of a registry, each with its number.
pub trait EnumI64: Copy {
    ghost number_of: { Self → ℤ };

    ghost named: { ℤ → Option Self };

    /// Returns the value with this number; `None` if no value has it.
    fn from_i64(number: i64) -> Option<Self>
        ensures { result ≡ named number };

    /// The value's number.
    fn to_i64(self) -> i64
        ensures { result ≡ number_of self };

    ghost numbers_name: { (z : ℤ) (a : Self) → (named z ≡ Some a ↔ number_of a ≡ z) };
}
