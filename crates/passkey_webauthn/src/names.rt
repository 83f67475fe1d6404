//! Enumerations whose values have names.
ghost use Rattle.std.specs.Prelude.{◌≡◌, Some, map};
ghost use Rattle.passkey_webauthn.specs.Names.{Names, name_in, row_of, value_in};

/// The values of an enumeration, by their names in messages.
pub trait EnumNames: Copy + PartialEq + 'static {
    /// The names, each with its value. A value's first name is its own; others, such as `cable`, are
    /// only decoded.
    ghost table: { Names Self };

    /// Returns the table.
    fn table() -> &'static [(&'static str, Self)]
        ensures { map row_of result.now ≡ table };

    /// Returns the value with this name; `None` if no value has it.
    fn from_name(name: &str) -> Option<Self>
        ensures { result ≡ value_in table name.now }
    {
        for (text, value) in Self::table() {
            if *text == name {
                return Some(*value);
            }
        }
        None
    }

    /// The value's name.
    fn name(self) -> &'static str
        ensures { result.now ≡ name_in Self.eq table self }
    {
        for (text, value) in Self::table() {
            if *value == self {
                return text;
            }
        }
        // No value is without a name.
        ""
    }

    ghost name_is_own: { (x : Self) → value_in table (name_in Self.eq table x) ≡ Some x };
}
