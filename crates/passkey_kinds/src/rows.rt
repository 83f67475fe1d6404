//! The rows of a table, by number and name.
ghost use Rattle.std.specs.Prelude.{◌≡◌, ◌==◌, map};
ghost use Rattle.std.specs.List.{find};
ghost use Rattle.passkey_kinds.specs.Words.{HasNoName, item_of, named_as, naming_of, entry_of, names, row_named, row_or_unknown, number_names};

use passkey_cbor::Value;

/// A row of a table: a member's number and name. If members have names alone, the number is the
/// row's place in the table.
#[derive(Clone, Copy)]
pub enum Row {
    /// The member is required.
    Required(u8, &'static str),
    /// The member is optional.
    Optional(u8, &'static str),
    /// The member is optional, and a map may have it under another name, which comes second.
    Aliased(u8, &'static str, &'static str),
}

impl Row {
    /// Returns the member's number.
    pub fn number(&self) -> u8
        ensures { result ≡ (entry_of self.now).number }
    {
        match self {
            Row::Required(number, _) | Row::Optional(number, _) | Row::Aliased(number, _, _) => {
                *number
            }
        }
    }

    /// Returns the member's name.
    pub fn name(&self) -> &'static str
        ensures { result.now ≡ (entry_of self.now).name }
    {
        match self {
            Row::Required(_, name) | Row::Optional(_, name) | Row::Aliased(_, name, _) => name,
        }
    }

    /// Returns the member's other name, or its name if it has no other one.
    pub(crate) fn other_name(&self) -> &'static str
        ensures { result.now ≡ (entry_of self.now).other }
    {
        match self {
            Row::Required(_, name) | Row::Optional(_, name) | Row::Aliased(_, _, name) => name,
        }
    }

    pub(crate) fn is_required(&self) -> bool
        ensures { result ≡ (entry_of self.now).is_required }
    {
        match self {
            Row::Required(..) => true,
            Row::Optional(..) | Row::Aliased(..) => false,
        }
    }
}

/// What a map key names.
#[derive(Clone, Copy)]
pub enum Named {
    /// The row with this number.
    Row(u8),
    /// No row of the table.
    Unknown,
}

/// Finds the row with this number among these.
fn numbered(rows: &[Row], number: u8) -> Named
    ensures { named_as result ≡ row_or_unknown (find (λ e. e.number == number) (map entry_of rows.now)) }
{
    for row in rows {
        if row.number() == number {
            return Named::Row(number);
        }
    }
    Named::Unknown
}

/// Finds the row with this number. Tables are in the order of their numbers, which begin with 1 and
/// leave few out, so a row is rarely far before the index that is its number.
pub(crate) fn with_number(rows: &[Row], number: u8) -> Named
    ensures { named_as result ≡ row_or_unknown (find (λ e. e.number == number) (map entry_of rows.now)) }
{
    match rows.get(usize::from(number).saturating_sub(1)) {
        Some(row) if row.number() == number => Named::Row(number),
        _ => with_number_near(rows, number),
    }
}

// Not inlined, since in most tables a row's index is its number, less one. That of
// authenticatorGetInfo leaves two numbers out.
#[inline(never)]
fn with_number_near(rows: &[Row], number: u8) -> Named
    ensures { named_as result ≡ row_or_unknown (find (λ e. e.number == number) (map entry_of rows.now)) }
{
    match rows.get(usize::from(number).saturating_sub(3)) {
        Some(row) if row.number() == number => Named::Row(number),
        _ => numbered(rows, number),
    }
}

/// Finds the row with this name; if none has it, the one whose other name it is.
pub(crate) fn with_name(rows: &[Row], name: &[u8]) -> Named
    ensures { named_as result ≡ row_named (map entry_of rows.now) name.now }
{
    for row in rows {
        if row.name().as_bytes() == name {
            return Named::Row(row.number());
        }
    }
    with_other_name(rows, name)
}

/// Finds the row whose other name this is, if no row has it as its own.
pub(crate) fn with_other_name(rows: &[Row], name: &[u8]) -> Named
    requires { HasNoName (map entry_of rows.now) name.now }
    ensures { named_as result ≡ row_named (map entry_of rows.now) name.now }
{
    for row in rows {
        match row {
            Row::Aliased(number, _, other) if other.as_bytes() == name => return Named::Row(
                *number,
            ),
            _ => {}
        }
    }
    Named::Unknown
}

/// Returns what an integer names, where `None` is one that isn't below 256. Returns `None` if the
/// key is wrong: members have no numbers, or the integer isn't below 256.
pub(crate) fn of_number(is_numbered: bool, rows: &[Row], number: Option<u8>) -> Option<Named>
    ensures { naming_of result ≡ number_names is_numbered number (map entry_of rows.now) }
{
    match number {
        Some(number) if is_numbered => Some(with_number(rows, number)),
        _ => None,
    }
}

/// Returns what the map key names. Returns `None` if a record can't have this key.
pub fn row_of(is_numbered: bool, rows: &[Row], key: &Value) -> Option<Named>
    ensures { naming_of result ≡ names is_numbered (map entry_of rows.now) (item_of key.now) }
{
    match key {
        Value::Integer(n) => of_number(is_numbered, rows, u8::try_from(n.get()).ok()),
        Value::Text(name) => Some(with_name(rows, name.as_bytes())),
        Value::Bytes(name) => Some(with_name(rows, name)),
        _ => None,
    }
}
