//! Map keys at a cursor, and the rows that they name.
ghost use Rattle.std.specs.Prelude.{◌≡◌, ◌≤◌, ◌+◌, ◌*◌, ℕ, Bool, List, Option, length, map, take, true, false, IfNone, IfSome};
ghost use Rattle.passkey_kinds.specs.Words.{Item, LooksOnce, LooksTwice, FindsRow, both_names, scalar_in, wrong, IsRegion};
ghost use Rattle.passkey_kinds.specs.Words.{HoldsString, IsEncodedAt, Onward, Further, LooksAtMost, naming_of, named_as};
ghost use Rattle.passkey_kinds.specs.Words.{BeginsNoName, HasNoName, entry_of, names, row_named, ReadsKey, row_at, scalar_of};
ghost use Rattle.passkey_cbor.specs.CursorState.{ahead};

use crate::head::read_scalar;
use crate::rows::{Named, Row, of_number, with_name, with_number, with_other_name};
use passkey_cbor::{BytesToken, Cursor, Head, TextToken};

/// Returns the names of at most 64 rows, then their other names, followed by empty names.
fn names_of(rows: &[Row]) -> [&'static str; 128]
    requires { length rows.now ≤ 64 }
    ensures { map (λ n. n.now) (take (2 * length rows.now) result) ≡ both_names (map entry_of rows.now) }
{
    let mut names = [""; 128];
    for (i, row) in rows.iter().enumerate() {
        names[i] = row.name();
    }
    for (i, row) in rows.iter().enumerate() {
        names[rows.len() + i] = row.other_name();
    }
    names
}

/// Returns the row whose names `names_of` has at this index.
fn at_index(rows: &[Row], index: Option<usize>) -> Named
    ensures { named_as result ≡ row_at (map entry_of rows.now) index }
{
    let Some(index) = index else {
        return Named::Unknown;
    };
    let own = index.checked_sub(rows.len()).unwrap_or(index);
    match rows.get(own) {
        Some(row) => Named::Row(row.number()),
        None => Named::Unknown,
    }
}

/// Finds the row whose name is this text string, which takes `len` bytes with its head. Compares its
/// chunks with all names at once, without copying them.
fn with_text(rows: &[Row], token: &TextToken<'_>, len: usize, cursor: &mut Cursor<'_>) -> Named
    requires region { IsRegion true token.now }
    requires few { length rows.now ≤ 64 }
    requires other { IfSome token.now.len (λ n. len ≡ 1 + length token.now.bytes
        → HasNoName (map entry_of rows.now) token.now.bytes) }
    ensures names { (s : List ℕ) → HoldsString true token.now s → named_as result ≡ row_named (map entry_of rows.now) s }
    ensures looks { LooksAtMost token.now cursor.old cursor.new }
{
    match token.lent() {
        // With a head of one byte it would have been passed as an own name.
        Some(name) if len == 1 + name.len() => with_other_name(rows, name.as_bytes()),
        Some(name) => with_name(rows, name.as_bytes()),
        None => with_text_chunks(rows, token, cursor),
    }
}

// The same for a text in chunks. Not inlined, so that no room for the names is made without them.
#[inline(never)]
#[tactic(auto, using(crate::proofs::Keys::row_of_name))]
fn with_text_chunks(rows: &[Row], token: &TextToken<'_>, cursor: &mut Cursor<'_>) -> Named
    requires region { IsRegion true token.now }
    requires few { length rows.now ≤ 64 }
    ensures names { (s : List ℕ) → HoldsString true token.now s → named_as result ≡ row_named (map entry_of rows.now) s }
    ensures looks { LooksAtMost token.now cursor.old cursor.new }
{
    let names = names_of(rows);
    at_index(rows, token.name_of(&names[..2 * rows.len()], cursor))
}

/// Finds the row whose name is this byte string.
fn with_bytes(rows: &[Row], token: &BytesToken<'_>, cursor: &mut Cursor<'_>) -> Named
    requires region { IsRegion false token.now }
    requires few { length rows.now ≤ 64 }
    ensures names { (s : List ℕ) → HoldsString false token.now s → named_as result ≡ row_named (map entry_of rows.now) s }
    ensures looks { LooksAtMost token.now cursor.old cursor.new }
{
    match token.lent() {
        Some(name) => with_name(rows, name),
        None => with_byte_chunks(rows, token, cursor),
    }
}

// The same for a byte string in chunks.
#[inline(never)]
#[tactic(auto, using(crate::proofs::Keys::row_of_name))]
fn with_byte_chunks(rows: &[Row], token: &BytesToken<'_>, cursor: &mut Cursor<'_>) -> Named
    requires region { IsRegion false token.now }
    requires few { length rows.now ≤ 64 }
    ensures names { (s : List ℕ) → HoldsString false token.now s → named_as result ≡ row_named (map entry_of rows.now) s }
    ensures looks { LooksAtMost token.now cursor.old cursor.new }
{
    let names = names_of(rows);
    at_index(rows, token.name_of(&names[..2 * rows.len()], cursor))
}

/// Returns what a map key with this head names. Returns `None` if it isn't an unsigned integer.
fn of_head(is_numbered: bool, rows: &[Row], head: Option<Head>) -> Option<Named>
    ensures { naming_of result ≡ names is_numbered (map entry_of rows.now) (scalar_of head) }
{
    match head {
        Some(Head::Unsigned(number)) => of_number(is_numbered, rows, u8::try_from(number).ok()),
        _ => None,
    }
}

/// Decodes the map key at the cursor if it is a number that fits a row's, moves past it and returns
/// what it names. Returns `None` for any other key; then the cursor doesn't move.
fn read_number(rows: &[Row], cursor: &mut Cursor<'_>) -> Option<Named>
    ensures finds { (key : Item) (to : ℕ) → IsEncodedAt key cursor.old.bytes cursor.old.place to
        → FindsRow (names true (map entry_of rows.now) key) 1 to cursor.old cursor.new result }
    ensures other { (key : Item) (to : ℕ) → IsEncodedAt key cursor.old.bytes cursor.old.place to
        → IfNone result (names true (map entry_of rows.now) (scalar_in key) ≡ wrong) }
    ensures misses { IfNone result (LooksOnce cursor.old cursor.new) }
    ensures onward { Onward cursor.old cursor.new }
    ensures further { IfSome result (λ _. Further cursor.old cursor.new) }
{
    match cursor.small_number() {
        Some(number) => Some(with_number(rows, number)),
        None => read_other_number(rows, cursor),
    }
}

// The same for any number. Not inlined, since most are below 24.
#[inline(never)]
fn read_other_number(rows: &[Row], cursor: &mut Cursor<'_>) -> Option<Named>
    ensures finds { (key : Item) (to : ℕ) → IsEncodedAt key cursor.old.bytes cursor.old.place to
        → FindsRow (names true (map entry_of rows.now) key) 1 to cursor.old cursor.new result }
    ensures other { (key : Item) (to : ℕ) → IsEncodedAt key cursor.old.bytes cursor.old.place to
        → IfNone result (names true (map entry_of rows.now) (scalar_in key) ≡ wrong) }
    ensures misses { IfNone result (LooksOnce cursor.old cursor.new) }
    ensures onward { Onward cursor.old cursor.new }
    ensures further { IfSome result (λ _. Further cursor.old cursor.new) }
{
    let start = cursor.place();
    match of_head(true, rows, cursor.head()) {
        Some(key) => Some(key),
        None => {
            cursor.go_back(start);
            None
        }
    }
}

/// Passes the map key at the cursor if it is a row's own name, a text string of fewer than 24 bytes
/// with a head of one byte, and returns what it names. Otherwise does nothing.
fn pass_name(rows: &[Row], cursor: &mut Cursor<'_>) -> Option<Named>
    ensures finds { (is_numbered : Bool) (key : Item) (to : ℕ) → IsEncodedAt key cursor.old.bytes cursor.old.place to
        → FindsRow (names is_numbered (map entry_of rows.now) key) 2 to cursor.old cursor.new result }
    ensures stays { IfNone result (cursor.new ≡ cursor.old) }
    ensures none { IfNone result (BeginsNoName (map entry_of rows.now) (ahead cursor.old)) }
    ensures onward { Onward cursor.old cursor.new }
    ensures further { IfSome result (λ _. Further cursor.old cursor.new) }
{
    for row in rows {
        if cursor.pass_text(row.name()) {
            return Some(Named::Row(row.number()));
        }
    }
    None
}

/// Decodes the map key at the cursor if it is a text string or a byte string, moves past it and
/// returns what it names. Returns `None` for any other key; then the cursor doesn't move.
fn read_name(rows: &[Row], cursor: &mut Cursor<'_>) -> Option<Named>
    requires { length rows.now ≤ 64 }
    ensures finds { (is_numbered : Bool) (key : Item) (to : ℕ) → IsEncodedAt key cursor.old.bytes cursor.old.place to
        → FindsRow (names is_numbered (map entry_of rows.now) key) 2 to cursor.old cursor.new result }
    ensures other { (is_numbered : Bool) (key : Item) (to : ℕ) → IsEncodedAt key cursor.old.bytes cursor.old.place to
        → IfNone result (names is_numbered (map entry_of rows.now) key
        ≡ names is_numbered (map entry_of rows.now) (scalar_in key)) }
    ensures misses { (key : Item) (to : ℕ) → IsEncodedAt key cursor.old.bytes cursor.old.place to
        → IfNone result (LooksTwice cursor.old cursor.new) }
    ensures stays { IfNone result (cursor.new.place ≡ cursor.old.place) }
    ensures onward { Onward cursor.old cursor.new }
    ensures further { IfSome result (λ _. Further cursor.old cursor.new) }
{
    match pass_name(rows, cursor) {
        Some(key) => Some(key),
        None => read_other_name(rows, cursor),
    }
}

// The same for a string that `pass_name` doesn't pass. Not inlined, since most keys are a row's own
// name.
#[inline(never)]
fn read_other_name(rows: &[Row], cursor: &mut Cursor<'_>) -> Option<Named>
    requires few { length rows.now ≤ 64 }
    requires none { BeginsNoName (map entry_of rows.now) (ahead cursor.old) }
    ensures finds { (is_numbered : Bool) (key : Item) (to : ℕ) → IsEncodedAt key cursor.old.bytes cursor.old.place to
        → FindsRow (names is_numbered (map entry_of rows.now) key) 2 to cursor.old cursor.new result }
    ensures other { (is_numbered : Bool) (key : Item) (to : ℕ) → IsEncodedAt key cursor.old.bytes cursor.old.place to
        → IfNone result (names is_numbered (map entry_of rows.now) key
        ≡ names is_numbered (map entry_of rows.now) (scalar_in key)) }
    ensures misses { (key : Item) (to : ℕ) → IsEncodedAt key cursor.old.bytes cursor.old.place to
        → IfNone result (LooksTwice cursor.old cursor.new) }
    ensures stays { IfNone result (cursor.new.place ≡ cursor.old.place) }
    ensures onward { Onward cursor.old cursor.new }
    ensures further { IfSome result (λ _. Further cursor.old cursor.new) }
{
    let start = cursor.place();
    match cursor.text() {
        Some(token) => Some(with_text(rows, &token, cursor.place() - start, cursor)),
        None => match cursor.bytes() {
            Some(token) => Some(with_bytes(rows, &token, cursor)),
            None => None,
        },
    }
}

/// Decodes the map key at the cursor, moves past it and returns what it names in a table with
/// numbers. Returns `None` if a record can't have this key.
fn read_numbered(rows: &[Row], cursor: &mut Cursor<'_>) -> Option<Named>
    requires { length rows.now ≤ 64 }
    ensures names { (key : Item) (to : ℕ) → IsEncodedAt key cursor.old.bytes cursor.old.place to
        → ReadsKey (names true (map entry_of rows.now) key) to cursor.old cursor.new result }
    ensures onward { Onward cursor.old cursor.new }
    ensures further { IfSome result (λ _. Further cursor.old cursor.new) }
{
    match read_number(rows, cursor) {
        Some(key) => Some(key),
        None => read_name(rows, cursor),
    }
}

/// Does the same for a table without numbers, where a number names nothing.
fn read_named(rows: &[Row], cursor: &mut Cursor<'_>) -> Option<Named>
    requires { length rows.now ≤ 64 }
    ensures names { (key : Item) (to : ℕ) → IsEncodedAt key cursor.old.bytes cursor.old.place to
        → ReadsKey (names false (map entry_of rows.now) key) to cursor.old cursor.new result }
    ensures onward { Onward cursor.old cursor.new }
    ensures further { IfSome result (λ _. Further cursor.old cursor.new) }
{
    match read_name(rows, cursor) {
        Some(key) => Some(key),
        None => of_head(false, rows, read_scalar(cursor)),
    }
}

/// Decodes the map key at the cursor, moves past it and returns what it names. Returns `None` if a
/// record can't have this key.
pub(crate) fn read_key(is_numbered: bool, rows: &[Row], cursor: &mut Cursor<'_>) -> Option<Named>
    requires { length rows.now ≤ 64 }
    ensures names { (key : Item) (to : ℕ) → IsEncodedAt key cursor.old.bytes cursor.old.place to
        → ReadsKey (names is_numbered (map entry_of rows.now) key) to cursor.old cursor.new result }
    ensures onward { Onward cursor.old cursor.new }
    ensures further { IfSome result (λ _. Further cursor.old cursor.new) }
{
    if is_numbered {
        read_numbered(rows, cursor)
    } else {
        read_named(rows, cursor)
    }
}
