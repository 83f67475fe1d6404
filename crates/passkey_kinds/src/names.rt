//! Names of enumerations, decoded from data items.
ghost use Rattle.std.specs.Prelude.{◌≡◌, ◌+◌, ◌≤◌, ℕ, List, length, map, take, true, None, IfNone, IfSome, Ok, OnOk};
ghost use Rattle.std.specs.List.{find};
ghost use Rattle.std.specs.Str.{bytes_eq};
ghost use Rattle.passkey_cbor.specs.CursorState.{ahead};
ghost use Rattle.passkey_cbor.specs.Lent.{begins_text};
ghost use Rattle.passkey_kinds.specs.Words.{Item, IsRegion, HoldsString, IsEncodedAt, Onward, Further, ReadsAs, LooksAtMost};
ghost use Rattle.passkey_kinds.specs.Words.{item_of, Answers, one_named, credential_type_named, transport_named};
ghost use Rattle.passkey_webauthn.specs.Names.{row_of, texts, value_at, value_in};

use crate::{Form, FromCbor, Look, OutOfMemory, Refusal, Wanted, looked};
use passkey_cbor::{Cursor, TextToken, Value};
use passkey_webauthn::{AuthenticatorTransport, EnumNames, PublicKeyCredentialType};
use std::alloc::Global;

fn read_name<T: EnumNames>(value: &Value) -> Result<T, Refusal>
    ensures { Answers (λ x. x) (one_named (value_in T.table)) (item_of value.now) result }
{
    match value {
        Value::Text(name) => T::from_name(name.as_str()).ok_or(Refusal::Refused),
        _ => Err(Refusal::Refused),
    }
}

/// Returns the names of at most 16 rows, followed by empty names.
fn names_of<T: EnumNames>(table: &[(&'static str, T)]) -> [&'static str; 16]
    requires { length table.now ≤ 16 }
    ensures { map (λ n. n.now) (take (length table.now) result) ≡ texts (map row_of table.now) }
{
    let mut names = [""; 16];
    for (i, row) in table.iter().enumerate() {
        names[i] = row.0;
    }
    names
}

/// Returns the value at this index.
fn at_index<T: EnumNames>(table: &[(&'static str, T)], index: Option<usize>) -> Option<T>
    ensures { result ≡ value_at (map row_of table.now) index }
{
    match index {
        Some(index) => match table.get(index) {
            Some(row) => Some(row.1),
            None => None,
        },
        None => None,
    }
}

/// Returns the value whose name is this text string, which takes `len` bytes with its head. Compares
/// its chunks with all names at once.
#[tactic(auto, using(crate::proofs::Keys::value_of_none))]
fn named<T: EnumNames>(token: &TextToken<'_>, len: usize, cursor: &mut Cursor<'_>) -> Option<T>
    requires region { IsRegion true token.now }
    requires few { length T.table ≤ 16 }
    requires none { IfSome token.now.len (λ n. len ≡ 1 + length token.now.bytes
        → find (λ row. bytes_eq row.0 token.now.bytes) T.table ≡ None) }
    ensures named { (s : List ℕ) → HoldsString true token.now s → result ≡ value_in T.table s }
    ensures looks { LooksAtMost token.now cursor.old cursor.new }
{
    match token.lent() {
        // With a head of one byte it would have been passed as a name.
        Some(name) if len == 1 + name.len() => None,
        Some(name) => T::from_name(name),
        None => {
            let table = T::table();
            let names = names_of(table);
            at_index(table, token.name_of(&names[..table.len()], cursor))
        }
    }
}

/// Passes the text string at the cursor if it is a value's name of fewer than 24 bytes with a head
/// of one byte, and returns the value. Otherwise does nothing.
fn pass_named<T: EnumNames>(cursor: &mut Cursor<'_>) -> Option<T>
    ensures reads { (i : Item) (to : ℕ) → IsEncodedAt i cursor.old.bytes cursor.old.place to
        → IfSome result (λ v. ReadsAs (λ x. x) (one_named (value_in T.table)) i to cursor.old cursor.new (Ok v)) }
    ensures stays { IfNone result (cursor.new ≡ cursor.old) }
    ensures none { IfNone result (find (λ row. begins_text row.0 (ahead cursor.old)) T.table ≡ None) }
    ensures onward { Onward cursor.old cursor.new }
    ensures further { IfSome result (λ _. Further cursor.old cursor.new) }
{
    let table = T::table();
    for row in table {
        if cursor.pass_text(row.0) {
            return Some(row.1);
        }
    }
    None
}

fn read_named<T: EnumNames>(cursor: &mut Cursor<'_>) -> Result<T, Refusal>
    requires { length T.table ≤ 16 }
    ensures reads { (i : Item) (to : ℕ) → IsEncodedAt i cursor.old.bytes cursor.old.place to
        → ReadsAs (λ x. x) (one_named (value_in T.table)) i to cursor.old cursor.new result }
    ensures onward { Onward cursor.old cursor.new }
    ensures further { OnOk result (Further cursor.old cursor.new) }
{
    match pass_named(cursor) {
        Some(value) => Ok(value),
        None => read_other_named(cursor),
    }
}

// The same for a text string that `pass_named` doesn't pass. Not inlined, since most are a value's
// name.
#[inline(never)]
fn read_other_named<T: EnumNames>(cursor: &mut Cursor<'_>) -> Result<T, Refusal>
    requires few { length T.table ≤ 16 }
    requires none { find (λ row. begins_text row.0 (ahead cursor.old)) T.table ≡ None }
    ensures reads { (i : Item) (to : ℕ) → IsEncodedAt i cursor.old.bytes cursor.old.place to
        → ReadsAs (λ x. x) (one_named (value_in T.table)) i to cursor.old cursor.new result }
    ensures onward { Onward cursor.old cursor.new }
    ensures further { OnOk result (Further cursor.old cursor.new) }
{
    let start = cursor.place();
    match cursor.text() {
        Some(token) => named(&token, cursor.place() - start, cursor).ok_or(Refusal::Refused),
        None => Err(Refusal::Refused),
    }
}

impl FromCbor for PublicKeyCredentialType {
    ghost view = { λ t. t };

    ghost typed = { one_named credential_type_named };

    fn from_value(_alloc: Global, value: &Value) -> Result<PublicKeyCredentialType, Refusal> {
        read_name(value)
    }

    fn read(_alloc: Global, cursor: &mut Cursor<'_>) -> Result<PublicKeyCredentialType, Refusal> {
        read_named(cursor)
    }

    fn look(alloc: Global, _way: &[u8], value: &Value) -> Result<Look, OutOfMemory> {
        looked(
            PublicKeyCredentialType::from_value(alloc, value),
            Form::Leaf(Wanted::Name),
        )
    }
}

impl FromCbor for AuthenticatorTransport {
    ghost view = { λ t. t };

    ghost typed = { one_named transport_named };

    fn from_value(_alloc: Global, value: &Value) -> Result<AuthenticatorTransport, Refusal> {
        read_name(value)
    }

    fn read(_alloc: Global, cursor: &mut Cursor<'_>) -> Result<AuthenticatorTransport, Refusal> {
        read_named(cursor)
    }

    fn look(alloc: Global, _way: &[u8], value: &Value) -> Result<Look, OutOfMemory> {
        looked(
            AuthenticatorTransport::from_value(alloc, value),
            Form::Leaf(Wanted::Name),
        )
    }
}
