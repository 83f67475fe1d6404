//! The list of all kinds, as `--kinds` prints it.
ghost use Rattle.std.specs.Prelude.{◌≡◌, IfOk, decimal, string_bytes};
ghost use Rattle.passkey_inspect.specs.Kinds.{all_kinds_text, form_name, kind_line, kind_text};

use passkey_catalogue::Kind;
use passkey_memory::OutOfMemory;
use std::alloc::Global;

/// The greatest place that the list may have.
pub const LAST: usize = 255;

fn form_name(kind: Kind) -> &'static str
    ensures { result.now ≡ form_name kind }
{
    if kind.is_json() { "JSON" } else { "bytes" }
}

/// Returns the line of a kind: its name, its number in C, and what defines its inputs.
fn kind_text(alloc: Global, kind: Kind, number: &str) -> Result<String, OutOfMemory>
    ensures { IfOk result (λ text. string_bytes text ≡ kind_text kind number.now) }
{
    let (name, form, source) = (kind.name(), form_name(kind), kind.source());
    Ok(format!(in alloc; "{name}\t{number}\t{form}\t{source}\n")?)
}

/// Returns the line of a kind with this number in C.
fn numbered_text(alloc: Global, kind: Kind, number: usize) -> Result<String, OutOfMemory>
    ensures { IfOk result (λ text. string_bytes text ≡ kind_text kind (decimal number)) }
{
    let number = format!(in alloc; "{number}")?;
    kind_text(alloc, kind, number.as_str())
}

/// Returns the line of the kind at this place; of none, no text.
fn kind_line(alloc: Global, place: usize) -> Result<String, OutOfMemory>
    ensures { IfOk result (λ text. string_bytes text ≡ kind_line place) }
{
    if let Some(kind) = Kind::from_number(place) {
        return numbered_text(alloc, kind, place);
    }
    match Kind::at(place) {
        Some(kind) => kind_text(alloc, kind, "-"),
        None => Ok(String::new(alloc)),
    }
}

/// Returns a line for each kind, in the order of their numbers in C, and after them those without
/// one: the name, the number or a hyphen, `bytes` or `JSON`, and the standard with its section, a tab
/// between them.
pub fn all_kinds_text(alloc: Global) -> Result<String, OutOfMemory>
    ensures { IfOk result (λ text. string_bytes text ≡ all_kinds_text) }
{
    let mut text = String::new(alloc);
    let mut place = 0;
    while place < LAST {
        place += 1;
        text.push_str(kind_line(alloc, place)?.as_str())?;
    }
    Ok(text)
}
