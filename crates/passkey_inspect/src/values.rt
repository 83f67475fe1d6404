//! Inputs as JSON values, and encoded from them.
ghost use Rattle.std.specs.Prelude.{◌≡◌, IfOk, string_bytes};
ghost use Rattle.passkey_inspect.specs.Prints.{PrintsEncoded, PrintsValues};

use crate::fault::InspectFault;
use crate::inspect::with_line_feed;
use crate::kind::{InspectKind, name_of};
use crate::options::Output;
use crate::records::print_as;
use crate::refusal::blame_line;
use passkey_catalogue::{Form, ValuesFault, encode_values, input_from_values, values, visit};
use passkey_cbor_text::diagnose::escape_controls;
use passkey_explain::{Explanation, explain};
use passkey_kinds::Message;
use passkey_memory::OutOfMemory;
use passkey_rewrite::{RunFault, Visitor};
use std::alloc::Global;

/// Returns the input as a line of JSON, from which it is read back, and of which a terminal takes nothing as a
/// command.
pub fn values_text(alloc: Global, kind: InspectKind, input: &[u8]) -> Result<String, InspectFault>
    ensures { IfOk result (λ line. PrintsValues kind input.now (string_bytes line)) }
{
    let (text, _len) = values(alloc, kind, input)?;
    Ok(with_line_feed(escape_controls(alloc, text.as_str())?)?)
}

/// What in a message is refused, is said.
#[derive(Drop)]
struct Blaming<'a> {
    alloc: Global,
    bytes: &'a [u8],
}

impl<'a> Visitor for Blaming<'a> {
    type Output = Result<Option<String>, OutOfMemory>;

    type Other = Form;

    // Nothing is said of the line.
    ghost Gives = { λ v d result. Unit {0} };

    fn visit_item(self) -> Result<Option<String>, OutOfMemory> {
        Ok(None)
    }

    fn visit_data(self) -> Result<Option<String>, OutOfMemory> {
        Ok(None)
    }

    fn visit_message<M: Message>(self) -> Result<Option<String>, OutOfMemory> {
        match explain::<M>(self.alloc, self.bytes)? {
            Some(Explanation::Refused(item)) => {
                let line = blame_line::<M>(self.alloc, &item.blame);
                drop(item);
                Ok(Some(line?))
            }
            _ => Ok(None),
        }
    }

    fn visit_other(self, _what: Form) -> Result<Option<String>, OutOfMemory> {
        Ok(None)
    }
}

/// Returns a line about what in the JSON the kind refuses, if it is a message.
fn refused_line(
    alloc: Global,
    kind: InspectKind,
    input: &[u8],
) -> Result<Option<String>, OutOfMemory> {
    let bytes = match input_from_values(alloc, kind, input) {
        Ok(bytes) => bytes,
        Err(ValuesFault::Run(RunFault::OutOfMemory)) => return Err(OutOfMemory),
        Err(_) => return Ok(None),
    };
    visit(
        kind,
        Blaming {
            alloc,
            bytes: bytes.as_slice(),
        },
    )
}

/// Returns the fault for JSON that isn't encoded, with where in it that is.
fn refused(
    alloc: Global,
    kind: InspectKind,
    input: &[u8],
    fault: ValuesFault,
) -> Result<InspectFault, OutOfMemory> {
    let name = name_of(kind);
    match fault {
        ValuesFault::NoItem(_, text) => {
            let text = escape_controls(alloc, text.as_str())?;
            let text = format!(in alloc; "NoItem\n{text}")?;
            InspectFault::refused(alloc, name, text.as_str())
        }
        ValuesFault::Run(RunFault::MessageRefused(fault)) => {
            let text = match refused_line(alloc, kind, input)? {
                Some(line) => format!(in alloc; "{fault}\n{line}")?,
                None => format!(in alloc; "{fault}")?,
            };
            InspectFault::refused(alloc, name, text.as_str())
        }
        ValuesFault::Run(fault) => Ok(InspectFault::Run(fault)),
    }
}

/// Returns the encoding of what the JSON stands for as a line: of a kind of JSON texts as JSON, and else in
/// lower-case hexadecimal. The kind has to be named.
pub fn encode_text(
    alloc: Global,
    kind: Option<InspectKind>,
    input: &[u8],
) -> Result<String, InspectFault>
    ensures { IfOk result (λ line. PrintsEncoded kind input.now (string_bytes line)) }
{
    let Some(kind) = kind else {
        return Err(InspectFault::BadArguments);
    };
    if kind.is_json() {
        return print_as(alloc, Output::Json, kind, &[], input);
    }
    match encode_values(alloc, kind, input) {
        Ok(encoding) => {
            let text = hex::encode(alloc, encoding.as_slice())?;
            Ok(with_line_feed(text)?)
        }
        Err(fault) => Err(refused(alloc, kind, input, fault)?),
    }
}
