//! Values of JSON, encoded, for C.
ghost use Rattle.std.specs.Prelude.{◌≡◌, IfOk, IfErr, None, Option, option_map, string_bytes};
ghost use Rattle.passkey_c.specs.Statuses.{values_status};
ghost use Rattle.passkey_c.specs.Values.{Blames, EncodesAs, IsPut, IsRejection, IsUnencoded, TellsEncoding};
ghost use Rattle.passkey_c.specs.Values.{blame_told, said_of};
ghost use Rattle.passkey_catalogue.specs.Catalogue.{definition, kind_numbered};
ghost use Rattle.passkey_catalogue.specs.Values.{EncodesValues};
ghost use Rattle.passkey_explain.specs.Explains.{Explains};
ghost use Rattle.passkey_explain.specs.declared.explanation.Explanation.{Explanation};

use crate::status::{status_of, values_status};
use crate::verdict::put_front;
use crate::write::put;
use passkey_catalogue::{Form, Kind, ValuesFault, encode, input_from_values, visit};
use passkey_explain::{Explanation, explain};
use passkey_kinds::Message;
use passkey_memory::OutOfMemory;
use passkey_rewrite::{RunFault, Visitor};
use std::alloc::Global;

/// Why values aren't encoded.
#[derive(Debug, Drop)]
pub(crate) struct Unencoded {
    /// The status of the fault.
    pub status: u32,
    /// A text about where it is in the JSON, if there is one.
    pub text: Option<String>,
}

/// Returns that memory ran out.
fn exhausted() -> Unencoded
    ensures { (result.status ≡ 2) × (result.text ≡ None) }
{
    Unencoded {
        status: 2,
        text: None,
    }
}

/// Returns why a text stands for no input.
fn unread(fault: ValuesFault) -> Unencoded
    ensures { (result.status ≡ values_status fault) × (option_map string_bytes result.text ≡ said_of fault) }
{
    let status = values_status(&fault);
    let text = match fault {
        ValuesFault::NoItem(_found, text) => Some(text),
        ValuesFault::Run(_fault) => None,
    };
    Unencoded { status, text }
}

/// Returns a text about what in the message its table refuses.
fn blame_of_message<M: Message>(alloc: Global, bytes: &[u8]) -> Result<Option<String>, OutOfMemory>
    ensures { IfOk result (λ text. (e : Option Explanation)
        × (Explains M.fields bytes.now e × (option_map string_bytes text ≡ blame_told e))) }
{
    match explain::<M>(alloc, bytes)? {
        Some(Explanation::Refused(item)) => {
            let blame = &item.blame;
            Ok(Some(format!(in alloc; "{blame}")?))
        }
        _ => Ok(None),
    }
}

/// What in a message's encoding is refused, is said.
#[derive(Drop)]
struct Blaming<'a> {
    alloc: Global,
    bytes: &'a [u8],
}

impl<'a> Visitor for Blaming<'a> {
    type Output = Result<Option<String>, OutOfMemory>;

    type Other = Form;

    ghost Gives = { λ v d result. IfOk result (λ text. Blames d v.bytes.now (option_map string_bytes text)) };

    fn visit_item(self) -> Result<Option<String>, OutOfMemory> {
        Ok(None)
    }

    fn visit_data(self) -> Result<Option<String>, OutOfMemory> {
        Ok(None)
    }

    fn visit_message<M: Message>(self) -> Result<Option<String>, OutOfMemory> {
        blame_of_message::<M>(self.alloc, self.bytes)
    }

    fn visit_other(self, _what: Form) -> Result<Option<String>, OutOfMemory> {
        Ok(None)
    }
}

/// Returns why the kind refuses the input.
fn rejected(alloc: Global, kind: Kind, bytes: &[u8], fault: RunFault) -> Unencoded
    ensures { IsRejection (definition kind) bytes.now fault result.status (option_map string_bytes result.text) }
{
    let status = status_of(fault);
    if status == 2 {
        return exhausted();
    }
    match visit(kind, Blaming { alloc, bytes }) {
        Ok(text) => Unencoded { status, text },
        Err(_) => exhausted(),
    }
}

/// Returns the encoding of the input that the JSON stands for.
fn encode_as(alloc: Global, kind: Kind, json: &[u8]) -> Result<Vec<u8>, Unencoded>
    ensures ok { IfOk result (λ v. EncodesValues (definition kind) json.now v.items) }
    ensures err { IfErr result
        (λ u. IsUnencoded (definition kind) json.now u.status (option_map string_bytes u.text)) }
{
    let input = match input_from_values(alloc, kind, json) {
        Ok(input) => input,
        Err(fault) => return Err(unread(fault)),
    };
    match encode(alloc, kind, input.as_slice()) {
        Ok((encoding, _len)) => Ok(encoding),
        Err(fault) => Err(rejected(alloc, kind, input.as_slice(), fault)),
    }
}

/// Writes the encoding to the beginning of `out` and its length to `len`; the length alone if `out` has
/// fewer bytes.
fn put_encoding(bytes: &[u8], out: &mut [u8], len: &mut usize) -> u32
    ensures { IsPut bytes.now out.old out.new len.new result }
{
    *len = bytes.len();
    if bytes.len() > out.len() {
        return 1;
    }
    put(out, bytes);
    0
}

/// Writes the encoding and its length, or why there is none. Returns the call's status.
fn tell_encoding(
    made: Result<Vec<u8>, Unencoded>,
    out: &mut [u8],
    len: &mut usize,
    why: &mut [u8],
    why_size: &mut usize,
) -> u32
    ensures { TellsEncoding (λ v. v.items) made
        (record { out = out.old; len = len.old; why = why.old; why_size = why_size.old })
        (record { out = out.new; len = len.new; why = why.new; why_size = why_size.new }) result }
{
    let refused = match made {
        Ok(bytes) => return put_encoding(bytes.as_slice(), out, len),
        Err(refused) => refused,
    };
    let Unencoded { status, text } = refused;
    let text = match text {
        Some(text) => text,
        None => return status,
    };
    let bytes = text.as_bytes();
    put_front(why, bytes);
    *why_size = bytes.len();
    status
}

/// Encodes what the JSON stands for as this kind: writes what puffgrit_rewrite writes of that input to the
/// beginning of `out`, and its length to `len`. The JSON is what puffgrit_values writes, changed, or written
/// by hand: members may have their names or numbers, authenticator data and COSE keys their parts or one
/// string, white space and numbers may be written in any way, and what the table hasn't isn't encoded.
///
/// Returns PUFFGRIT_OK then; PUFFGRIT_TOO_SHORT, with the length that is needed in `len`, if the output has
/// fewer bytes; PUFFGRIT_OUT_OF_MEMORY if an allocation fails; PUFFGRIT_UNKNOWN_KIND; PUFFGRIT_FAULT_BAD_JSON
/// if the text isn't JSON in UTF-8 of at most 128 levels; PUFFGRIT_FAULT_NO_ITEM if a value in it is no data
/// item, or no byte string where one is wanted; or the fault with which the kind refuses the input, as
/// puffgrit_rewrite. `out` stays as it was but for PUFFGRIT_OK, and so does `len` but for PUFFGRIT_OK and
/// PUFFGRIT_TOO_SHORT.
///
/// For PUFFGRIT_FAULT_NO_ITEM, and where a message's table refuses the data item, a text is written to the
/// beginning of `why`, or as much of it as there is room for, and its whole length to `why_size`: by its
/// names which value is refused, and what is wanted there, as "permissions: an unsigned integer below
/// 4294967296 is wanted", or "member 2 is missing". It is UTF-8, with names as they are in the JSON.
/// Otherwise these stay as they were. (RFC 8259; RFC 8949; CTAP 2.1, sections 6 and 8.)
#[unsafe(no_mangle)]
pub extern "C" fn puffgrit_encode(
    alloc: Global,
    kind: u32,
    json: &[u8],
    out: &mut [u8],
    len: &mut usize,
    why: &mut [u8],
    why_size: &mut usize,
) -> u32
    ensures { EncodesAs (kind_numbered kind) json.now
        (record { out = out.old; len = len.old; why = why.old; why_size = why_size.old })
        (record { out = out.new; len = len.new; why = why.new; why_size = why_size.new }) result }
{
    match Kind::from_number(kind as usize) {
        Some(kind) => tell_encoding(encode_as(alloc, kind, json), out, len, why, why_size),
        None => 3,
    }
}
