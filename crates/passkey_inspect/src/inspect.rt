//! One run: reads bytes, and returns what is printed.
ghost use Rattle.std.specs.Prelude.{◌≡◌, ◌++◌, ◌∷◌, [], IfOk, IsTrue, None, OnOk, string_bytes};
ghost use Rattle.passkey_malformed.specs.Breaks.{IsCanonicalWithin};
ghost use Rattle.passkey_inspect.specs.Prints.{Prints, PrintsAs, PrintsBytes, PrintsInForm, PrintsInput, PrintsSpelled, form_in};
ghost use Rattle.passkey_inspect.specs.Prints.{ShowsBytes, ShowsEncoding, ShowsItem, ShowsJson};

use crate::examine::{Contents, Examined, examine};
use crate::fault::InspectFault;
use crate::frame::{Frame, frame_of, frame_text, framed_kind};
use crate::kind::{CBOR, FOUND_KINDS, InspectKind, is_data_item, name_of};
use crate::newer_members::newer_members_text;
use crate::options::{Options, Output};
use crate::records::print_record;
use crate::undecoded::undecoded_text;
use crate::values::{encode_text, values_text};
use passkey_catalogue::encode;
use passkey_cbor::{CborError, Value};
use passkey_cbor_text::diagnose::{diagnose_bytes_indented, diagnose_indented};
use passkey_cbor_text::dump::dump;
use passkey_explain::{Description, Extent, FieldName};
use passkey_inspect_input::{Form, bytes_as, form_of};
use passkey_malformed::{CTAP2_DEPTH, not_canonical};
use passkey_memory::OutOfMemory;
use passkey_render::{json_of, page_of, refusal_page, report_of};
use passkey_rewrite::RunFault;
use std::alloc::Global;

/// The kinds that accept bytes.
#[derive(Drop)]
struct Matches {
    /// Their names, the best first.
    names: Vec<&'static str>,
    /// The best, and what is in the bytes.
    best: Option<(InspectKind, Contents)>,
}

/// Returns how well a table fits: how many members it knows, less those that it doesn't.
fn score_of(description: &Description) -> i64 {
    let Description::Record(fields) = description else {
        return 0;
    };
    let mut score = 0i64;
    for (name, _) in fields {
        score = match name {
            FieldName::Member(_, _) => score.saturating_add(1),
            FieldName::Unknown(_) => score.saturating_sub(1),
        };
    }
    score
}

/// Returns whether the kind knows more than half of the members, if there are any.
fn fits(description: &Description) -> bool {
    match description {
        Description::Record(fields) => fields.is_empty() || score_of(description) > 0,
        _ => true,
    }
}

/// Adds a kind that accepts all of the bytes and knows more than half of the members, as the best if it
/// fits better than those before.
fn add_match(
    matches: &mut Matches,
    kind: InspectKind,
    contents: Contents,
    len: usize,
) -> Result<(), OutOfMemory> {
    if contents.len < len || !fits(&contents.description) {
        drop(contents);
        return Ok(());
    }
    let is_better = match &matches.best {
        None => true,
        Some((_, best)) => score_of(&best.description) < score_of(&contents.description),
    };
    if is_better {
        drop(matches.best.replace((kind, contents)));
        matches.names.insert(0, name_of(kind))?;
    } else {
        drop(contents);
        matches.names.push(name_of(kind))?;
    }
    Ok(())
}

/// Adds the kinds that accept the bytes.
fn add_matches(alloc: Global, bytes: &[u8], matches: &mut Matches) -> Result<(), OutOfMemory> {
    for kind in FOUND_KINDS {
        if let Examined::Accepted(contents) = examine(alloc, kind, bytes)? {
            add_match(matches, kind, contents, bytes.len())?;
        }
    }
    Ok(())
}

/// Returns the message encoded again, in lower-case hexadecimal.
fn encoding_text(alloc: Global, kind: InspectKind, bytes: &[u8]) -> Result<String, RunFault>
    ensures { IfOk result (λ text. ShowsEncoding kind bytes.now (string_bytes text)) }
{
    let (encoding, _len) = encode(alloc, kind, bytes)?;
    Ok(hex::encode(alloc, encoding.as_slice())?)
}

/// Returns the leading data item in diagnostic notation, an element or a member a line.
fn item_text(alloc: Global, bytes: &[u8]) -> Result<String, RunFault>
    ensures { IfOk result (λ text. ShowsItem bytes.now (string_bytes text)) }
{
    let (value, _) = Value::from_slice(alloc, bytes)?;
    Ok(diagnose_indented(alloc, &value)?)
}

/// Returns the leading data item in diagnostic notation, with how it is encoded, in such lines.
fn bytes_text(alloc: Global, bytes: &[u8]) -> Result<String, RunFault>
    ensures { IfOk result (λ text. ShowsBytes bytes.now (string_bytes text)) }
{
    match diagnose_bytes_indented(alloc, bytes)? {
        Some(text) => Ok(text),
        None => Err(RunFault::from(CborError::DecodeFailed)),
    }
}

/// Returns the description as JSON.
fn json_text(alloc: Global, description: &Description) -> Result<String, RunFault>
    ensures { IfOk result (λ text. ShowsJson (string_bytes text)) }
{
    Ok(json_of(alloc, description)?)
}

fn form_name(form: Form) -> &'static str {
    match form {
        Form::Hexadecimal => "hexadecimal",
        Form::Base64 => "base64",
        Form::Json => "JSON",
        Form::Raw => "raw",
    }
}

/// Bytes of a message, and how they came.
#[derive(Clone, Copy)]
struct Body<'a> {
    form: Form,
    /// How many bytes the input spells.
    len: usize,
    frame: Frame,
    bytes: &'a [u8],
    /// Whether a data item has to be in CTAP2's canonical form.
    strict: bool,
}

/// Returns the lines before a report: the input's form and length, and the byte before the message.
fn heading(alloc: Global, body: &Body<'_>) -> Result<String, OutOfMemory> {
    let form = form_name(body.form);
    let len = body.len;
    let mut text = format!(in alloc; "input: {form}, {len} bytes\n")?;
    text.push_str(frame_text(alloc, body.frame)?.as_str())?;
    Ok(text)
}

/// Returns the text as a line.
pub(crate) fn with_line_feed(mut text: String) -> Result<String, RunFault>
    ensures { IfOk result (λ line. string_bytes line ≡ string_bytes text ++ 10 ∷ []) }
{
    text.push('\n')?;
    Ok(text)
}

/// Appends a report of the message under this title, and what is left out of it.
pub(crate) fn push_report(
    text: &mut String,
    alloc: Global,
    title: &str,
    contents: &Contents,
) -> Result<(), OutOfMemory> {
    text.push_str(report_of(alloc, title, &contents.description)?.as_str())?;
    text.push_str(newer_members_text(alloc, title, &contents.description)?.as_str())?;
    Ok(text.push_str(contents.left_out.as_str())?)
}

/// Appends a report of bytes, and what is refused in what they keep undecoded.
fn push_bytes_report(
    text: &mut String,
    alloc: Global,
    body: &Body<'_>,
    kind: InspectKind,
    contents: &Contents,
) -> Result<(), OutOfMemory> {
    push_report(text, alloc, name_of(kind), contents)?;
    Ok(text.push_str(undecoded_text(alloc, kind, body.bytes)?.as_str())?)
}

/// Appends a line with the names of the kinds that were found.
pub(crate) fn push_names(text: &mut String, names: &[&'static str]) -> Result<(), OutOfMemory> {
    text.push_str("kinds:")?;
    for name in names {
        text.push(' ')?;
        text.push_str(name)?;
    }
    Ok(text.push('\n')?)
}

/// Returns a report of the message, with the lines before it.
fn report_text(
    alloc: Global,
    body: &Body<'_>,
    kind: InspectKind,
    contents: &Contents,
) -> Result<String, OutOfMemory> {
    let len = contents.len;
    let mut text = heading(alloc, body)?;
    push_bytes_report(&mut text, alloc, body, kind, contents)?;
    if let Ok((encoding, _len)) = encode(alloc, kind, body.bytes) {
        if encoding.as_slice() != body.bytes.get(..len).unwrap_or(&[]) {
            text.push_str("encoded again it differs: --cbor shows it\n")?;
        }
    }
    if len < body.bytes.len() {
        let rest = body.bytes.len() - len;
        text.push_str(format!(in alloc; "trailing bytes: {rest}\n")?.as_str())?;
    }
    Ok(text)
}

/// Returns what is printed of a message that the kind accepts. Of bytes that aren't a data item there
/// is no dump but a report.
fn text_of(
    alloc: Global,
    output: Output,
    body: &Body<'_>,
    kind: InspectKind,
    contents: &Contents,
) -> Result<String, InspectFault>
    ensures { IfOk result (λ text. Prints output kind body.now.bytes.now (string_bytes text)) }
{
    match output {
        Output::Dump if is_data_item(kind) => Ok(dump(alloc, body.bytes)?),
        Output::Report | Output::Dump | Output::FromValues => {
            Ok(report_text(alloc, body, kind, contents)?)
        }
        Output::Page => {
            let shown = if is_data_item(kind) { body.bytes } else { &[] };
            Ok(page_of(alloc, name_of(kind), &contents.description, shown)?)
        }
        Output::Json => Ok(with_line_feed(json_text(alloc, &contents.description)?)?),
        Output::Diagnosis => Ok(with_line_feed(item_text(alloc, body.bytes)?)?),
        Output::Bytes => Ok(with_line_feed(bytes_text(alloc, body.bytes)?)?),
        Output::Encoding => Ok(with_line_feed(encoding_text(alloc, kind, body.bytes)?)?),
        Output::Values => values_text(alloc, kind, body.bytes),
    }
}

/// Returns the fault for a message that the kind refuses, with a page that shows where.
fn refused_page(
    alloc: Global,
    body: &Body<'_>,
    kind: InspectKind,
    text: &str,
    extent: Option<Extent>,
) -> Result<InspectFault, OutOfMemory> {
    let name = name_of(kind);
    let title = format!(in alloc; "{name} refuses it")?;
    let Extent { offset, len } = extent.unwrap_or(Extent {
        offset: body.bytes.len(),
        len: 0,
    });
    let end = offset.saturating_add(len);
    let page = refusal_page(alloc, title.as_str(), text, body.bytes, offset, end)?;
    let told = format!(in alloc; "{name} refuses it: {text}")?;
    Ok(InspectFault::RefusedPrinted(told, page))
}

/// Returns what is printed of a message that the kind accepts; as a fault if the message has to be in
/// CTAP2's canonical form, and isn't.
fn canonical_only(
    alloc: Global,
    is_strict: bool,
    kind: InspectKind,
    bytes: &[u8],
    text: String,
) -> Result<String, InspectFault>
    ensures text { IfOk result (λ printed. printed ≡ text) }
    ensures canonical { OnOk result (IsTrue is_strict → IsCanonicalWithin 4 bytes.now) }
{
    if !is_strict {
        return Ok(text);
    }
    match not_canonical(bytes, CTAP2_DEPTH) {
        None => Ok(text),
        Some(found) => {
            let name = name_of(kind);
            let told = format!(in alloc; "{name} isn't in CTAP2's canonical form: {found}")?;
            Err(InspectFault::RefusedPrinted(told, text))
        }
    }
}

/// Returns what is printed of a message of which the kind is known.
fn print_as(
    alloc: Global,
    output: Output,
    body: &Body<'_>,
    kind: InspectKind,
) -> Result<String, InspectFault>
    ensures { IfOk result (λ text. Prints output kind body.now.bytes.now (string_bytes text)) }
{
    match examine(alloc, kind, body.bytes)? {
        Examined::Accepted(contents) => {
            let text = text_of(alloc, output, body, kind, &contents);
            drop(contents);
            let is_strict = body.strict && is_data_item(kind);
            canonical_only(alloc, is_strict, kind, body.bytes, text?)
        }
        Examined::Refused(text, extent) if output == Output::Page => {
            Err(refused_page(alloc, body, kind, text.as_str(), extent)?)
        }
        Examined::Refused(text, _) => {
            Err(InspectFault::refused(alloc, name_of(kind), text.as_str())?)
        }
    }
}

/// Returns a report of what the best of the kinds finds, and the kinds' names.
fn report_found(
    alloc: Global,
    body: &Body<'_>,
    matches: &Matches,
    kind: InspectKind,
    contents: &Contents,
) -> Result<String, OutOfMemory> {
    let mut text = heading(alloc, body)?;
    push_names(&mut text, matches.names.as_slice())?;
    push_bytes_report(&mut text, alloc, body, kind, contents)?;
    Ok(text)
}

/// Returns whether there is a status code or a command and no message.
fn is_frame_alone(body: &Body<'_>) -> bool {
    match body.frame {
        Frame::None => false,
        Frame::Failure(..) => true,
        Frame::Success | Frame::Command(_) => body.bytes.is_empty(),
    }
}

/// Returns what is printed of bytes as the kind, or the lines before a report if they are all.
fn print_unknown(
    alloc: Global,
    output: Output,
    body: &Body<'_>,
    kind: InspectKind,
) -> Result<String, InspectFault>
    ensures { IfOk result (λ text. Prints output kind body.now.bytes.now (string_bytes text)) }
{
    match output {
        Output::Report if is_frame_alone(body) => Ok(heading(alloc, body)?),
        _ => print_as(alloc, output, body, kind),
    }
}

/// Returns what is printed of a message as the best of the kinds, or as a data item if there is none.
fn print_best(
    alloc: Global,
    output: Output,
    body: &Body<'_>,
    matches: &Matches,
) -> Result<String, InspectFault>
    ensures { IfOk result (λ text. PrintsAs output body.now.bytes.now (string_bytes text)) }
{
    let Some((kind, contents)) = &matches.best else {
        return print_unknown(alloc, output, body, CBOR);
    };
    match output {
        Output::Report => {
            let text = report_found(alloc, body, matches, *kind, contents)?;
            let is_strict = body.strict && is_data_item(*kind);
            canonical_only(alloc, is_strict, *kind, body.bytes, text)
        }
        _ => print_as(alloc, output, body, *kind),
    }
}

/// Returns what is printed of a message of which the kind is to be found.
fn print_found(alloc: Global, output: Output, body: &Body<'_>) -> Result<String, InspectFault>
    ensures { IfOk result (λ text. PrintsAs output body.now.bytes.now (string_bytes text)) }
{
    let mut matches = Matches {
        names: Vec::new(alloc),
        best: None,
    };
    let text = match add_matches(alloc, body.bytes, &mut matches) {
        Ok(()) => print_best(alloc, output, body, &matches),
        Err(error) => Err(InspectFault::from(error)),
    };
    drop(matches);
    text
}

/// Returns the fault with the form that was assumed, where that may be another one than was meant.
fn with_form(
    alloc: Global,
    fault: InspectFault,
    form: Form,
    len: usize,
) -> Result<InspectFault, OutOfMemory> {
    if len == 0 {
        return fault.with_line("input: no bytes");
    }
    if form == Form::Hexadecimal {
        return Ok(fault);
    }
    let form = form_name(form);
    let line = format!(in alloc; "input: {form}, {len} bytes; --from names another form")?;
    fault.with_line(line.as_str())
}

/// Returns what is printed of bytes whose kind wasn't named: of the message in them.
fn print_framed(
    alloc: Global,
    options: &Options<'_>,
    form: Form,
    bytes: &[u8],
) -> Result<String, InspectFault>
    ensures { IfOk result (λ text. PrintsBytes options.now.output None bytes.now (string_bytes text)) }
{
    let (frame, message) = frame_of(bytes);
    let body = Body {
        form,
        len: bytes.len(),
        frame,
        bytes: message,
        strict: options.strict,
    };
    match framed_kind(frame) {
        Some(kind) => print_as(alloc, options.output, &body, kind),
        None => print_found(alloc, options.output, &body),
    }
}

/// Returns what is printed of the bytes that an input spells in this form. A kind that was named takes
/// all of them.
fn print_bytes(
    alloc: Global,
    options: &Options<'_>,
    form: Form,
    bytes: &[u8],
) -> Result<String, InspectFault>
    ensures { IfOk result
        (λ text. PrintsBytes options.now.output options.now.kind bytes.now (string_bytes text)) }
{
    let Some(kind) = options.kind else {
        return print_framed(alloc, options, form, bytes);
    };
    let body = Body {
        form,
        len: bytes.len(),
        frame: Frame::None,
        bytes,
        strict: options.strict,
    };
    print_as(alloc, options.output, &body, kind)
}

/// Returns the form of the input: the one that was named, that of a kind of JSON, or the one that is
/// found.
fn form_in(alloc: Global, options: &Options<'_>, input: &[u8]) -> Result<Form, OutOfMemory>
    ensures { IfOk result (λ form. form ≡ form_in options.now.form options.now.kind input.now) }
{
    match (options.form, options.kind) {
        (Some(form), _) => Ok(form),
        (None, Some(kind)) if kind.is_json() => Ok(Form::Json),
        (None, _) => form_of(alloc, input),
    }
}

/// Returns what is printed of an input that spells bytes in this form.
fn print_spelled(
    alloc: Global,
    options: &Options<'_>,
    form: Form,
    input: &[u8],
) -> Result<String, InspectFault>
    ensures { IfOk result
        (λ text. PrintsSpelled options.now.output options.now.kind form input.now (string_bytes text)) }
{
    match bytes_as(alloc, form, input)? {
        Some(bytes) => match print_bytes(alloc, options, form, bytes.as_slice()) {
            Err(fault) if options.form.is_none() => {
                Err(with_form(alloc, fault, form, bytes.len())?)
            }
            result => result,
        },
        None if form == Form::Hexadecimal => Err(InspectFault::Run(RunFault::BadHex)),
        None => Err(InspectFault::BadBase64),
    }
}

/// Returns what is printed of an input that isn't to be encoded from its values.
fn print_input(alloc: Global, options: &Options<'_>, input: &[u8]) -> Result<String, InspectFault>
    ensures { IfOk result (λ text. PrintsInForm (form_in options.now.form options.now.kind input.now)
        options.now.output options.now.kind input.now (string_bytes text)) }
{
    match form_in(alloc, options, input)? {
        Form::Json => print_record(alloc, options, input),
        form => print_spelled(alloc, options, form, input),
    }
}

/// Returns what is printed of the input. Returns the fault if it spells no bytes in the form that
/// was named, or is refused; then the fault says why.
pub fn inspect(alloc: Global, options: &Options<'_>, input: &[u8]) -> Result<String, InspectFault>
    ensures { IfOk result (λ text. PrintsInput options.now input.now (string_bytes text)) }
{
    match options.output {
        Output::FromValues => encode_text(alloc, options.kind, input),
        _ => print_input(alloc, options, input),
    }
}
