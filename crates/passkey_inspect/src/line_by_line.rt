//! One input a line, one answer a line.
ghost use Rattle.std.specs.Prelude.{◌≡◌, ◌∷◌, [], IfOk, OnOk, IfSome, string_bytes};
ghost use Rattle.std.specs.Io.KnownBytes.{Appends};
ghost use Rattle.passkey_inspect.specs.LineByLine.{Answers, AppendsAnswer, AppendsAnswers, AppendsLast, IsRefusal, WritesAnswers};

use crate::fault::InspectFault;
use crate::inspect::inspect;
use crate::options::Options;
use passkey_cbor_text::diagnose::quote;
use passkey_memory::OutOfMemory;
use passkey_rewrite::{RunFault, write_all};
use std::alloc::Global;
use std::io::{Read, Write};

/// How many bytes are read at a time; the lines that end in them are answered before more are read.
const BUFFER: usize = 4096;

/// Lines that were read.
#[derive(Drop)]
struct Lines {
    /// What was read of a line that hasn't ended.
    pending: Vec<u8>,
    /// The answers that weren't written yet.
    answers: String,
    /// How many lines were refused.
    refused: u64,
}

/// Returns the answer to an input that is refused: a JSON object with the fault.
fn refusal_line(alloc: Global, fault: &InspectFault) -> Result<String, OutOfMemory>
    ensures { IfOk result (λ line. IsRefusal (string_bytes line)) }
{
    let text = format!(in alloc; "{fault}")?;
    let quoted = quote(alloc, text.as_str())?;
    Ok(format!(in alloc; "{{\"refused\":{quoted}}}\n")?)
}

/// Returns the answer to an input that is refused, and that it is. Running out of memory is no refusal.
fn refused(alloc: Global, fault: InspectFault) -> Result<(String, bool), InspectFault>
    ensures { IfOk result (λ r. IsRefusal (string_bytes r.0)) }
{
    match fault {
        InspectFault::Run(RunFault::OutOfMemory) => {
            Err(InspectFault::Run(RunFault::OutOfMemory))
        }
        fault => Ok((refusal_line(alloc, &fault)?, true)),
    }
}

/// Returns the answer to an input, and whether it is refused.
fn answer_text(
    alloc: Global,
    options: &Options<'_>,
    input: &[u8],
) -> Result<(String, bool), InspectFault>
    ensures { IfOk result (λ r. Answers options.now input.now (string_bytes r.0)) }
{
    match inspect(alloc, options, input) {
        Ok(text) => Ok((text, false)),
        Err(fault) => refused(alloc, fault),
    }
}

/// Answers the pending line.
fn answer(alloc: Global, options: &Options<'_>, lines: &mut Lines) -> Result<(), InspectFault>
    ensures answers { OnOk result (AppendsAnswer options.now lines.old.pending.items
        (string_bytes lines.old.answers) (string_bytes lines.new.answers)) }
    ensures cleared { OnOk result (lines.new.pending.items ≡ []) }
{
    let (text, is_refused) = answer_text(alloc, options, lines.pending.as_slice())?;
    lines.answers.push_str(text.as_str())?;
    lines.refused = lines.refused.saturating_add(u64::from(is_refused));
    lines.pending.clear();
    Ok(())
}

/// Takes the next byte of a line, or answers the line that it ends.
fn take_byte(
    alloc: Global,
    options: &Options<'_>,
    byte: u8,
    lines: &mut Lines,
) -> Result<(), InspectFault>
    ensures { OnOk result (AppendsAnswers options.now (byte ∷ []) lines.old.pending.items lines.new.pending.items
        (string_bytes lines.old.answers) (string_bytes lines.new.answers)) }
{
    if byte == b'\n' {
        return answer(alloc, options, lines);
    }
    Ok(lines.pending.push(byte)?)
}

/// Answers the lines that end in these bytes.
fn answer_ended(
    alloc: Global,
    options: &Options<'_>,
    bytes: &[u8],
    lines: &mut Lines,
) -> Result<(), InspectFault>
    ensures { OnOk result (AppendsAnswers options.now bytes.now lines.old.pending.items lines.new.pending.items
        (string_bytes lines.old.answers) (string_bytes lines.new.answers)) }
{
    for byte in bytes {
        take_byte(alloc, options, *byte, lines)?;
    }
    Ok(())
}

/// Answers what is left at the end of the input, if anything is.
fn answer_last(alloc: Global, options: &Options<'_>, lines: &mut Lines) -> Result<(), InspectFault>
    ensures { OnOk result (AppendsLast options.now lines.old.pending.items
        (string_bytes lines.old.answers) (string_bytes lines.new.answers)) }
{
    if lines.pending.is_empty() {
        return Ok(());
    }
    answer(alloc, options, lines)
}

/// Writes the answers, and keeps none.
fn write_answers<W: Write>(writer: &mut W, lines: &mut Lines) -> Result<(), RunFault>
    ensures written { OnOk result
        (Appends (W.contents writer.old) (W.contents writer.new) (string_bytes lines.old.answers)) }
    ensures cleared { OnOk result (string_bytes lines.new.answers ≡ []) }
    ensures pending { OnOk result (lines.new.pending.items ≡ lines.old.pending.items) }
{
    write_all(writer, lines.answers.as_bytes())?;
    lines.answers.clear();
    Ok(())
}

fn answer_all<R: Read, W: Write>(
    alloc: Global,
    options: &Options<'_>,
    reader: &mut R,
    writer: &mut W,
    lines: &mut Lines,
) -> Result<(), InspectFault>
    requires { (lines.old.pending.items ≡ []) × (string_bytes lines.old.answers ≡ []) }
    ensures { OnOk result (IfSome (R.remaining reader.old)
        (λ input. WritesAnswers options.now input (W.contents writer.old) (W.contents writer.new))) }
{
    let mut buffer = [0u8; BUFFER];
    for _read in 0..u64::MAX {
        match reader.read(&mut buffer) {
            Ok(0) => {
                answer_last(alloc, options, lines)?;
                return Ok(write_answers(writer, lines)?);
            }
            Ok(n) => answer_ended(alloc, options, &buffer[..n], lines)?,
            Err(_) => return Err(InspectFault::Run(RunFault::InputFailed)),
        }
        write_answers(writer, lines)?;
    }
    Err(InspectFault::Run(RunFault::InputFailed))
}

/// Answers each line of the input in a line: what `inspect` prints of it, or `{"refused":"the fault"}`.
/// Answers are written before more is read, in the order of the lines; a line feed at the end begins no
/// line. Returns how many lines were refused. Stops at the first line for which memory runs out.
pub fn answer_lines<R: Read, W: Write>(
    alloc: Global,
    options: &Options<'_>,
    reader: &mut R,
    writer: &mut W,
) -> Result<u64, InspectFault>
    ensures { OnOk result (IfSome (R.remaining reader.old)
        (λ input. WritesAnswers options.now input (W.contents writer.old) (W.contents writer.new))) }
{
    let mut lines = Lines {
        pending: Vec::new(alloc),
        answers: String::new(alloc),
        refused: 0,
    };
    answer_all(alloc, options, reader, writer, &mut lines)?;
    Ok(lines.refused)
}
