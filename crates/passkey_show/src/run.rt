//! One run: reads the input to its end, decodes it, encodes the result and writes the encoding.
ghost use Rattle.std.specs.Prelude.{◌≡◌, ◌↔◌, IfOk, IfErr, OnOk, IfSome, IsNone, IsErrOf, string_bytes};
ghost use Rattle.std.specs.Io.KnownBytes.{IsAtEnd};
ghost use Rattle.passkey_rewrite.specs.Rewrite.{HasNoOutput};
ghost use Rattle.passkey_rewrite.specs.Kind.{kind_named};
ghost use Rattle.passkey_show.specs.Shows.{IsOutput, Shows};

use passkey_rewrite::{Kind, RunFault, read_all, rewrite, write_all};
use std::alloc::Global;
use std::io::{Read, Write};

fn output(alloc: Global, kind: Kind, input: &[u8]) -> Result<String, RunFault>
    ensures ok { IfOk result (λ text. IsOutput kind input.now (string_bytes text)) }
    ensures err { IfErr result (HasNoOutput kind input.now) }
{
    let mut text = rewrite(alloc, kind, input)?;
    text.push('\n')?;
    Ok(text)
}

/// Reads the input to its end, decodes it as the kind, and writes its encoding and a line feed.
/// Bytes are read in hexadecimal of either case, with tabs, line feeds, carriage returns and spaces
/// allowed at the ends, and written in lower case. JSON is written as compact JSON with bytes in
/// base64url. The kind `check` writes `canonical` or `not canonical`.
///
/// Returns `UnknownKind` exactly if the word isn't the name of a kind; then nothing is read.
/// Returns `InputFailed` if reading fails or the input doesn't end within 2^32 - 1 reads, and
/// `OutOfMemory` if an allocation fails; otherwise the errors are those of `rewrite`. In all of
/// these cases nothing is written. Returns `OutputFailed` if writing fails or a write takes no
/// byte; then not all of the output was written.
pub fn run<R: Read, W: Write>(
    alloc: Global,
    reader: &mut R,
    writer: &mut W,
    kind: &str,
) -> Result<(), RunFault>
    ensures unknown { IsErrOf result RunFault.UnknownKind ↔ IsNone (kind_named kind.now) }
    ensures untouched { IsNone (kind_named kind.now) → (reader.new ≡ reader.old) × (writer.new ≡ writer.old) }
    ensures end { OnOk result (IsAtEnd (R.remaining reader.new)) }
    ensures shows { IfSome (kind_named kind.now) (λ named. IfSome (R.remaining reader.old) (λ input.
        Shows named input result (W.contents writer.old) (W.contents writer.new))) }
{
    let kind = Kind::from_name(kind).ok_or(RunFault::UnknownKind)?;
    let input = read_all(alloc, reader)?;
    let text = output(alloc, kind, input.as_slice())?;
    write_all(writer, text.as_bytes())
}
