//! The program's arguments.

use crate::kind::{InspectKind, kind_named};
use passkey_inspect_input::Form;

/// What `--help` prints.
pub const HELP: &str = "passkey_inspect [OPTION].. [KIND] [FILE]

Tells what is in a passkey message, or where it is refused. Without a FILE, or if FILE is -, it
reads standard input. It takes hexadecimal (also with spaces, colons, quotes, 0x, as h'01', and as
xxd and hexdump -C dump it), base64, base64url, JSON and raw bytes.

  --json        JSON, with members by their names       passkey_inspect --json info FILE
  --diag        diagnostic notation (RFC 8949)          passkey_inspect --diag FILE
  --diag=bytes  the same, and how each item is encoded  passkey_inspect --diag=bytes FILE
  --hex         the bytes head by head, explained       passkey_inspect --hex FILE
  --cbor        encoded again, in hexadecimal           passkey_inspect --cbor info FILE
  --html        a page: members beside their bytes      passkey_inspect --html FILE >page.html
  --values      exact JSON, which --encode takes        passkey_inspect --values info FILE
  --encode      such JSON encoded, in hexadecimal       passkey_inspect --encode info FILE
  --raw         with --cbor or --encode: the bytes      passkey_inspect --encode --raw info FILE >info
  --strict      refuse what isn't canonical CBOR        passkey_inspect --strict info FILE
  --lines       one input a line, one answer a line; with one of --json, --cbor, --values, --encode
  --from FORM   hex, base64, raw or json                passkey_inspect --from raw auth FILE
  --kinds       the kinds: name, number in C, form and standard, tabs between
  -h, --help    this text
  --version     the version

Of JSON a report is printed, or with --json and --values the record in a line; the others are for
bytes, but --encode, which takes JSON alone.

Without a KIND it is found, and a leading command byte or status byte 00 is taken off. A KIND that
is named takes all of the bytes; auth is authenticator data, cbor any data item, and mc-response
also an attestation object. These kinds are found:

  bytes   cbor, auth, mc-request, mc-response, ga-request, ga-response, info, hmac-input,
          pin-request, pin-response, bio-request, bio-response, cm-request, cm-response,
          lb-request, lb-response, lb-entry, cfg-request, cfg-min-pin-length, cfg-vendor,
          cose-key
  JSON    creation, request, created, authenticated, client-data

These have to be named:

  bytes   info-23, mc-inputs, mc-outputs, mc-unsigned, ga-inputs, ga-outputs, ga-unsigned,
          att-packed, att-tpm, att-android-key, att-android-safetynet, att-fido-u2f, att-none,
          att-apple, att-compound, tpm-cert-info, tpm-pub-area, ctap-mc-request,
          ctap-ga-request, ctap-mc-response, ctap-ga-response, attestation-object
  JSON    signal-unknown, signal-accepted, signal-details, client-inputs, client-outputs,
          mediated-creation, mediated-request, client-data-top, client-data-payment,
          capabilities

Status: 0 done, 1 refused, 2 bad arguments, 3 out of memory, 4 a read or a write failed.
passkey_show KIND prints a message encoded again, and nothing else (docs/PROGRAM.md).
";

/// What `--version` prints.
pub const VERSION: &str = "passkey_inspect 0.2.0\n";

/// What is printed.
#[derive(Clone, Copy, Debug, PartialEq, Eq)]
pub enum Output {
    /// A report, one member a line.
    Report,
    /// The message as JSON.
    Json,
    /// The data item in diagnostic notation.
    Diagnosis,
    /// The same, with how each item is encoded.
    Bytes,
    /// The data item's bytes, head by head, with what each means.
    Dump,
    /// The message encoded again, in hexadecimal.
    Encoding,
    /// A page of HTML.
    Page,
    /// The message as JSON, from which it is read back.
    Values,
    /// The encoding of a message that such JSON is, in hexadecimal.
    FromValues,
}

impl Output {
    /// Returns whether it is printed in one line.
    fn has_a_line(self) -> bool {
        match self {
            Output::Json | Output::Encoding | Output::Values | Output::FromValues => true,
            Output::Report | Output::Diagnosis | Output::Bytes | Output::Dump | Output::Page =>
                false,
        }
    }

    /// Returns whether it is an encoding.
    fn is_an_encoding(self) -> bool {
        self == Output::Encoding || self == Output::FromValues
    }

    /// Returns the option that asks for it; of a report, which none asks for, no text.
    pub fn option(self) -> &'static str {
        match self {
            Output::Report => "",
            Output::Json => "--json",
            Output::Diagnosis => "--diag",
            Output::Bytes => "--diag=bytes",
            Output::Dump => "--hex",
            Output::Encoding => "--cbor",
            Output::Page => "--html",
            Output::Values => "--values",
            Output::FromValues => "--encode",
        }
    }
}

/// The arguments.
#[derive(Clone, Copy)]
pub struct Options<'a> {
    /// The kind of the input; `None` if it is to be found.
    pub kind: Option<InspectKind>,
    /// The file that is read; `None` and a hyphen for standard input.
    pub file: Option<&'a str>,
    /// An operand before the file that is no kind's name, if no kind was named.
    pub stray: Option<&'a str>,
    /// What is printed.
    pub output: Output,
    /// The input's form; `None` if it is to be found.
    pub form: Option<Form>,
    /// Whether each line is an input, which is answered in a line.
    pub lines: bool,
    /// Whether a data item has to be in CTAP2's canonical form.
    pub strict: bool,
    /// Whether an encoding is printed as it is, and not in hexadecimal.
    pub raw: bool,
    /// Whether help is printed instead.
    pub help: bool,
    /// Whether the version is printed instead.
    pub version: bool,
    /// Whether the list of kinds is printed instead.
    pub kinds: bool,
}

fn form_named(name: &str) -> Option<Form> {
    match name {
        "hex" => Some(Form::Hexadecimal),
        "base64" => Some(Form::Base64),
        "raw" => Some(Form::Raw),
        "json" => Some(Form::Json),
        _ => None,
    }
}

/// Sets an option that has no value. Returns whether there is one of this name.
fn set_option(options: &mut Options<'_>, word: &str) -> bool {
    match word {
        "--json" => options.output = Output::Json,
        "--diag" => options.output = Output::Diagnosis,
        "--diag=bytes" => options.output = Output::Bytes,
        "--hex" => options.output = Output::Dump,
        "--cbor" => options.output = Output::Encoding,
        "--html" => options.output = Output::Page,
        "--values" => options.output = Output::Values,
        "--encode" => options.output = Output::FromValues,
        "--lines" => options.lines = true,
        "--strict" => options.strict = true,
        "--raw" => options.raw = true,
        "-h" | "--help" => options.help = true,
        "--version" => options.version = true,
        "--kinds" => options.kinds = true,
        _ => return false,
    }
    true
}

/// Takes an argument that is no option: a kind, if none was named, and else a file. Returns whether
/// it is one. A file before another one is no kind, where none was named.
fn set_operand<'a>(options: &mut Options<'a>, word: &'a str) -> bool {
    match kind_named(word) {
        Some(kind) if options.kind.is_none() && options.stray.is_none() => {
            options.kind = Some(kind);
            return true;
        }
        _ => {}
    }
    if options.file.is_some() {
        if options.kind.is_some() || options.stray.is_some() {
            return false;
        }
        options.stray = options.file;
    }
    options.file = Some(word);
    true
}

/// Has each line answered as JSON, if lines are answered and nothing else was asked for. Returns whether
/// what is asked for has a line, or is an encoding if that is to be printed as it is.
fn set_lines(options: &mut Options<'_>) -> bool {
    if options.lines && options.output == Output::Report {
        options.output = Output::Json;
    }
    if options.raw {
        return !options.lines && options.output.is_an_encoding();
    }
    !options.lines || options.output.has_a_line()
}

/// Returns the options, or `None` if an argument is none, or is one too many. `-h`, and a word that
/// begins with two hyphens, is an option; `--from` has a value after it or an equals sign, and the
/// last of contradicting options is taken. The first operand that is the name of a kind is the kind,
/// and another is the file.
pub fn options_of(words: &[String]) -> Option<Options<'_>> {
    let mut options = Options {
        kind: None,
        file: None,
        stray: None,
        output: Output::Report,
        form: None,
        lines: false,
        strict: false,
        raw: false,
        help: false,
        version: false,
        kinds: false,
    };
    let mut takes_form = false;
    for word in words {
        let word = word.as_str();
        if takes_form {
            options.form = Some(form_named(word)?);
            takes_form = false;
        } else if word == "--from" {
            takes_form = true;
        } else if let Some(name) = word.strip_prefix("--from=") {
            options.form = Some(form_named(name)?);
        } else if word == "-h" || word.starts_with("--") {
            if !set_option(&mut options, word) {
                return None;
            }
        } else if !set_operand(&mut options, word) {
            return None;
        }
    }
    if takes_form || !set_lines(&mut options) {
        return None;
    }
    Some(options)
}
