//! `passkey_inspect [KIND] [FILE]` tells what is in a passkey message: its members by their names,
//! or where it is refused. `--help` lists the options. The exit status is 0, or that of a fault,
//! which is told on standard error.
#![tactic(auto)]

mod examine;
mod fault;
mod frame;
mod inspect;
mod kind;
mod kinds;
mod line_by_line;
mod nearest;
mod newer_members;
mod options;
mod records;
mod refusal;
mod status_name;
mod structure;
mod undecoded;
mod values;

use fault::InspectFault;
use hex::FromHexError;
use kinds::all_kinds_text;
use line_by_line::answer_lines;
use nearest::{no_file, no_kind};
use options::{HELP, Options, VERSION, options_of};
use passkey_memory::OutOfMemory;
use passkey_rewrite::{RunFault, read_all, read_words, write_all};
use std::alloc::Global;
use std::fs;
use std::io::{ErrorKind, Read, Write};
use std::process::ExitCode;
use std::rt::{Env, Files};

/// Returns the bytes that a line spells in hexadecimal; of one that spells none the line's own.
fn raw_bytes(alloc: Global, line: &str) -> Result<Vec<u8>, OutOfMemory> {
    match hex::decode(alloc, line.trim_end()) {
        Ok(bytes) => Ok(bytes),
        Err(FromHexError::OutOfMemory) => Err(OutOfMemory),
        Err(_) => Ok(Vec::from_slice(alloc, line.as_bytes())?),
    }
}

/// Prints what is in the input, or in each of its lines.
fn print<R: AllocGlobal>(
    rt: &R,
    options: &Options<'_>,
    reader: &mut impl Read,
    writer: &mut impl Write,
) -> Result<(), InspectFault> {
    if options.lines {
        return match answer_lines(rt.alloc(), options, reader, writer)? {
            0 => Ok(()),
            refused => Err(InspectFault::RefusedLines(refused)),
        };
    }
    let input = read_all(rt.alloc(), reader)?;
    match inspect::inspect(rt.alloc(), options, input.as_slice()) {
        Ok(line) if options.raw => {
            let bytes = raw_bytes(rt.alloc(), line.as_str())?;
            Ok(write_all(writer, bytes.as_slice())?)
        }
        Ok(text) => Ok(write_all(writer, text.as_bytes())?),
        Err(fault) => {
            write_all(writer, fault.output().as_bytes())?;
            Err(fault)
        }
    }
}

/// Prints what is in the file, or in the reader if the file's name is a hyphen or none is named.
fn print_file<R: Files + AllocGlobal>(
    rt: &R,
    options: &Options<'_>,
    reader: &mut impl Read,
    writer: &mut impl Write,
) -> Result<(), InspectFault> {
    let path = options.file.unwrap_or("-");
    if path == "-" {
        return print(rt, options, reader, writer);
    }
    match fs::open(rt, path) {
        Ok(mut file) => print(rt, options, &mut file, writer),
        Err(error) if error.kind() == ErrorKind::NotFound => Err(no_file(rt.alloc(), path)?),
        Err(_) => Err(InspectFault::Run(RunFault::InputFailed)),
    }
}

fn show<R: Env + Files + AllocGlobal>(
    rt: &R,
    reader: &mut impl Read,
    writer: &mut impl Write,
) -> Result<(), InspectFault> {
    let words = read_words(rt)?;
    let options = options_of(&words).ok_or(InspectFault::BadArguments)?;
    if options.help {
        return Ok(write_all(writer, HELP.as_bytes())?);
    }
    if options.version {
        return Ok(write_all(writer, VERSION.as_bytes())?);
    }
    if options.kinds {
        let text = all_kinds_text(rt.alloc())?;
        return Ok(write_all(writer, text.as_bytes())?);
    }
    if let Some(word) = options.stray {
        return Err(no_kind(rt.alloc(), word)?);
    }
    print_file(rt, &options, reader, writer)
}

fn main(rt: HostRuntime) -> ExitCode {
    match show(&rt, &mut rt.stdin(), &mut rt.stdout()) {
        Ok(()) => ExitCode::SUCCESS,
        Err(fault) => {
            let _ = eprintln!(rt; "{fault}");
            ExitCode::from(fault.status())
        }
    }
}
