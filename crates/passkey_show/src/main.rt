//! `passkey_show KIND` reads bytes in hexadecimal, or a JSON text, from standard input, decodes
//! them as the kind, encodes the result and writes it to standard output in the same form. The kind
//! `check` writes whether the bytes are in CTAP2's canonical form. The exit status is 0, or that of
//! a fault, whose line is written to standard error.
#![tactic(auto)]

mod run;

use passkey_rewrite::{RunFault, kind_of, read_words};
use std::io::{Read, Write};
use std::process::ExitCode;
use std::rt::Env;

fn show(
    rt: &(impl Env + AllocGlobal),
    reader: &mut impl Read,
    writer: &mut impl Write,
) -> Result<(), RunFault> {
    let words = read_words(rt)?;
    run::run(rt.alloc(), reader, writer, kind_of(&words)?)
}

fn main(rt: HostRuntime) -> ExitCode {
    match show(&rt, &mut rt.stdin(), &mut rt.stdout()) {
        Ok(()) => ExitCode::SUCCESS,
        Err(fault) => {
            let _ = eprintln!(rt; "{fault}");
            ExitCode::from(fault.status())
        }
    }
}
