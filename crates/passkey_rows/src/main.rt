//! `passkey_rows` reads rows from standard input, one on each line: a kind, a space and an input.
//! For each row it prints the exit status of `passkey_show` for that input, a space, and the output
//! or the fault's line. Rows of other kinds make calls that may run out of memory and that
//! `passkey_show` doesn't make; if one of them runs out of memory, it is made again, and the status
//! is 3. Empty lines, and lines that begin with `#`, are printed unchanged. Each message is decoded
//! twice, over a cursor and from a data item; if the results differ, a line says so.
#![tactic(auto)]

mod again;
mod again_bytes;
mod again_json;
mod alike;
mod attestation;
mod authenticated;
mod building;
mod by_item;
mod ceremonies;
mod copied;
mod decoding;
mod extensions;
mod heads;
mod hexadecimal;
mod lenient;
mod lenient_json;
mod level_3;
mod making;
mod named;
mod notation;
mod parts;
mod platform;
mod setting;
mod tries;
mod ways;
mod well_known;

use crate::again::answer;
use crate::alike::are_decoded_alike;
use crate::named::named_row;
use crate::tries::Tries;
use anyhow::Result;
use passkey_rewrite::{Kind, RunFault, rewrite};
use std::alloc::Global;
use std::io::{BufRead, BufReader, BufWriter, Write};

fn output_of(alloc: Global, tries: &mut Tries, row: &str) -> Result<String, RunFault> {
    let (name, input) = row.split_once(' ').unwrap_or((row, ""));
    match Kind::from_name(name) {
        Some(kind) => rewrite(alloc, kind, input.as_bytes()),
        None => match named_row(alloc, tries, name, input) {
            Some(output) => output,
            None => answer(alloc, tries, name, input),
        },
    }
}

fn is_decoded_alike(alloc: Global, row: &str) -> Result<bool> {
    let (name, input) = row.split_once(' ').unwrap_or((row, ""));
    match passkey_catalogue::Kind::from_name(name) {
        Some(kind) => Ok(are_decoded_alike(alloc, kind, input)?),
        None => Ok(true),
    }
}

fn print_row<W: Write>(alloc: Global, writer: &mut W, row: &str) -> Result<()> {
    if row.is_empty() || row.starts_with('#') {
        writeln!(writer, "{row}")?;
        return Ok(());
    }
    let mut tries = Tries::new();
    match output_of(alloc, &mut tries, row) {
        Ok(output) => writeln!(writer, "{} {output}", tries.status())?,
        Err(fault) => writeln!(writer, "{} {fault}", fault.status())?,
    }
    if !is_decoded_alike(alloc, row)? {
        writeln!(writer, "! another result from the data item")?;
    }
    if tries.is_different() {
        writeln!(writer, "! a copy isn't equal to its original")?;
    }
    Ok(())
}

fn main(rt: HostRuntime) -> Result<()> {
    let mut writer = BufWriter::new(rt.alloc(), rt.stdout())?;
    for row in BufReader::new(rt.alloc(), rt.stdin())?.lines(rt.alloc()) {
        print_row(rt.alloc(), &mut writer, row?.as_str())?;
    }
    writer.flush()?;
    Ok(())
}
