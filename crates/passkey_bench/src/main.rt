//! `passkey_bench CALL ROUNDS` reads bytes from standard input, makes the call over them this many
//! times, and prints the sum of the lengths that were found. `bench/run` measures it. A call
//! `count-..` is made once, and prints whether a message was decoded, its heads and its nodes.
#![tactic(auto)]

use anyhow::{Result, bail};
use passkey_cbor::{Cursor, Value, item_len};
use passkey_ctap2::{
    get_assertion as get_assertion, get_info as get_info, make_credential as make_credential,
};
use passkey_kinds::Message;
use passkey_rewrite::{JsonKind, rewrite_json};
use std::alloc::Global;
use std::env;
use std::io::Read;
use std::rt::Env;

/// The messages that are measured.
#[derive(Clone, Copy)]
enum Kind {
    Info,
    MakeResponse,
    GetRequest,
}

/// The calls that are measured.
#[derive(Clone, Copy)]
enum Call {
    Skip,
    FromSlice,
    Rewrite,
    Decode(Kind),
    DecodeAndEncode(Kind),
    Count(Kind),
    Json(JsonKind),
}

fn call_named(name: &str) -> Option<Call> {
    match name {
        "skip" => Some(Call::Skip),
        "from_slice" => Some(Call::FromSlice),
        "rewrite" => Some(Call::Rewrite),
        "decode-info" => Some(Call::Decode(Kind::Info)),
        "decode-mc-response" => Some(Call::Decode(Kind::MakeResponse)),
        "decode-ga-request" => Some(Call::Decode(Kind::GetRequest)),
        "count-info" => Some(Call::Count(Kind::Info)),
        "count-mc-response" => Some(Call::Count(Kind::MakeResponse)),
        "count-ga-request" => Some(Call::Count(Kind::GetRequest)),
        "rewrite-info" => Some(Call::DecodeAndEncode(Kind::Info)),
        "rewrite-mc-response" => Some(Call::DecodeAndEncode(Kind::MakeResponse)),
        "rewrite-ga-request" => Some(Call::DecodeAndEncode(Kind::GetRequest)),
        _ => match passkey_rewrite::Kind::from_name(name) {
            Some(passkey_rewrite::Kind::Json(kind)) => Some(Call::Json(kind)),
            _ => None,
        },
    }
}

fn decoded<M: Message>(alloc: Global, bytes: &[u8]) -> usize {
    match M::from_slice(alloc, bytes) {
        Ok((_, len)) => len,
        Err(_) => 0,
    }
}

fn rewritten<M: Message>(alloc: Global, bytes: &[u8]) -> usize {
    match M::from_slice(alloc, bytes) {
        Ok((message, len)) => match message.to_vec(alloc) {
            Ok(_) => len,
            Err(_) => 0,
        },
        Err(_) => 0,
    }
}

fn counted<M: Message>(alloc: Global, bytes: &[u8]) -> Result<String> {
    let mut cursor = Cursor::new(bytes);
    let is_decoded = M::read(alloc, &mut cursor).is_ok();
    let count = cursor.count();
    let (heads, nodes) = (count.heads, count.nodes);
    Ok(format!(in alloc; "{is_decoded} {heads} {nodes}")?)
}

fn item_rewritten(alloc: Global, bytes: &[u8]) -> usize {
    match Value::from_slice(alloc, bytes) {
        Ok((value, len)) => match value.to_vec(alloc) {
            Ok(_) => len,
            Err(_) => 0,
        },
        Err(_) => 0,
    }
}

// The length of the leading data item of the bytes, or 0 if the call finds none.
fn len_found(alloc: Global, call: Call, bytes: &[u8]) -> usize {
    match call {
        Call::Skip => item_len(bytes).unwrap_or(0),
        Call::FromSlice => match Value::from_slice(alloc, bytes) {
            Ok((_, len)) => len,
            Err(_) => 0,
        },
        Call::Rewrite => item_rewritten(alloc, bytes),
        Call::Decode(Kind::Info) => decoded::<get_info::Response>(alloc, bytes),
        Call::Decode(Kind::MakeResponse) => decoded::<make_credential::Response>(alloc, bytes),
        Call::Decode(Kind::GetRequest) => decoded::<get_assertion::Request>(alloc, bytes),
        Call::DecodeAndEncode(Kind::Info) => rewritten::<get_info::Response>(alloc, bytes),
        Call::DecodeAndEncode(Kind::MakeResponse) => {
            rewritten::<make_credential::Response>(alloc, bytes)
        }
        Call::DecodeAndEncode(Kind::GetRequest) => {
            rewritten::<get_assertion::Request>(alloc, bytes)
        }
        Call::Json(kind) => match rewrite_json(alloc, kind, bytes) {
            Ok(_) => bytes.len(),
            Err(_) => 0,
        },
        Call::Count(_) => 0,
    }
}

fn sum_of(alloc: Global, call: Call, rounds: u32, bytes: &[u8]) -> usize {
    let mut sum: usize = 0;
    for _ in 0..rounds {
        sum = sum.wrapping_add(len_found(alloc, call, bytes));
    }
    sum
}

fn output_of(alloc: Global, call: Call, rounds: u32, bytes: &[u8]) -> Result<String> {
    match call {
        Call::Count(Kind::Info) => counted::<get_info::Response>(alloc, bytes),
        Call::Count(Kind::MakeResponse) => counted::<make_credential::Response>(alloc, bytes),
        Call::Count(Kind::GetRequest) => counted::<get_assertion::Request>(alloc, bytes),
        _ => {
            let sum = sum_of(alloc, call, rounds, bytes);
            Ok(format!(in alloc; "{sum}")?)
        }
    }
}

fn words_of(rt: &(impl Env + AllocGlobal)) -> Result<(Call, u32)> {
    let mut words = Vec::new(rt.alloc());
    for word in env::args(rt)?.skip(1) {
        words.push(word)?;
    }
    match words.as_slice() {
        [name, rounds] => match call_named(name.as_str()) {
            Some(call) => Ok((call, rounds.parse::<u32>()?)),
            None => bail!("no such call"),
        },
        _ => bail!("two words are wanted"),
    }
}

fn main(rt: HostRuntime) -> Result<()> {
    let (call, rounds) = words_of(&rt)?;
    let mut bytes = Vec::new(rt.alloc());
    let _ = rt.stdin().read_to_end(&mut bytes)?;
    println!(rt;
        "{}",
        output_of(rt.alloc(), call, rounds, bytes.as_slice())?
    )?;
    Ok(())
}
