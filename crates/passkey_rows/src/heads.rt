//! What it costs to decode a message.
use crate::decoding::{Source, decode_as};
use crate::hexadecimal::decode;
use crate::tries::Tries;
use passkey_catalogue::Kind;
use passkey_rewrite::RunFault;
use passkey_types::OutOfMemory;
use passkey_types::cbor::Count;
use std::alloc::Global;

/// What is counted as a cursor decodes a message.
#[derive(Clone, Copy, PartialEq, Eq)]
pub enum Counts {
    /// Heads and nodes.
    Both,
    /// Nodes.
    Nodes,
}

/// Returns the counts as text, each with a space after it.
fn counted(alloc: Global, counts: Counts, count: Count) -> Result<String, OutOfMemory> {
    let (heads, nodes) = (count.heads, count.nodes);
    Ok(match counts {
        Counts::Both => format!(in alloc; "{heads} {nodes} ")?,
        Counts::Nodes => format!(in alloc; "{nodes} ")?,
    })
}

/// `BYTES`: what is counted as a cursor decodes a message of this kind, and `accepted` or the fault.
pub fn heads(
    alloc: Global,
    tries: &mut Tries,
    counts: Counts,
    kind: Kind,
    input: &str,
) -> Result<String, RunFault> {
    let bytes = decode(alloc, input)?;
    let Some(decoded) = decode_as(alloc, tries, kind, Source::Cursor, &bytes) else {
        return Err(RunFault::UnknownKind);
    };
    let text = counted(alloc, counts, decoded.count)?;
    match decoded.outcome {
        Ok(_) => Ok(format!(in alloc; "{text}accepted")?),
        Err(RunFault::OutOfMemory) => Err(RunFault::OutOfMemory),
        Err(fault) => Ok(format!(in alloc; "{text}{fault}")?),
    }
}
