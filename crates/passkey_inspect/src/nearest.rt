//! Which kind a name that is none's may have meant.

use crate::fault::InspectFault;
use crate::kinds::LAST;
use passkey_catalogue::Kind;
use passkey_memory::OutOfMemory;
use std::alloc::Global;
use strsim::osa_distance;

/// The number of letters in which a name has to differ from a kind's not to be near it.
const FAR: usize = 3;

/// Returns the kind's name that is nearest to this one, if one differs in few letters.
fn nearest_name(alloc: Global, word: &str) -> Result<Option<&'static str>, OutOfMemory> {
    let (mut nearest, mut least) = (None, FAR);
    for place in 1..=LAST {
        let Some(kind) = Kind::at(place) else {
            continue;
        };
        let distance = osa_distance(alloc, word, kind.name())?;
        if distance < least {
            (nearest, least) = (Some(kind.name()), distance);
        }
    }
    Ok(nearest)
}

/// Returns a text that says what the name isn't, and which kind is near, or where kinds are listed.
fn text_of(alloc: Global, name: &str, what: &str) -> Result<String, OutOfMemory> {
    match nearest_name(alloc, name)? {
        Some(kind) => {
            Ok(format!(in alloc; "{name:?}: {what} has this name; the nearest kind is {kind}")?)
        }
        None => Ok(format!(in alloc; "{name:?}: {what} has this name; --help lists the kinds")?),
    }
}

/// Returns the fault for a name of which there is neither a kind nor a file.
pub fn no_file(alloc: Global, name: &str) -> Result<InspectFault, OutOfMemory> {
    Ok(InspectFault::NoFile(text_of(alloc, name, "no kind and no file")?))
}

/// Returns the fault for a name of which there is no kind.
pub fn no_kind(alloc: Global, name: &str) -> Result<InspectFault, OutOfMemory> {
    Ok(InspectFault::NoKind(text_of(alloc, name, "no kind")?))
}
