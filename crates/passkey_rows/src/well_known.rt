//! The document at `/.well-known/webauthn`.
use crate::again_json::parsed;
use crate::tries::Tries;
use passkey_rewrite::RunFault;
use passkey_types::OutOfMemory;
use passkey_types::webauthn::WellKnown;
use std::alloc::Global;

fn encoding(alloc: Global, document: &WellKnown) -> Result<String, OutOfMemory> {
    let json = document.to_json(alloc)?;
    let text = json.to_string(alloc);
    drop(json);
    Ok(text?)
}

/// Returns the document's text, and tries again if memory ran out.
fn encoding_again(
    alloc: Global,
    tries: &mut Tries,
    document: &WellKnown,
) -> Result<String, OutOfMemory> {
    match encoding(alloc, document) {
        Ok(text) => Ok(text),
        Err(OutOfMemory) => {
            tries.refuse();
            encoding(alloc, document)
        }
    }
}

/// `JSON`: the document, decoded and encoded.
pub fn well_known(alloc: Global, tries: &mut Tries, input: &str) -> Result<String, RunFault> {
    let value = parsed(alloc, input)?;
    let document = WellKnown::from_json(alloc, &value);
    drop(value);
    let document = document?;
    let text = encoding_again(alloc, tries, &document);
    drop(document);
    Ok(text?)
}
