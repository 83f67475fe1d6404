//! Rows of kinds that `passkey_show` doesn't have, for calls that may run out of memory and that
//! decoding and encoding a message doesn't make. A call that runs out of memory is made again, with
//! the value that it borrowed or gave back.
use crate::building::{build, erase};
use crate::making::{add_parameter, in_base64, insert, point};
use crate::setting::{iterate, object, set_assertion_outputs, set_creation_outputs};
use crate::tries::Tries;
use crate::well_known::well_known;
use passkey_rewrite::RunFault;
use std::alloc::Global;

/// Returns the output of a row of such a kind. Returns `UnknownKind` if it isn't a row of such a
/// kind.
pub fn answer(
    alloc: Global,
    tries: &mut Tries,
    name: &str,
    input: &str,
) -> Result<String, RunFault> {
    match name {
        "set-mc-extensions" => set_creation_outputs(alloc, tries, input),
        "set-ga-extensions" => set_assertion_outputs(alloc, tries, input),
        "iterate" => iterate(alloc, tries, input),
        "add-parameter" => add_parameter(alloc, tries, input),
        "object" => object(alloc, tries, input),
        "point" => point(alloc, tries, input),
        "insert" => insert(alloc, tries, input),
        "build" => build(alloc, tries, input),
        "erase" => erase(alloc, input),
        "base64" => in_base64(alloc, tries, input),
        "well-known" => well_known(alloc, tries, input),
        _ => Err(RunFault::UnknownKind),
    }
}
