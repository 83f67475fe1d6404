//! Extension inputs and outputs, decoded from the messages that hold them.
ghost use Rattle.std.specs.Prelude.{ℕ, option_map};
ghost use Rattle.passkey_kinds.specs.LentItem.{LendsMember};
ghost use Rattle.passkey_kinds.specs.Words.{read_item, table_of};
ghost use Rattle.passkey_registered.specs.extensions.Lent.{ReadsLent, ReadsMember};

use passkey_kinds::{Fault, Message, Record, lend_item};
use std::alloc::Global;

fn decoded<E: Message>(alloc: Global, lent: Option<&[u8]>) -> Result<Option<E>, Fault>
    ensures { ReadsLent E.parts (read_item E.fields) (option_map (λ s. s.now) lent.entry) result }
{
    match lent {
        Some(bytes) => {
            let (extensions, _len) = E::from_slice(alloc, bytes)?;
            Ok(Some(extensions))
        }
        None => Ok(None),
    }
}

/// Decodes the value of the row with this number in the message at the beginning of the bytes:
/// extension inputs are row 6 of an authenticatorMakeCredential request and row 4 of an
/// authenticatorGetAssertion request, unsigned outputs row 6 and row 8 of the responses. The first
/// member that names the row counts; what else the message holds isn't checked, and bytes after it
/// are ignored.
///
/// Returns `None` if the bytes don't begin with a well-formed map of at most 256 levels, no member
/// names the row, or a key before it is one that no record can have. Returns the first fault of the
/// extensions if there is one (`NotAMap`, `BadKey`, `Repeated`, `Refused`), and `OutOfMemory` if an
/// allocation fails.
pub fn extensions_of<R: Record, E: Message>(
    alloc: Global,
    message: &[u8],
    number: u8,
) -> Result<Option<E>, Fault>
    ensures { ReadsMember (table_of R.fields) number message.now E.parts (read_item E.fields) result }
{
    decoded(alloc, lend_item::<R>(message, number))
}
