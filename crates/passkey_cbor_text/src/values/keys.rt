//! Map keys that the names of members in a JSON object are.
ghost use Rattle.passkey_cbor.specs.View.{item_of};
ghost use Rattle.passkey_cbor_text.specs.values.Keys.{any_key};
ghost use Rattle.passkey_cbor_text.specs.values.NoItem.{Reads};

use crate::values::ItemFault;
use crate::values::escape::{value_of_hex, value_of_number, value_of_text};
use passkey_cbor::Value;
use std::alloc::Global;

/// Returns the key that a name is in a map that no table divides: `$` and the key's encoding in
/// hexadecimal, `#` and an integer, or a text.
pub(crate) fn any_key(alloc: Global, name: &str) -> Result<Value, ItemFault>
    ensures { Reads item_of (any_key name.now) result }
{
    match name.as_bytes().split_first() {
        Some((b'$', digits)) => value_of_hex(alloc, digits),
        Some((b'#', digits)) => value_of_number(alloc, digits),
        _ => Ok(value_of_text(alloc, name)?),
    }
}
