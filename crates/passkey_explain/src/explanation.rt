//! Why bytes aren't decoded as a message.
ghost use Rattle.std.specs.Prelude.{◌≡◌, ℕ, IfOk};
ghost use Rattle.passkey_cbor.specs.LeadingItem.{IsLeadingItem, HasNoLeadingItem};
ghost use Rattle.passkey_malformed.specs.Stops.{IsMalformed};
ghost use Rattle.passkey_kinds.specs.Words.{item_of};
ghost use Rattle.passkey_kinds.specs.declared.fault.Fault.TheVariants.{OutOfMemory as NoRoom};
ghost use Rattle.passkey_explain.specs.Explains.{Explains, ExplainsItem};

use crate::descent::explain_at;
use crate::{Blame, Extent, locate};
use passkey_cbor::{CborError, Value};
use passkey_kinds::{Fault, Message, record_from_value};
use passkey_malformed::{Malformed, malformed};
use passkey_memory::OutOfMemory;
use std::alloc::Global;

/// What in a message is refused.
#[derive(Debug, Drop)]
pub struct RefusedItem {
    /// The fault with which the message isn't decoded.
    pub fault: Fault,
    /// The innermost data item, or map key, that is refused: the steps to it, and why.
    pub blame: Blame,
    /// Where it is encoded.
    pub extent: Extent,
}

/// Why bytes aren't decoded as a message.
#[derive(Debug, Drop)]
pub enum Explanation {
    /// They don't begin with a well-formed data item of at most 256 levels: `DecodeFailed`. Where and
    /// why they don't.
    NotWellFormed(Malformed),
    /// An item in them, or a map key, is refused.
    Refused(RefusedItem),
}

/// Returns where and why no data item begins the bytes.
fn not_well_formed(bytes: &[u8]) -> Malformed
    requires { HasNoLeadingItem bytes.now }
    ensures { IsMalformed bytes.now result }
{
    malformed(bytes).unwrap()
}

/// Returns the fault, unless memory ran out.
fn item_fault(fault: Fault) -> Result<Fault, OutOfMemory>
    ensures { IfOk result (λ f. (f ≡ fault) × (f ≡ NoRoom → ⊥)) }
{
    match fault {
        Fault::OutOfMemory => Err(OutOfMemory),
        fault => Ok(fault),
    }
}

/// Explains why the message in the data item at the beginning of the bytes isn't decoded.
fn explain_item<M: Message>(
    alloc: Global,
    bytes: &[u8],
    value: &Value,
) -> Result<Option<RefusedItem>, OutOfMemory>
    requires { (len : ℕ) × IsLeadingItem bytes.now (item_of value.now) len }
    ensures { IfOk result (ExplainsItem M.Record.fields (item_of value.now) bytes.now) }
{
    let fault = match record_from_value::<M>(alloc, value) {
        Ok(_) => return Ok(None),
        Err(fault) => item_fault(fault)?,
    };
    let blame = explain_at::<M>(alloc, &[], value)?;
    let extent = locate(bytes, &blame.path).unwrap();
    Ok(Some(RefusedItem {
        fault,
        blame,
        extent,
    }))
}

/// Explains why the message at the beginning of the bytes isn't decoded. Returns `None` exactly if
/// it is, as by `Message::from_slice`, and `OutOfMemory` if an allocation fails. It takes a few
/// passes over the bytes for each level at which records and lists are inside one another.
pub fn explain<M: Message>(alloc: Global, bytes: &[u8]) -> Result<Option<Explanation>, OutOfMemory>
    ensures { IfOk result (Explains M.Record.fields bytes.now) }
{
    let value = match Value::from_slice(alloc, bytes) {
        Ok((value, _)) => value,
        Err(CborError::OutOfMemory) => return Err(OutOfMemory),
        Err(_) => {
            let malformed = not_well_formed(bytes);
            return Ok(Some(Explanation::NotWellFormed(malformed)));
        }
    };
    match explain_item::<M>(alloc, bytes, &value)? {
        Some(item) => Ok(Some(Explanation::Refused(item))),
        None => Ok(None),
    }
}
