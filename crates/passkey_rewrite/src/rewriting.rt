//! Bytes that are decoded as one type and encoded again.
ghost use Rattle.std.specs.Prelude.{IfOk, IfErr};
ghost use Rattle.passkey_kinds.specs.Record.{read_item};
ghost use Rattle.passkey_rewrite.specs.Rewriting.{IsCborRefusal, IsDataRefusal, IsFrontLength, IsMessageRefusal, RewritesData};
ghost use Rattle.passkey_rewrite.specs.Rewriting.{RewritesLeadingItem, RewritesMessage};

use crate::fault::RunFault;
use passkey_cbor::Value;
use passkey_core::AuthenticatorData;
use passkey_kinds::{Message, WriteFault};
use std::alloc::Global;

/// Decodes the message at the beginning of the bytes and encodes it. Returns the encoding, and how
/// many of the bytes the message takes. Returns `MessageRefused` if the message type rejects the
/// bytes, and `OutOfMemory` if an allocation fails.
pub fn rewrite_front_message<M: Message>(
    alloc: Global,
    bytes: &[u8],
) -> Result<(Vec<u8>, usize), RunFault>
    ensures ok { IfOk result (λ made. RewritesMessage (read_item M.fields) M.tree bytes.now made.0.items
        × IsFrontLength bytes.now made.1) }
    ensures err { IfErr result (IsMessageRefusal (read_item M.fields) bytes.now) }
{
    let (message, len) = M::from_slice(alloc, bytes)?;
    M::decoded_is_coherent();
    match message.to_vec(alloc) {
        Ok(encoding) => Ok((encoding, len)),
        Err(WriteFault::OutOfMemory) => Err(RunFault::OutOfMemory),
        Err(WriteFault::NumberTooLarge) => unreachable!(),
    }
}

/// Decodes the message at the beginning of the bytes and encodes it. The errors are those of
/// `rewrite_front_message`.
pub fn rewrite_message<M: Message>(alloc: Global, bytes: &[u8]) -> Result<Vec<u8>, RunFault>
    ensures ok { IfOk result (λ encoding. RewritesMessage (read_item M.fields) M.tree bytes.now encoding.items) }
    ensures err { IfErr result (IsMessageRefusal (read_item M.fields) bytes.now) }
{
    let (encoding, _) = rewrite_front_message::<M>(alloc, bytes)?;
    Ok(encoding)
}

/// Decodes the leading data item of the bytes and encodes it. Returns the encoding, and how many of
/// the bytes the item takes. Returns `Refused` if there is none, and `OutOfMemory` if an allocation
/// fails.
pub fn rewrite_front_item(alloc: Global, bytes: &[u8]) -> Result<(Vec<u8>, usize), RunFault>
    ensures ok { IfOk result (λ made. RewritesLeadingItem bytes.now made.0.items × IsFrontLength bytes.now made.1) }
    ensures err { IfErr result (IsCborRefusal bytes.now) }
{
    let (front, len) = Value::from_slice(alloc, bytes)?;
    Ok((front.to_vec(alloc)?, len))
}

/// Decodes the leading data item of the bytes and encodes it. The errors are those of
/// `rewrite_front_item`.
pub fn rewrite_item(alloc: Global, bytes: &[u8]) -> Result<Vec<u8>, RunFault>
    ensures ok { IfOk result (λ encoding. RewritesLeadingItem bytes.now encoding.items) }
    ensures err { IfErr result (IsCborRefusal bytes.now) }
{
    let (encoding, _) = rewrite_front_item(alloc, bytes)?;
    Ok(encoding)
}

/// Decodes the bytes as authenticator data and encodes them. Returns `Refused` if they aren't
/// authenticator data, and `OutOfMemory` if an allocation fails.
pub fn rewrite_data(alloc: Global, bytes: &[u8]) -> Result<Vec<u8>, RunFault>
    ensures ok { IfOk result (λ encoding. RewritesData bytes.now encoding.items) }
    ensures err { IfErr result (IsDataRefusal bytes.now) }
{
    let data = AuthenticatorData::from_slice(alloc, bytes)?;
    Ok(data.to_vec(alloc)?)
}
