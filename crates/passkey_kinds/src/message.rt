//! Messages, decoded from bytes and encoded.
ghost use Rattle.std.specs.Prelude.{◌≡◌, ◌≤◌, ℕ, suc, true, IfOk, IfErr, OnOk};
ghost use Rattle.passkey_kinds.specs.Words.{item_of, IsWritable, written, ReadsMessage, ReadsHere, GrowsMessage, ReadIsCoherent};
ghost use Rattle.passkey_kinds.specs.Words.{MayGrowAt, Reads, read_item, table_of, record_cost};
ghost use Rattle.passkey_kinds.specs.declared.fault.Fault.TheVariants.{OutOfMemory as NoRoom};
ghost use Rattle.passkey_kinds.specs.declared.fault.WriteFault.TheVariants.{OutOfMemory as NoMemory};

use crate::record::read_record;
use crate::{Fault, Record, ToCbor, WriteFault, record_from_value};
use passkey_cbor::{Cursor, Encoder, Value};
use std::alloc::Global;

/// A CTAP2 message: a map that is decoded from bytes and encoded (CTAP 2.1, sections 6 and 8).
pub trait Message: Record {
    /// The most heads that `read` decodes for each byte of a message, at most 16.
    ghost cost: { ℕ };

    /// Decodes the message at the beginning of the bytes, and returns it with its length in bytes.
    /// Ignores the bytes after it. The errors are those of `read`.
    fn from_slice(alloc: Global, bytes: &[u8]) -> Result<(Self, usize), Fault>
        ensures reads { ReadsMessage Self.parts (read_item Self.fields) bytes.now result }
        ensures grows { result ≡ Err NoRoom → GrowsMessage Self.fields bytes.now }
    {
        message_from_slice(alloc, bytes)
    }

    /// Decodes the message at the cursor and moves past it. Returns `DecodeFailed` exactly if no
    /// well-formed data item of at most 256 nesting levels is there; otherwise the errors are those
    /// of `from_value`. On an error the cursor stays, and its counts include what was spent.
    fn read(alloc: Global, cursor: &mut Cursor<'_>) -> Result<Self, Fault>
        ensures reads { ReadsHere Self.parts Self.fields cost cursor.old cursor.new result }
        ensures few { cost ≤ 16 };

    /// Decodes the message from a data item. Returns `NotAMap` if the item isn't a map; otherwise
    /// the fault of its first bad member (`BadKey`, `Repeated`, `Refused`), or else `Missing` for
    /// the first required member that is absent. Returns `OutOfMemory` if an allocation fails,
    /// which can only happen for a member that takes memory.
    fn from_value(alloc: Global, value: &Value) -> Result<Self, Fault>
        ensures { Reads Self.parts (MayGrowAt (table_of Self.fields) (item_of value.now))
            (read_item Self.fields (item_of value.now)) result }
    {
        record_from_value(alloc, value)
    }

    /// Encodes the message. Returns `OutOfMemory` if an allocation fails, which is the only error
    /// for a coherent message.
    fn to_vec(&self, alloc: Global) -> Result<Vec<u8>, WriteFault>
        ensures written { IfOk result (λ bytes. bytes.items ≡ written (Self.tree (Self.parts self.now))) }
        ensures memory { Self.coherent (Self.parts self.now) ≡ true → IfErr result (λ e. e ≡ NoMemory) };

    /// Returns whether the message's encoding can be decoded again. Allocates nothing.
    fn is_coherent(&self) -> bool
        ensures { result ≡ Self.coherent (Self.parts self.now) };

    /// A decoded message is coherent. Does nothing.
    fn decoded_is_coherent()
        ensures { ReadIsCoherent (read_item Self.fields) Self.coherent };
}

/// Decodes the message, a map, at the cursor, head by head and without building a data item, and
/// moves past it (CTAP 2.1, sections 6 and 8). Returns `DecodeFailed` exactly if no well-formed
/// data item of at most 256 nesting levels is there; otherwise the fault that `record_from_value`
/// returns for the item; and `OutOfMemory` if an allocation fails, which can only happen for a
/// member that takes memory. On an error the cursor stays, and its counts include what was spent.
pub fn read_message<R: Record>(alloc: Global, cursor: &mut Cursor<'_>) -> Result<R, Fault>
    ensures { ReadsHere R.parts R.fields (suc (record_cost R.fields)) cursor.old cursor.new result }
{
    let start = cursor.place();
    if !cursor.skip() {
        return Err(Fault::DecodeFailed);
    }
    cursor.go_back(start);
    match read_record::<R>(alloc, cursor) {
        Ok(message) => Ok(message),
        Err(fault) => {
            cursor.go_back(start);
            Err(fault)
        }
    }
}

/// Decodes the message, a map, at the beginning of the bytes, and returns it with its length in
/// bytes. Ignores the bytes after it. The errors are those of `read_message`.
pub fn message_from_slice<R: Record>(alloc: Global, bytes: &[u8]) -> Result<(R, usize), Fault>
    ensures reads { ReadsMessage R.parts (read_item R.fields) bytes.now result }
    ensures grows { result ≡ Err NoRoom → GrowsMessage R.fields bytes.now }
{
    let mut cursor = Cursor::new(bytes);
    let message = read_message::<R>(alloc, &mut cursor)?;
    Ok((message, cursor.place()))
}

/// Encodes the message in preferred serialization (RFC 8949, section 4.1), with its members in the
/// table's order. Returns `OutOfMemory` if an allocation fails; there is no other error.
pub fn write_message<T: ToCbor>(alloc: Global, message: &T) -> Result<Vec<u8>, WriteFault>
    ensures written { IfOk result (λ bytes. bytes.items ≡ written (T.tree message.now)) }
    ensures writable { OnOk result (IsWritable (T.tree message.now)) }
    ensures fits { OnOk result (T.fits message.now) }
    ensures memory { IfErr result (λ e. e ≡ NoMemory) }
{
    let mut encoder = Encoder::new(alloc);
    message.append(alloc, &mut encoder)?;
    Ok(encoder.into_vec())
}
