//! Messages that one table defines.
ghost use Rattle.std.specs.Prelude.{◌≡◌, ◌≤◌, ℕ, suc, Option, option_map, IfOk, IfErr, OnOk};
ghost use Rattle.passkey_kinds.specs.Words.{EachFits, IsWritable, Item, record_cost, plain_tree, written};
ghost use Rattle.passkey_kinds.specs.Numbered.{AreMessages, table_fields};
ghost use Rattle.passkey_kinds.specs.declared.fault.WriteFault.TheVariants.{OutOfMemory as NoMemory};

use crate::{Fault, Kept, Message, TableRecord, WriteFault, read_message, write_message};
use passkey_cbor::Cursor;
use std::alloc::Global;

/// A message that one table defines, with numbers for its members, and which keeps at most one data
/// item undecoded. `Message` follows from it.
pub trait TableMessage: TableRecord {
    /// The most heads that are decoded for each byte of a message.
    ghost cost: { ℕ };

    /// Lends the data item that the message keeps undecoded, if it has one.
    fn kept(&self) -> Option<&Kept>
        ensures { option_map (λ k. k.now) result ≡ Self.kept self.now };

    /// What holds of the message's table. Does nothing.
    fn is_message()
        ensures cost { suc (record_cost (table_fields Self.numbered Self.table)) ≡ cost }
        ensures few { cost ≤ 16 }
        ensures laws { AreMessages Self.numbered Self.table Self.kept };
}

impl<M: TableMessage> Message for M {
    ghost cost = { M.TableMessage.cost };

    fn read(alloc: Global, cursor: &mut Cursor<'_>) -> Result<M, Fault> {
        M::is_message();
        read_message(alloc, cursor)
    }

    fn to_vec(&self, alloc: Global) -> Result<Vec<u8>, WriteFault>
        ensures written { IfOk result (λ bytes. bytes.items ≡ written (plain_tree M.TableRecord.table self.now)) }
        ensures writable { OnOk result (IsWritable (plain_tree M.TableRecord.table self.now)) }
        ensures fits { OnOk result (EachFits M.TableRecord.table.members self.now) }
        ensures memory { IfErr result (λ e. e ≡ NoMemory) }
    {
        write_message(alloc, self)
    }

    fn is_coherent(&self) -> bool {
        M::is_message();
        match self.kept() {
            Some(item) => item.has_room(),
            None => true,
        }
    }

    fn decoded_is_coherent() {
        M::is_message();
    }
}
