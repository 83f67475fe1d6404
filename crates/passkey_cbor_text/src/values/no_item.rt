//! Why a JSON value is no data item, and where in it.
ghost use Rattle.std.specs.Prelude.{◌≡◌};
ghost use Rattle.passkey_cbor_text.specs.values.NoItem.{FailsHere, IsUnder};
ghost use Rattle.passkey_cbor_text.specs.declared.values.no_item.ItemFault.TheVariants.{OutOfMemory as NoMemory};

use passkey_memory::MemoryError;
use std::alloc::Global;

/// Why a JSON value is no data item.
#[derive(Clone, Copy, Debug, PartialEq, Eq)]
pub enum ItemReason {
    /// An integer from -2^64 to 2^64 - 1 is wanted, in digits alone.
    Integer,
    /// Bytes in base64url are wanted; of an AAGUID, or a UUID.
    Bytes,
    /// One data item in hexadecimal is wanted.
    Encoding,
    /// An array of arrays of two is wanted: the members of a map.
    Pairs,
    /// A string is wanted.
    String,
    /// Another key is wanted, since an earlier member has this one.
    Repeated,
    /// The members of authenticator data are wanted: `rpIdHash`, `flags` and `signCount`;
    /// `attestedCredentialData` if AT is set, `extensions` if ED is; and no others.
    DataParts,
    /// The members of attested credential data are wanted: `aaguid`, `credentialId` and
    /// `credentialPublicKey`, and no others.
    AttestedParts,
    /// 32 bytes in base64url are wanted.
    Hash,
    /// 16 bytes are wanted, as a UUID or in base64url.
    Aaguid,
    /// At most 65535 bytes in base64url are wanted.
    CredentialId,
    /// An array of names of flags is wanted, or an integer from 0 to 255.
    Flags,
    /// The name of a flag of authenticator data is wanted.
    Flag,
    /// An integer from 0 to 2^32 - 1 is wanted.
    Counter,
}

/// What in a JSON value is no data item.
#[derive(Debug, Drop)]
pub struct NoItem {
    /// The index of each element or member that leads to it, the innermost first.
    pub path: Vec<usize>,
    /// Why it is none.
    pub reason: ItemReason,
}

/// Why there is no data item of a JSON value.
#[derive(Debug, Drop)]
pub enum ItemFault {
    /// The value is none.
    NoItem(NoItem),
    /// An allocation failed.
    OutOfMemory,
}

impl<E: MemoryError> From<E> for ItemFault {
    ghost from_gives = { λ _ e. e ≡ NoMemory };

    fn from(_error: E) -> ItemFault {
        ItemFault::OutOfMemory
    }
}

impl ItemFault {
    /// Returns that a value is no data item, for this reason.
    pub fn here(alloc: Global, reason: ItemReason) -> ItemFault
        ensures { FailsHere reason result }
    {
        ItemFault::NoItem(NoItem {
            path: Vec::new(alloc),
            reason,
        })
    }

    /// The same fault, of what has it in the element or the member at this index. Returns `OutOfMemory` if an
    /// allocation fails.
    pub fn under(self, index: usize) -> ItemFault
        ensures { IsUnder index self result }
    {
        match self {
            ItemFault::NoItem(mut found) => match found.path.push(index) {
                Ok(()) => ItemFault::NoItem(found),
                Err(_) => ItemFault::OutOfMemory,
            },
            ItemFault::OutOfMemory => ItemFault::OutOfMemory,
        }
    }
}
