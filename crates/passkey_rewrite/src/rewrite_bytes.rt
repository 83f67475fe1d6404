//! Bytes in hexadecimal, decoded as a kind and encoded again.
ghost use Rattle.std.specs.Prelude.{◌≡◌, IfOk, IfErr, string_bytes};
ghost use Rattle.passkey_rewrite.specs.Rewrite.{HasNoHex, RewritesHex};
ghost use Rattle.passkey_rewrite.specs.Rewriting.{IsRefusalAs, RewritesAs};
ghost use Rattle.passkey_rewrite.specs.declared.fault.RunFault.TheVariants.{UnknownKind};

use crate::visiting::visit_bytes;
use crate::{
    BytesKind, RunFault, Visitor, decode_hex, rewrite_data, rewrite_item, rewrite_message,
};
use passkey_kinds::Message;
use std::alloc::Global;

/// The bytes are decoded and encoded again.
#[derive(Drop)]
struct Rewriting<'a> {
    alloc: Global,
    bytes: &'a [u8],
}

impl<'a> Visitor for Rewriting<'a> {
    type Output = Result<Vec<u8>, RunFault>;

    type Other = ();

    ghost Gives = { λ v d result. IfOk result (λ encoding. RewritesAs (λ o s t. ⊥) d v.bytes.now encoding.items)
        × IfErr result (IsRefusalAs (λ o s fault. fault ≡ UnknownKind) d v.bytes.now) };

    fn visit_item(self) -> Result<Vec<u8>, RunFault> {
        rewrite_item(self.alloc, self.bytes)
    }

    fn visit_data(self) -> Result<Vec<u8>, RunFault> {
        rewrite_data(self.alloc, self.bytes)
    }

    fn visit_message<M: Message>(self) -> Result<Vec<u8>, RunFault> {
        rewrite_message::<M>(self.alloc, self.bytes)
    }

    // No kind here is anything else.
    fn visit_other(self, _what: ()) -> Result<Vec<u8>, RunFault> {
        Err(RunFault::UnknownKind)
    }
}

/// Decodes the bytes as the kind and encodes the result, in lower-case hexadecimal. The input is
/// hexadecimal in either case, with tabs, line feeds, carriage returns and spaces allowed at its
/// ends. Trailing bytes are ignored. Returns `BadHex` if the input isn't hexadecimal. If the kind
/// rejects the bytes, returns `MessageRefused` for a message and else `Refused`. Returns
/// `OutOfMemory` if an allocation fails.
#[tactic(auto, using(crate::proofs::Refusing::hex_refused))]
pub fn rewrite_hex(alloc: Global, kind: BytesKind, input: &[u8]) -> Result<String, RunFault>
    ensures ok { IfOk result (λ text. RewritesHex kind input.now (string_bytes text)) }
    ensures err { IfErr result (HasNoHex kind input.now) }
{
    let bytes = decode_hex(alloc, input)?;
    let bytes = bytes.as_slice();
    let encoding = visit_bytes(kind, Rewriting { alloc, bytes })?;
    Ok(hex::encode(alloc, encoding.as_slice())?)
}
