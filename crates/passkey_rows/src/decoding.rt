//! Messages of any kind, decoded from each thing that they may be decoded from, and encoded.
use crate::again_bytes::encoded;
use crate::tries::Tries;
use passkey_catalogue::{Form, Kind, visit};
use passkey_rewrite::{RunFault, Visitor};
use passkey_types::cbor::{CborError, Count, Cursor, Value};
use passkey_types::ctap2::framing::from_body;
use passkey_types::ctap2::registered::canonical_message;
use passkey_types::ctap2::{Fault, Message};
use std::alloc::Global;

/// What a message is decoded from.
#[derive(Clone, Copy)]
pub enum Source {
    /// Bytes.
    Bytes,
    /// The body of a request or a response, which may be empty.
    Body,
    /// The leading data item of the bytes.
    Item,
    /// Bytes, of which the whole item is encoded in canonical form.
    Whole,
    /// A cursor over the bytes. The message isn't encoded.
    Cursor,
}

/// A message that was decoded and encoded.
#[derive(Drop)]
pub struct Decoded {
    /// What the cursor counted.
    pub count: Count,
    /// The encoding, and the length of what was decoded, or the fault.
    pub outcome: Result<(Vec<u8>, usize), RunFault>,
}

/// A message is decoded and encoded.
#[derive(Drop)]
struct Decoding<'a, 'b> {
    alloc: Global,
    tries: &'a mut Tries,
    source: Source,
    bytes: &'b [u8],
}

/// Decodes the message from the data item, and tries again if memory ran out.
fn from_value<M: Message>(alloc: Global, tries: &mut Tries, item: &Value) -> Result<M, Fault> {
    match M::from_value(alloc, item) {
        Err(Fault::OutOfMemory) => {
            tries.refuse();
            M::from_value(alloc, item)
        }
        other => other,
    }
}

/// Decodes the message from the leading data item, and tries again if memory ran out.
pub fn from_item<M: Message>(
    alloc: Global,
    tries: &mut Tries,
    bytes: &[u8],
) -> Result<(M, usize), RunFault> {
    let (item, len) = match Value::from_slice(alloc, bytes) {
        Ok(front) => front,
        Err(CborError::OutOfMemory) => return Err(RunFault::OutOfMemory),
        Err(_) => return Err(RunFault::MessageRefused(Fault::DecodeFailed)),
    };
    let message = from_value(alloc, tries, &item);
    drop(item);
    Ok((message?, len))
}

impl<'a, 'b> Decoding<'a, 'b> {
    fn outcome<M: Message>(
        &mut self,
        cursor: &mut Cursor<'_>,
    ) -> Result<(Vec<u8>, usize), RunFault> {
        let (message, len) = match self.source {
            Source::Bytes => M::from_slice(self.alloc, self.bytes)?,
            Source::Body => from_body::<M>(self.alloc, self.bytes)?,
            Source::Item => from_item::<M>(self.alloc, self.tries, self.bytes)?,
            Source::Whole => return Ok(canonical_message::<M>(self.alloc, self.bytes)?),
            Source::Cursor => {
                let _message = M::read(self.alloc, cursor)?;
                return Ok((Vec::new(self.alloc), cursor.place()));
            }
        };
        Ok((encoded(self.alloc, self.tries, &message)?, len))
    }
}

impl<'a, 'b> Visitor for Decoding<'a, 'b> {
    type Output = Option<Decoded>;

    type Other = Form;

    ghost Gives = { λ v d result. Unit {0} };

    fn visit_item(self) -> Option<Decoded> {
        None
    }

    fn visit_data(self) -> Option<Decoded> {
        None
    }

    fn visit_message<M: Message>(self) -> Option<Decoded> {
        let mut decoding = self;
        let mut cursor = Cursor::new(decoding.bytes);
        let outcome = decoding.outcome::<M>(&mut cursor);
        let count = cursor.count();
        Some(Decoded { count, outcome })
    }

    fn visit_other(self, _what: Form) -> Option<Decoded> {
        None
    }
}

/// Decodes a message of this kind, and encodes it. Returns `None` if the kind is none of a message.
pub fn decode_as(
    alloc: Global,
    tries: &mut Tries,
    kind: Kind,
    source: Source,
    bytes: &[u8],
) -> Option<Decoded> {
    let decoding = Decoding {
        alloc,
        tries,
        source,
        bytes,
    };
    visit(kind, decoding)
}
