//! Laws of the definitions, each the contract of a function that does nothing.
ghost use Rattle.passkey_cbor.specs.Laws.{AtMostOneLeadingItem, NoShorterLeadingItem, LeadingItemIsFound, FoundIsLeadingItem};
ghost use Rattle.passkey_cbor.specs.Laws.{GivenIsShallow, WrittenIsEncoding, WrittenIsLeadingItem, WholeHeadsAreCounted};

/// Bytes have at most one leading data item, with only one length: no encoding is a proper prefix
/// of another one (RFC 8949, section 3).
pub fn at_most_one_leading_item()
    ensures { AtMostOneLeadingItem }
{}

/// If the leading data item has k bytes, then no prefix of fewer than k bytes has a leading data
/// item.
pub fn no_shorter_leading_item()
    ensures { NoShorterLeadingItem }
{}

/// If bytes have a leading data item, `leading_item_at` returns it and the bytes after it.
pub fn leading_item_is_found()
    ensures { LeadingItemIsFound }
{}

/// What `leading_item_at` returns is the leading data item; if it returns `None`, there is none.
pub fn found_is_leading_item()
    ensures { FoundIsLeadingItem }
{}

/// A data item that `leading_item_at` returns has at most 256 levels.
pub fn given_is_shallow()
    ensures { GivenIsShallow }
{}

/// The bytes that are written for a data item are one of its encodings.
pub fn written_is_encoding()
    ensures { WrittenIsEncoding }
{}

/// Bytes that begin with the written encoding of a data item of at most 256 levels have it as their
/// leading data item.
pub fn written_is_leading_item()
    ensures { WrittenIsLeadingItem }
{}

/// If bytes are whole heads, each with the content of its string, then `heads_of` is how many (RFC
/// 8949, section 3).
pub fn whole_heads_are_counted()
    ensures { WholeHeadsAreCounted }
{}
