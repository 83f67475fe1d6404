//! Laws about keys, each the contract of a function that does nothing.
ghost use Rattle.passkey_cose.specs.KeyLaws.{MadeFromItsParts, ReadIsReadable, ReadIsWrittenAlike, WrittenIsReadBack};

/// A decoded key is encoded as a data item that decodes to the same key.
#[tactic(auto, using(crate::proofs::KeyRound::read_is_written_alike))]
pub fn read_key_is_written_alike()
    ensures { ReadIsWrittenAlike }
{}

/// A key whose type isn't the reserved one is encoded as a data item that decodes to that key, with
/// assigned numbers as the registry's values (RFC 9052, section 7).
pub fn written_key_is_read_back()
    ensures { WrittenIsReadBack }
{}

/// A key that was decoded from a data item of at most 256 levels is encoded as bytes that decode to
/// it.
#[tactic(auto, using(crate::proofs::KeyReadable::read_is_readable))]
pub fn read_key_is_readable()
    ensures { ReadIsReadable }
{}

/// `ec2` returns what `new_ec2_pub_key` made the key from.
pub fn ec2_key_is_made_from_its_parts()
    ensures { MadeFromItsParts }
{}
