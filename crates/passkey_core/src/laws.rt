//! Laws about authenticator data, each the contract of a function that does nothing.
ghost use Rattle.passkey_core.specs.DataLaws.{ExactReadingIsReading, OneReading, GivenIsRead, ReadIsGiven, GivenIsCoherent};
ghost use Rattle.passkey_core.specs.DataLaws.{ReadIsCoherent, WrittenDataAreReadBack, WrittenDataAreReadExactly};

/// Bytes decode to only one result: certain data, or a certain error (WebAuthn Level 3, section
/// 6.1).
pub fn one_reading()
    ensures { OneReading }
{
    passkey_cbor::laws::at_most_one_leading_item();
}

/// What `read_data` returns for bytes, data or an error, is what they decode to.
pub fn given_is_read()
    ensures { GivenIsRead }
{
    passkey_cbor::laws::found_is_leading_item();
}

/// If bytes decode to data, `read_data` returns it.
pub fn read_is_given()
    ensures { ReadIsGiven }
{
    passkey_cbor::laws::leading_item_is_found();
}

/// Data that `read_data` returns for any list of numbers is coherent.
pub fn given_data_are_coherent()
    ensures { GivenIsCoherent }
{
    passkey_cbor::laws::given_is_shallow();
    passkey_cose::laws::read_key_is_readable();
}

/// Decoded data is coherent.
pub fn read_data_is_coherent()
    ensures { ReadIsCoherent }
{
    read_is_given();
    given_data_are_coherent();
}

/// The encoding of coherent data decodes to this data, whatever bytes follow, with 0 for an absent
/// counter, and with assigned numbers in the key as the registry's values.
pub fn written_data_are_read_back()
    ensures { WrittenDataAreReadBack }
{
    passkey_cbor::laws::written_is_leading_item();
    passkey_cose::laws::written_key_is_read_back();
}

/// If bytes decode to data without bytes after it, they decode to the same data where trailing bytes
/// are ignored.
pub fn exact_reading_is_reading()
    ensures { ExactReadingIsReading }
{}

/// The encoding of coherent data decodes to this data exactly, without bytes after it, in the same
/// normal form.
pub fn written_data_are_read_exactly()
    ensures { WrittenDataAreReadExactly }
{
    passkey_cbor::laws::written_is_leading_item();
    passkey_cose::laws::written_key_is_read_back();
}
