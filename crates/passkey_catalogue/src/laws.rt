//! Laws of the definitions, each the contract of a function that does nothing.
ghost use Rattle.passkey_catalogue.specs.Values.{ValuesAreEncodedAsTheInput};

/// What `encode_values` returns for the `values` of an input, is what `encode` returns for the input.
pub fn values_are_encoded_as_the_input()
    ensures { ValuesAreEncodedAsTheInput }
{
    passkey_cbor::laws::at_most_one_leading_item();
    passkey_cbor::laws::written_is_leading_item();
    passkey_core::laws::one_reading();
}
