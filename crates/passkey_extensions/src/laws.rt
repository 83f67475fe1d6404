//! Laws about the extensions' records. Each is the contract of a function that does nothing.
ghost use Rattle.passkey_kinds.specs.Words.{WrittenIsReadBack, WrittenIsCanonical};
ghost use Rattle.passkey_extensions.specs.HmacInput.{read_hmac_input, hmac_input_tree, HmacInputFits, is_hmac_input_coherent, hmac_input_kept};

/// The encoding of a coherent hmac-secret input, whatever bytes follow, decodes to the input.
pub fn written_hmac_input_is_read_back()
    ensures { WrittenIsReadBack read_hmac_input hmac_input_tree HmacInputFits is_hmac_input_coherent (λ h. h) }
{
    passkey_cbor::laws::written_is_leading_item();
}

/// The encoding of a coherent hmac-secret input is in CTAP2's canonical form if the encoding of its
/// key is (CTAP 2.1, section 8).
#[tactic(auto, using(crate::proofs::Extensions::hmac_input_canonical))]
pub fn written_hmac_input_is_canonical()
    ensures { WrittenIsCanonical hmac_input_tree is_hmac_input_coherent hmac_input_kept }
{
    passkey_cbor::laws::at_most_one_leading_item();
    passkey_cbor::laws::written_is_leading_item();
}
