//! Laws about authenticatorGetAssertion responses. Each is the contract of a function that does nothing.
ghost use Rattle.std.specs.Prelude.{true};
ghost use Rattle.passkey_kinds.specs.Numbered.{MessagesAreReadBack, is_shallow};
ghost use Rattle.passkey_kinds.specs.Words.{WrittenIsCanonical, plain_tree};
ghost use Rattle.passkey_registered.specs.get_assertion.GaResponse.{ga_response, ga_response_kept};

/// The encoding of a coherent response, whatever bytes follow, decodes to the response.
pub fn written_response_is_read_back()
    ensures { MessagesAreReadBack true (λ r. r) ga_response }
{
    passkey_cbor::laws::written_is_leading_item();
}

/// The encoding of a coherent response is in CTAP2's canonical form if the encodings of its unsigned
/// extension outputs and of its attestation statement are (CTAP 2.2, section 8).
#[tactic(auto, using(crate::proofs::Responses::ga_response_law))]
pub fn written_response_is_canonical()
    ensures { WrittenIsCanonical (plain_tree ga_response) (is_shallow ga_response) ga_response_kept }
{
    passkey_cbor::laws::at_most_one_leading_item();
    passkey_cbor::laws::written_is_leading_item();
}
