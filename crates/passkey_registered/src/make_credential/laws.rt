//! Laws about authenticatorMakeCredential responses and attestation objects. Each is the contract of a function that does
//! nothing.
ghost use Rattle.std.specs.Prelude.{true};
ghost use Rattle.passkey_kinds.specs.Numbered.{MessagesAreReadBack, is_shallow};
ghost use Rattle.passkey_kinds.specs.Words.{WrittenIsCanonical, plain_tree};
ghost use Rattle.passkey_registered.specs.make_credential.AttestationObject.{attestation_object, attestation_object_kept};
ghost use Rattle.passkey_registered.specs.make_credential.McResponse.{mc_response, mc_response_kept};

/// The encoding of a coherent response, whatever bytes follow, decodes to the response.
pub fn written_response_is_read_back()
    ensures { MessagesAreReadBack true (λ r. r) mc_response }
{
    passkey_cbor::laws::written_is_leading_item();
}

/// The encoding of a coherent response is in CTAP2's canonical form if the encodings of its attestation
/// statement and of its unsigned extension outputs are (CTAP 2.2, section 8).
#[tactic(auto, using(crate::proofs::Responses::mc_response_law))]
pub fn written_response_is_canonical()
    ensures { WrittenIsCanonical (plain_tree mc_response) (is_shallow mc_response) mc_response_kept }
{
    passkey_cbor::laws::at_most_one_leading_item();
    passkey_cbor::laws::written_is_leading_item();
}

/// The encoding of a coherent attestation object, whatever bytes follow, decodes to the object.
pub fn written_attestation_object_is_read_back()
    ensures { MessagesAreReadBack true (λ o. o) attestation_object }
{
    passkey_cbor::laws::written_is_leading_item();
}

/// The encoding of a coherent attestation object is in CTAP2's canonical form if that of its attestation
/// statement is.
#[tactic(auto, using(crate::proofs::Responses::attestation_object_law))]
pub fn written_attestation_object_is_canonical()
    ensures { WrittenIsCanonical (plain_tree attestation_object) (is_shallow attestation_object) attestation_object_kept }
{
    passkey_cbor::laws::at_most_one_leading_item();
    passkey_cbor::laws::written_is_leading_item();
}
