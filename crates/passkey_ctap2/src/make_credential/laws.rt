//! Laws about the messages of authenticatorMakeCredential. Each is the contract of a function that
//! does nothing.
ghost use Rattle.std.specs.Prelude.{true};
ghost use Rattle.passkey_kinds.specs.Lending.{AuthDataAreLent};
ghost use Rattle.passkey_kinds.specs.Numbered.{MessagesAreReadBack, is_shallow};
ghost use Rattle.passkey_kinds.specs.Words.{EachFits, IsData, WrittenIsCanonical, WrittenIsReadBack, is_coherent, normal_data, read_item};
ghost use Rattle.passkey_ctap2.specs.MakeRequest.{make_request, make_request_kept, make_request_tree, normal_make_request};
ghost use Rattle.passkey_ctap2.specs.MakeResponse.{attestation_tree, is_make_response_coherent, make_response};
ghost use Rattle.passkey_ctap2.specs.MakeResponse.{make_response_fields, make_response_kept, make_response_tree};
ghost use Rattle.passkey_ctap2.specs.MakeResponse.{normal_make_response, unattested};

/// The encoding of a coherent request, whatever bytes follow, decodes to the request with the
/// option `up` set to true.
pub fn written_make_request_is_read_back()
    ensures { MessagesAreReadBack true normal_make_request make_request }
{
    passkey_cbor::laws::written_is_leading_item();
}

/// The encoding of a coherent response, whatever bytes follow, decodes to the response with the
/// normal form of its authenticator data.
pub fn written_make_response_is_read_back()
    ensures { WrittenIsReadBack (read_item make_response_fields) make_response_tree
        (EachFits make_response.members) is_make_response_coherent normal_make_response }
{
    passkey_cbor::laws::written_is_leading_item();
    passkey_core::laws::written_data_are_read_back();
    passkey_core::laws::read_is_given();
}

/// The attestation object of coherent authenticator data, whatever bytes follow, decodes to a
/// response with the data's normal form, the format "none" and an empty statement.
pub fn written_attestation_is_read_back()
    ensures { WrittenIsReadBack (read_item make_response_fields) (λ r. attestation_tree r.auth_data)
        (λ r. IsData r.auth_data) (λ r. is_coherent r.auth_data)
        (λ r. unattested (normal_data r.auth_data)) }
{
    passkey_cbor::laws::written_is_leading_item();
    passkey_core::laws::written_data_are_read_back();
    passkey_core::laws::read_is_given();
}

/// The encoding of a coherent request is in CTAP2's canonical form if the encoding of the key in
/// its hmac-secret-mc input is, or if there is no such input (CTAP 2.1, section 8).
#[tactic(auto, using(crate::proofs::MakeMessages::request_law))]
pub fn written_make_request_is_canonical()
    ensures { WrittenIsCanonical make_request_tree (is_shallow make_request) make_request_kept }
{
    passkey_cbor::laws::at_most_one_leading_item();
    passkey_cbor::laws::written_is_leading_item();
}

/// The encoding of a coherent response is in CTAP2's canonical form if the encoding of its
/// attestation statement is (CTAP 2.1, section 8).
#[tactic(auto, using(crate::proofs::MakeMessages::response_canonical))]
pub fn written_make_response_is_canonical()
    ensures { WrittenIsCanonical make_response_tree is_make_response_coherent make_response_kept }
{
    passkey_cbor::laws::at_most_one_leading_item();
    passkey_cbor::laws::written_is_leading_item();
}

/// If an item is decoded as a response, its authenticator data are what the bytes decode to that
/// `auth_data_bytes` lends.
#[tactic(auto, using(crate::proofs::MakeMessages::make_auth_data_lent))]
pub fn make_response_auth_data_are_lent()
    ensures { AuthDataAreLent make_response_fields (λ r. r.auth_data) }
{}
