//! Laws about the messages of authenticatorGetAssertion. Each is the contract of a function that
//! does nothing.
ghost use Rattle.std.specs.Prelude.{[], true};
ghost use Rattle.passkey_kinds.specs.Lending.{AuthDataAreLent};
ghost use Rattle.passkey_kinds.specs.Numbered.{MessagesAreReadBack, is_shallow};
ghost use Rattle.passkey_kinds.specs.Words.{EachFits, WrittenIsCanonical, WrittenIsReadBack, read_item};
ghost use Rattle.passkey_ctap2.specs.GetRequest.{get_request, get_request_kept, get_request_tree};
ghost use Rattle.passkey_ctap2.specs.GetResponse.{get_response, get_response_fields, get_response_tree, is_get_response_coherent, normal_get_response};

/// The encoding of a coherent request, whatever bytes follow, decodes to the request.
pub fn written_get_request_is_read_back()
    ensures { MessagesAreReadBack true (λ r. r) get_request }
{
    passkey_cbor::laws::written_is_leading_item();
}

/// The encoding of a coherent response, whatever bytes follow, decodes to the response with the
/// normal form of its authenticator data.
pub fn written_get_response_is_read_back()
    ensures { WrittenIsReadBack (read_item get_response_fields) get_response_tree
        (EachFits get_response.members) is_get_response_coherent normal_get_response }
{
    passkey_cbor::laws::written_is_leading_item();
    passkey_core::laws::written_data_are_read_back();
    passkey_core::laws::read_is_given();
}

/// The encoding of a coherent request is in CTAP2's canonical form if the encoding of the key in
/// its hmac-secret input is, or if there is no such input (CTAP 2.1, section 8).
#[tactic(auto, using(crate::proofs::GetMessages::request_law))]
pub fn written_get_request_is_canonical()
    ensures { WrittenIsCanonical get_request_tree (is_shallow get_request) get_request_kept }
{
    passkey_cbor::laws::at_most_one_leading_item();
    passkey_cbor::laws::written_is_leading_item();
}

/// The encoding of a coherent response is in CTAP2's canonical form (CTAP 2.1, section 8).
#[tactic(auto, using(crate::proofs::GetMessages::response_canonical))]
pub fn written_get_response_is_canonical()
    ensures { WrittenIsCanonical get_response_tree is_get_response_coherent (λ r. []) }
{
    passkey_cbor::laws::at_most_one_leading_item();
    passkey_cbor::laws::written_is_leading_item();
}

/// If an item is decoded as a response, its authenticator data are what the bytes decode to that
/// `auth_data_bytes` lends.
#[tactic(auto, using(crate::proofs::GetMessages::get_auth_data_lent))]
pub fn get_response_auth_data_are_lent()
    ensures { AuthDataAreLent get_response_fields (λ r. r.auth_data) }
{}
