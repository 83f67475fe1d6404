//! Laws about authenticatorGetInfo responses. Each is the contract of a function that does nothing.
ghost use Rattle.passkey_kinds.specs.Words.{WrittenIsCanonical, WrittenIsReadBack, read_item};
ghost use Rattle.passkey_ctap2.specs.GetInfo.{GetInfoFits, get_info_fields, get_info_kept, get_info_tree, is_get_info_coherent, normal_get_info};

/// The encoding of a coherent response, whatever bytes follow, decodes to the response, in which an
/// unknown version or extension with a known name becomes the known one, and certifications that
/// are null become `None`.
pub fn written_get_info_is_read_back()
    ensures { WrittenIsReadBack (read_item get_info_fields) get_info_tree GetInfoFits
        is_get_info_coherent normal_get_info }
{
    passkey_cbor::laws::written_is_leading_item();
}

/// The encoding of a coherent response is in CTAP2's canonical form if the encoding of its
/// certifications is, or if they are absent (CTAP 2.1, section 8).
#[tactic(auto, using(crate::proofs::GetInfos::get_info_canonical))]
pub fn written_get_info_is_canonical()
    ensures { WrittenIsCanonical get_info_tree is_get_info_coherent get_info_kept }
{
    passkey_cbor::laws::at_most_one_leading_item();
    passkey_cbor::laws::written_is_leading_item();
}
