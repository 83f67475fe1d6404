//! Signed extension outputs, which authenticator data contain.
use crate::ctap2::tables::{assert_read, assert_refused, assert_rewritten};
use passkey_core::{get_assertion, make_credential};

// CTAP 2.1, section 12.5, and CTAP 2.2 for hmac-secret-mc.
#[test]
fn signed_outputs_where_a_credential_is_made(rt: HostRuntime) {
    // {"hmac-secret-mc": h'07', "hmac-secret": true}
    let both = "a26e686d61632d7365637265742d6d6341076b686d61632d736563726574f5";
    let value =
        "Ok(SignedExtensionOutputs { hmac_secret: Some(true), hmac_secret_mc: Some(Bytes([7])) })";
    assert_read::<make_credential::SignedExtensionOutputs>(&rt, &[(both, value)]);
    let wanted = "a26b686d61632d736563726574f56e686d61632d7365637265742d6d634107";
    assert_rewritten::<make_credential::SignedExtensionOutputs>(&rt, &[(both, wanted)]);
    let bytes = "a16b686d61632d7365637265744107";
    assert_refused::<make_credential::SignedExtensionOutputs>(&rt, &[bytes]);
}

#[test]
fn signed_outputs_where_a_credential_is_used(rt: HostRuntime) {
    let bytes = "a16b686d61632d7365637265744107";
    let value = "Ok(SignedExtensionOutputs { hmac_secret: Some(Bytes([7])) })";
    assert_read::<get_assertion::SignedExtensionOutputs>(&rt, &[(bytes, value)]);
    assert_rewritten::<get_assertion::SignedExtensionOutputs>(&rt, &[(bytes, bytes)]);
    let truth = "a16b686d61632d736563726574f5";
    assert_refused::<get_assertion::SignedExtensionOutputs>(&rt, &[truth]);
}
