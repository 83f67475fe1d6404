//! How inputs and outputs of the extensions hmac-secret and prf are printed (CTAP 2.1, section 12.5;
//! WebAuthn Level 3, section 10.1.4). The rows of the program contain what they are encoded as.
use crate::ctap2::tables::assert_read;
use passkey_extensions::{
    AuthenticatorPrfInputs, AuthenticatorPrfMakeOutputs, AuthenticatorPrfValues,
    HmacGetSecretInput, get_assertion, make_credential,
};

/// {"first": 32 bytes 1, "second": 32 bytes 2}
const VALUES: &str = concat!(
    "a265666972737458200101010101010101010101010101010101010101010101010101010101010101667365636f6e64",
    "58200202020202020202020202020202020202020202020202020202020202020202",
);

/// The debug text of these values.
const VALUES_SHOWN: &str = concat!(
    "Ok(AuthenticatorPrfValues { ",
    "first: [1, 1, 1, 1, 1, 1, 1, 1, 1, 1, 1, 1, 1, 1, 1, 1, 1, 1, 1, 1, 1, 1, 1, 1, 1, 1, 1, 1, 1, 1, 1, 1], ",
    "second: Some([2, 2, 2, 2, 2, 2, 2, 2, 2, 2, 2, 2, 2, 2, 2, 2, 2, 2, 2, 2, 2, 2, 2, 2, 2, 2, 2, 2, 2, 2, 2, 2]) })",
);

#[test]
fn values_and_outputs_of_prf(rt: HostRuntime) {
    assert_read::<AuthenticatorPrfValues>(&rt, &[(VALUES, VALUES_SHOWN)]);
    // {"enabled": true, "results": null}
    let outputs = "a267656e61626c6564f567726573756c7473f6";
    let shown = "Ok(AuthenticatorPrfMakeOutputs { enabled: true, results: None })";
    assert_read::<AuthenticatorPrfMakeOutputs>(&rt, &[(outputs, shown)]);
    // {"prf": {"enabled": false}}
    let made = "a163707266a167656e61626c6564f4";
    let shown = concat!(
        "Ok(UnsignedExtensionOutputs { ",
        "prf: Some(AuthenticatorPrfMakeOutputs { enabled: false, results: None }) })",
    );
    assert_read::<make_credential::UnsignedExtensionOutputs>(&rt, &[(made, shown)]);
    let none = "Ok(UnsignedExtensionOutputs { prf: None })";
    assert_read::<get_assertion::UnsignedExtensionOutputs>(&rt, &[("a0", none)]);
}

#[test]
fn inputs(rt: HostRuntime) {
    let none = "Ok(AuthenticatorPrfInputs { eval: None, eval_by_credential: None })";
    assert_read::<AuthenticatorPrfInputs>(&rt, &[("a0", none)]);
    // {1: {1: 2}, 2: h'08', 3: h'09', 4: 2}
    let by_numbers = "a401a101020241080341090402";
    // the same with names as keys, the last one first
    let by_names = concat!(
        "a47170696e55764175746850726f746f636f6c026873616c744175746841096773616c74456e6341086c6b6579416772",
        "65656d656e74a10102",
    );
    let shown = concat!(
        "Ok(HmacGetSecretInput { ",
        "key_agreement: Map([(Integer(Integer { value: 1 }), Integer(Integer { value: 2 }))]), ",
        "salt_enc: Bytes([8]), salt_auth: Bytes([9]), pin_uv_auth_protocol: Some(2) })",
    );
    assert_read::<HmacGetSecretInput>(&rt, &[(by_numbers, shown), (by_names, shown)]);
    // {"hmac-secret": null} and {"hmac-secret": {255: 0}}
    let null = "a16b686d61632d736563726574f6";
    let shown = "Ok(ExtensionInputs { hmac_secret: None, hmac_secret_mc: None, prf: None })";
    assert_read::<make_credential::ExtensionInputs>(&rt, &[(null, shown)]);
    let other = "a16b686d61632d736563726574a118ff00";
    let shown = "Ok(ExtensionInputs { hmac_secret: None, prf: None })";
    assert_read::<get_assertion::ExtensionInputs>(&rt, &[(other, shown)]);
}
