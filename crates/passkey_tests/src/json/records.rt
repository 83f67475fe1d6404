//! Which field of a record each member of an object is (WebAuthn Level 3). The rows of the program
//! contain what objects are encoded as, and their faults.
use crate::json::checks::assert_reads;
use passkey_json::{
    AuthenticationExtensionsClientInputs, AuthenticationExtensionsClientOutputs,
    AuthenticationExtensionsPrfInputs, AuthenticatorSelectionCriteria,
};
use passkey_webauthn::{AuthenticationExtensionsPrfOutputs, AuthenticationExtensionsPrfValues};

// Section 5.4.4.
#[test]
fn criteria_have_defaults(rt: HostRuntime) {
    assert_reads::<AuthenticatorSelectionCriteria>(
        &rt,
        &[
            (
                r#"{"authenticatorAttachment":"x","residentKey":"required","userVerification":1.5}"#,
                "AuthenticatorSelectionCriteria { authenticator_attachment: None, resident_key: Some(Required), require_resident_key: false, user_verification: Preferred }",
            ),
            (
                r#"{"authenticatorAttachment":"cross-platform","requireResidentKey":"true"}"#,
                "AuthenticatorSelectionCriteria { authenticator_attachment: Some(CrossPlatform), resident_key: None, require_resident_key: true, user_verification: Preferred }",
            ),
        ],
    );
}

// Sections 9.3, 9.4, 10.1.3 and 10.1.4.
#[test]
fn each_field_of_extensions_is_the_member_of_its_name(rt: HostRuntime) {
    assert_reads::<AuthenticationExtensionsPrfValues>(
        &rt,
        &[(
            r#"{"second":[2],"first":"AQ"}"#,
            "AuthenticationExtensionsPrfValues { first: Bytes([1]), second: Some(Bytes([2])) }",
        )],
    );
    assert_reads::<AuthenticationExtensionsPrfOutputs>(
        &rt,
        &[(
            r#"{"enabled":true,"results":{"first":"AQ"}}"#,
            "AuthenticationExtensionsPrfOutputs { enabled: Some(true), results: Some(AuthenticationExtensionsPrfValues { first: Bytes([1]), second: None }) }",
        )],
    );
    assert_reads::<AuthenticationExtensionsClientOutputs>(
        &rt,
        &[(
            r#"{"credProps":{"rk":true},"prf":{}}"#,
            "AuthenticationExtensionsClientOutputs { cred_props: Some(CredentialPropertiesOutput { discoverable: Some(true) }), prf: Some(AuthenticationExtensionsPrfOutputs { enabled: None, results: None }) }",
        )],
    );
    assert_reads::<AuthenticationExtensionsPrfInputs>(
        &rt,
        &[(
            r#"{"eval":null,"evalByCredential":{"AQ":{"first":"Ag"},"AQ==":{"first":[3]}}}"#,
            r#"AuthenticationExtensionsPrfInputs { eval: None, eval_by_credential: Some({"AQ": AuthenticationExtensionsPrfValues { first: Bytes([2]), second: None }, "AQ==": AuthenticationExtensionsPrfValues { first: Bytes([3]), second: None }}) }"#,
        )],
    );
    assert_reads::<AuthenticationExtensionsClientInputs>(
        &rt,
        &[(
            r#"{"credProps":false,"prf":{},"prfAlreadyHashed":null}"#,
            "AuthenticationExtensionsClientInputs { cred_props: Some(false), prf: Some(AuthenticationExtensionsPrfInputs { eval: None, eval_by_credential: None }), prf_already_hashed: None }",
        )],
    );
}
