//! Options of registrations and sign-ins (WebAuthn Level 3, sections 5.4 and 5.5), worked out by
//! hand. The rows of the program contain whole options.
use crate::json::checks::{assert_reads, assert_rewrites};
use passkey_json::BytesForm::{Base64Url, Numbers};
use passkey_webauthn_json::options::{
    CredentialCreationOptions, CredentialRequestOptions, PublicKeyCredentialCreationOptions,
    PublicKeyCredentialRequestOptions,
};

#[test]
fn each_field_of_a_creation_is_the_member_of_its_name(rt: HostRuntime) {
    assert_reads::<CredentialCreationOptions>(
        &rt,
        &[(
            r#"{"publicKey":{"attestation":"direct","attestationFormats":["tpm"],"authenticatorSelection":{},"challenge":"AQ","excludeCredentials":[{"type":"public-key","id":"Ag","transports":["usb","smart-card",1,"cable"]}],"extensions":{},"hints":["hybrid"],"pubKeyCredParams":[{"type":"public-key","alg":-7}],"rp":{"name":"a","id":"d"},"timeout":"300000","user":{"id":"Aw","name":"b","displayName":"c"}}}"#,
            r#"CredentialOptions { public_key: PublicKeyCredentialCreationOptions { rp: PublicKeyCredentialRpEntity { id: Some("d"), name: "a" }, user: PublicKeyCredentialUserEntity { id: Bytes([3]), display_name: "c", name: "b" }, challenge: Bytes([1]), pub_key_cred_params: [PublicKeyCredentialParameters { ty: PublicKey, alg: ES256 }], timeout: Some(300000), exclude_credentials: Some([PublicKeyCredentialDescriptor { ty: PublicKey, id: Bytes([2]), transports: Some([Usb, Hybrid]) }]), authenticator_selection: Some(AuthenticatorSelectionCriteria { authenticator_attachment: None, resident_key: None, require_resident_key: false, user_verification: Preferred }), hints: Some([Hybrid]), attestation: Direct, attestation_formats: Some([Tpm]), extensions: Some(AuthenticationExtensionsClientInputs { cred_props: None, prf: None, prf_already_hashed: None }) } }"#,
        )],
    );
}

#[test]
fn each_field_of_a_request_is_the_member_of_its_name(rt: HostRuntime) {
    assert_reads::<CredentialRequestOptions>(
        &rt,
        &[(
            r#"{"publicKey":{"allowList":[{"type":"public-key","id":"Ag"}],"attestation":"direct","attestationFormats":["tpm"],"challenge":"AQ","extensions":{"credProps":true},"hints":["hybrid"],"rpId":"a","timeout":300000,"userVerification":"required"}}"#,
            r#"CredentialOptions { public_key: PublicKeyCredentialRequestOptions { challenge: Bytes([1]), timeout: Some(300000), rp_id: Some("a"), allow_credentials: Some([PublicKeyCredentialDescriptor { ty: PublicKey, id: Bytes([2]), transports: None }]), user_verification: Required, hints: Some([Hybrid]), attestation: Direct, attestation_formats: Some([Tpm]), extensions: Some(AuthenticationExtensionsClientInputs { cred_props: Some(true), prf: None, prf_already_hashed: None }) } }"#,
        )],
    );
}

#[test]
fn bytes_are_written_as_numbers(rt: HostRuntime) {
    assert_rewrites::<CredentialCreationOptions>(
        &rt,
        Numbers,
        &[(
            r#"{"publicKey":{"challenge":"AQ","excludeCredentials":[{"type":"public-key","id":"Ag"}],"pubKeyCredParams":[],"rp":{"name":"a"},"user":{"id":"Aw","name":"b","displayName":"c"}}}"#,
            r#"{"publicKey":{"attestation":"none","challenge":[1],"excludeCredentials":[{"id":[2],"type":"public-key"}],"pubKeyCredParams":[],"rp":{"name":"a"},"user":{"displayName":"c","id":[3],"name":"b"}}}"#,
        )],
    );
}

// In the order of section 5.4.
#[test]
fn the_first_fault_of_a_creation_is_reported(rt: HostRuntime) {
    assert_rewrites::<PublicKeyCredentialCreationOptions>(
        &rt,
        Base64Url,
        &[
            (r#"{}"#, r#"Missing("rp")"#),
            (
                r#"{"timeout":null,"challenge":"","rp":{"name":"a"},"user":{"displayName":"","id":"","name":""}}"#,
                r#"Missing("pubKeyCredParams")"#,
            ),
            (
                r#"{"pubKeyCredParams":null,"challenge":"","rp":{"name":"a"},"user":{"displayName":"","id":"","name":""}}"#,
                r#"Refused("pubKeyCredParams")"#,
            ),
            (
                r#"{"pubKeyCredParams":[],"timeout":null,"challenge":"","rp":{"name":"a"},"user":{"displayName":"","id":"","name":""}}"#,
                r#"Refused("timeout")"#,
            ),
            (
                r#"{"pubKeyCredParams":[],"timeout":1800.0,"challenge":"","rp":{"name":"a"},"user":{"displayName":"","id":"","name":""}}"#,
                r#"Float("timeout")"#,
            ),
            (
                r#"{"authenticatorSelection":[],"extensions":1.5,"pubKeyCredParams":[1.5],"challenge":"","rp":{"name":"a"},"user":{"displayName":"","id":"","name":""}}"#,
                r#"Refused("authenticatorSelection")"#,
            ),
            (
                r#"{"attestation":1.5,"authenticatorSelection":null,"excludeCredentials":1.5,"extensions":{"prf":{"eval":1.5}},"hints":[1.5],"pubKeyCredParams":[],"challenge":"","rp":{"name":"a"},"user":{"displayName":"","id":"","name":""}}"#,
                r#"Float("extensions")"#,
            ),
        ],
    );
}

// In the order of section 5.5.
#[test]
fn the_first_fault_of_a_request_is_reported(rt: HostRuntime) {
    assert_rewrites::<PublicKeyCredentialRequestOptions>(
        &rt,
        Base64Url,
        &[
            (
                r#"{"allowCredentials":[],"allowList":[],"challenge":""}"#,
                r#"Repeated("allowCredentials")"#,
            ),
            (
                r#"{"challenge":"","rpId":1,"timeout":null}"#,
                r#"Refused("timeout")"#,
            ),
            (
                r#"{"allowCredentials":[],"allowList":[],"challenge":"","rpId":1}"#,
                r#"Refused("rpId")"#,
            ),
            (
                r#"{"allowCredentials":1.5,"attestation":"x","attestationFormats":{},"challenge":"","extensions":{"credProps":1.5},"hints":null,"userVerification":1}"#,
                r#"{"attestation":"none","challenge":"","userVerification":"preferred"}"#,
            ),
        ],
    );
}
