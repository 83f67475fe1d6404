//! What a browser returns (WebAuthn Level 3, section 5.1): which field each member is. The rows of the
//! program contain whole credentials and their faults.
use crate::json::checks::assert_reads;
use passkey_webauthn_json::credentials::{
    AuthenticatorAssertionResponse, CreatedPublicKeyCredential,
};

#[test]
fn each_field_is_the_member_of_its_name(rt: HostRuntime) {
    assert_reads::<CreatedPublicKeyCredential>(
        &rt,
        &[(
            r#"{"id":"a","rawId":"AQ","type":"public-key","authenticatorAttachment":"platform","response":{"clientDataJSON":"Ag","authenticatorData":"Aw","transports":["internal"],"publicKey":"BA","publicKeyAlgorithm":-7,"attestationObject":"BQ"},"clientExtensionResults":{"credProps":{"rk":true}}}"#,
            r#"PublicKeyCredential { id: "a", raw_id: Bytes([1]), ty: PublicKey, response: AuthenticatorAttestationResponse { client_data_json: Bytes([2]), authenticator_data: Bytes([3]), public_key: Some(Bytes([4])), public_key_algorithm: -7, attestation_object: Bytes([5]), transports: Some([Internal]) }, authenticator_attachment: Some(Platform), client_extension_results: AuthenticationExtensionsClientOutputs { cred_props: Some(CredentialPropertiesOutput { discoverable: Some(true) }), prf: None } }"#,
        )],
    );
    assert_reads::<AuthenticatorAssertionResponse>(
        &rt,
        &[(
            r#"{"clientDataJSON":"AQ","authenticatorData":"Ag","signature":"Aw","userHandle":"BA","attestationObject":"BQ"}"#,
            "AuthenticatorAssertionResponse { client_data_json: Bytes([1]), authenticator_data: Bytes([2]), signature: Bytes([3]), user_handle: Some(Bytes([4])), attestation_object: Some(Bytes([5])) }",
        )],
    );
}
