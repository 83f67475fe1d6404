//! authenticatorGetInfo responses (CTAP 2.1, section 6.4; CTAP 2.2 for the members from 0x16 on).
use crate::ctap2::tables::{assert_read, bytes_of, shown};
use passkey_ctap2::get_info::{Options, Response};
use std::process::Abort;

/// Each option in the table's order, and the debug text of the options.
const OPTIONS: &str = concat!(
    "b3626570f562726bf4627570f5627576f464706c6174f566757641636667f468616c776179735576f568637265644d67",
    "6d74f569617574686e72436667f56962696f456e726f6c6cf569636c69656e7450696ef56a6c61726765426c6f6273f4",
    "6b757642696f456e726f6c6cf56e70696e557641757468546f6b656ef56f7365744d696e50494e4c656e677468f4706d",
    "616b654372656455764e6f74527164f57563726564656e7469616c4d676d7450726576696577f5781b75736572566572",
    "696669636174696f6e4d676d7450726576696577f4781e6e6f4d6347615065726d697373696f6e7357697468436c6965",
    "6e7450696ef5",
);

const OPTIONS_SHOWN: &str = concat!(
    "Ok(Options { plat: true, rk: false, client_pin: Some(true), up: true, uv: Some(false), ",
    "pin_uv_auth_token: Some(true), no_mc_ga_permissions_with_client_pin: Some(true), large_blobs: Some(false), ",
    "ep: Some(true), bio_enroll: Some(true), user_verification_mgmt_preview: Some(false), uv_bio_enroll: Some(true), ",
    "authnr_cfg: Some(true), uv_acfg: Some(false), cred_mgmt: Some(true), credential_mgmt_preview: Some(true), ",
    "set_min_pin_length: Some(false), make_cred_uv_not_rqd: Some(true), always_uv: Some(true) })",
);

#[test]
fn options(rt: HostRuntime) {
    let default = concat!(
        "Ok(Options { plat: false, rk: false, client_pin: None, up: true, uv: None, ",
        "pin_uv_auth_token: None, no_mc_ga_permissions_with_client_pin: None, large_blobs: None, ",
        "ep: None, bio_enroll: None, user_verification_mgmt_preview: None, uv_bio_enroll: None, ",
        "authnr_cfg: None, uv_acfg: None, cred_mgmt: None, credential_mgmt_preview: None, ",
        "set_min_pin_length: None, make_cred_uv_not_rqd: None, always_uv: None })",
    );
    assert_read::<Options>(&rt, &[(OPTIONS, OPTIONS_SHOWN), ("a0", default)]);
}

/// A response with every member. A number or byte in a member is the member's own number plus 32.
const RESPONSE: &str = concat!(
    "b81b0181684649444f5f325f3102816370726603500102030405060708090a0b0c0d0e0f1004a362726bf5627570f564",
    "706c6174f4051825068202010981637573620a81a263616c672664747970656a7075626c69632d6b65790b182b0cf40d",
    "182d0e182e0f182f10183011183112183213f514183415821affffffff001681667061636b65641718371818f518194139",
    "181a81636e6663181bf4181c413c181d183d",
);

const RESPONSE_SHOWN: &str = concat!(
    "Ok((Response { versions: [FIDO_2_1], extensions: Some([Prf]), ",
    "aaguid: Aaguid([1, 2, 3, 4, 5, 6, 7, 8, 9, 10, 11, 12, 13, 14, 15, 16]), ",
    "options: Some(Options { plat: false, rk: true, client_pin: None, up: true, uv: None, ",
    "pin_uv_auth_token: None, no_mc_ga_permissions_with_client_pin: None, large_blobs: None, ",
    "ep: None, bio_enroll: None, user_verification_mgmt_preview: None, uv_bio_enroll: None, ",
    "authnr_cfg: None, uv_acfg: None, cred_mgmt: None, credential_mgmt_preview: None, ",
    "set_min_pin_length: None, make_cred_uv_not_rqd: None, always_uv: None }), ",
    "max_msg_size: Some(37), pin_protocols: Some([2, 1]), transports: Some([Usb]), ",
    "algorithms: Some([PublicKeyCredentialParameters { ty: PublicKey, alg: ES256 }]), ",
    "mac_serialized_large_blob_array: Some(43), force_pin_change: Some(false), min_pin_length: Some(45), ",
    "firmware_version: Some(46), max_cred_blob_length: Some(47), max_rpids_for_set_min_pin_length: Some(48), ",
    "preferred_platform_uv_attempts: Some(49), uv_modality: Some(50), certifications: Some(Bool(true)), ",
    "remaining_discoverable_credentials: Some(52), ",
    "vendor_prototype_config_commands: Some([4294967295, 0]), attestation_formats: Some([\"packed\"]), ",
    "uv_count_since_last_pin_entry: Some(55), long_touch_for_reset: Some(true), enc_identifier: Some(Bytes([57])), ",
    "transports_for_reset: Some([Nfc]), pin_complexity_policy: Some(false), ",
    "pin_complexity_policy_url: Some(Bytes([60])), max_pin_length: Some(61) }, 163))",
);

fn read_response(rt: &(impl Abort + AllocGlobal), item: &str) -> String {
    shown(
        rt,
        &Response::from_slice(rt.alloc(), bytes_of(rt, item).as_slice()),
    )
}

#[test]
fn responses(rt: HostRuntime) {
    assert_eq!(rt; read_response(&rt, RESPONSE).as_str(), RESPONSE_SHOWN);
}
