//! authenticatorGetAssertion (CTAP 2.1, section 6.2).
use crate::ctap2::tables::{assert_read, bytes_of, shown};
use passkey_ctap2::get_assertion::{Options, Request, Response};
use std::process::Abort;

/// A request with every member, the last one first.
const REQUEST: &str =
    "a7070206410b05a1627570f404a00381a2626964410a64747970656a7075626c69632d6b6579024108016161";

const REQUEST_SHOWN: &str = concat!(
    "Ok((Request { rp_id: \"a\", client_data_hash: Bytes([8]), ",
    "allow_list: Some([PublicKeyCredentialDescriptor { ty: PublicKey, id: Bytes([10]), transports: None }]), ",
    "extensions: Some(ExtensionInputs { hmac_secret: None, prf: None }), ",
    "options: Options { up: false, uv: false }, pin_auth: Some(Bytes([11])), pin_protocol: Some(2) }, 44))",
);

fn read_request(rt: &(impl Abort + AllocGlobal), item: &str) -> String {
    shown(
        rt,
        &Request::from_slice(rt.alloc(), bytes_of(rt, item).as_slice()),
    )
}

#[test]
fn requests(rt: HostRuntime) {
    // {"uv": true, "up": false}
    let asked = ("a2627576f5627570f4", "Ok(Options { up: false, uv: true })");
    assert_read::<Options>(&rt, &[asked]);
    assert_eq!(rt; read_request(&rt, REQUEST).as_str(), REQUEST_SHOWN);
}

/// A response with every member, the last one first.
const RESPONSE: &str = concat!(
    "a808a007410a06f5050204a26469636f6e61696269644108034109025825050605060506050605060506050605060506",
    "0506050605060506050605060506010000000901a2626964410764747970656a7075626c69632d6b6579",
);

const RESPONSE_SHOWN: &str = concat!(
    "Ok((Response { ",
    "credential: Some(PublicKeyCredentialDescriptor { ty: PublicKey, id: Bytes([7]), transports: None }), ",
    "auth_data: AuthenticatorData { rp_id_hash: [5, 6, 5, 6, 5, 6, 5, 6, 5, 6, 5, 6, 5, 6, 5, 6, ",
    "5, 6, 5, 6, 5, 6, 5, 6, 5, 6, 5, 6, 5, 6, 5, 6], flags: Flags(1), counter: Some(9), ",
    "attested_credential_data: None, extensions: None }, signature: Bytes([9]), ",
    "user: Some(PublicKeyCredentialUserEntity { id: Bytes([8]), ",
    "name: None, display_name: None, icon_url: Some(\"i\") }), ",
    "number_of_credentials: Some(2), user_selected: Some(true), large_blob_key: Some(Bytes([10])), ",
    "unsigned_extension_outputs: Some(UnsignedExtensionOutputs { prf: None }) }, 90))",
);

fn read_response(rt: &(impl Abort + AllocGlobal), item: &str) -> String {
    shown(
        rt,
        &Response::from_slice(rt.alloc(), bytes_of(rt, item).as_slice()),
    )
}

#[test]
fn responses(rt: HostRuntime) {
    assert_eq!(rt; read_response(&rt, RESPONSE).as_str(), RESPONSE_SHOWN);
}
