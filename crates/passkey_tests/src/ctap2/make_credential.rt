//! authenticatorMakeCredential (CTAP 2.1, section 6.1).
use crate::ctap2::tables::{assert_read, bytes_of, hexadecimal, shown};
use passkey_bytes::Text;
use passkey_cbor::Value;
use passkey_core::AuthenticatorData;
use passkey_ctap2::make_credential::{Options, PublicKeyCredentialUserEntity, Request, Response};
use std::process::Abort;

/// {"icon": "i", "displayName": "d", "name": "n", "id": h'07'}, and the debug text of the user.
const USER: &str = "a46469636f6e61696b646973706c61794e616d656164646e616d65616e6269644107";

const USER_SHOWN: &str = concat!(
    "Ok(PublicKeyCredentialUserEntity { id: Bytes([7]), ",
    "name: Some(\"n\"), display_name: Some(\"d\"), icon_url: Some(\"i\") })",
);

/// A request with every member, the last one first.
const REQUEST: &str = concat!(
    "a9090208410b07a2627576f562726bf506a16b686d61632d736563726574f50581a2626964410a64747970656a707562",
    "6c69632d6b65790481a264747970656a7075626c69632d6b657963616c672603a36269644109646e616d65616e6b6469",
    "73706c61794e616d65616402a26269646161646e616d656162014108",
);

const REQUEST_SHOWN: &str = concat!(
    "Ok((Request { client_data_hash: Bytes([8]), rp: PublicKeyCredentialRpEntity { id: \"a\", name: Some(\"b\") }, ",
    "user: PublicKeyCredentialUserEntity { id: Bytes([9]), display_name: \"d\", name: \"n\" }, ",
    "pub_key_cred_params: [PublicKeyCredentialParameters { ty: PublicKey, alg: ES256 }], ",
    "exclude_list: Some([PublicKeyCredentialDescriptor { ty: PublicKey, id: Bytes([10]), transports: None }]), ",
    "extensions: Some(ExtensionInputs { hmac_secret: Some(true), hmac_secret_mc: None, prf: None }), ",
    "options: Options { rk: true, up: true, uv: true }, pin_auth: Some(Bytes([11])), pin_protocol: Some(2) }, 124))",
);

fn read_request(rt: &(impl Abort + AllocGlobal), item: &str) -> String {
    shown(
        rt,
        &Request::from_slice(rt.alloc(), bytes_of(rt, item).as_slice()),
    )
}

#[test]
fn requests(rt: HostRuntime) {
    assert_read::<PublicKeyCredentialUserEntity>(&rt, &[(USER, USER_SHOWN)]);
    // {"up": false, "rk": true}
    let asked = (
        "a2627570f462726bf5",
        "Ok(Options { rk: true, up: false, uv: false })",
    );
    assert_read::<Options>(&rt, &[asked]);
    assert_eq!(rt; read_request(&rt, REQUEST).as_str(), REQUEST_SHOWN);
}

/// A response with every member, the last one first.
const RESPONSE: &str =
    "a606a005410704f503a002582505060506050605060506050605060506050605060506050605060506050605060100000009016166";

const RESPONSE_SHOWN: &str = concat!(
    "Ok((Response { fmt: \"f\", auth_data: AuthenticatorData { rp_id_hash: [5, 6, 5, 6, 5, 6, 5, 6, 5, 6, 5, 6, 5, 6, ",
    "5, 6, 5, 6, 5, 6, 5, 6, 5, 6, 5, 6, 5, 6, 5, 6, 5, 6], flags: Flags(1), counter: Some(9), ",
    "attested_credential_data: None, extensions: None }, att_stmt: Map([]), ep_att: Some(true), ",
    "large_blob_key: Some(Bytes([7])), ",
    "unsigned_extension_outputs: Some(UnsignedExtensionOutputs { prf: None }) }, 53))",
);

fn read_response(rt: &(impl Abort + AllocGlobal), item: &str) -> String {
    shown(
        rt,
        &Response::from_slice(rt.alloc(), bytes_of(rt, item).as_slice()),
    )
}

#[test]
fn responses(rt: HostRuntime) {
    assert_eq!(rt; read_response(&rt, RESPONSE).as_str(), RESPONSE_SHOWN);
}

/// This many arrays, one inside the other.
fn arrays(rt: &(impl Abort + AllocGlobal), levels: usize) -> Value {
    let mut item = Value::Array(Vec::new(rt.alloc()));
    for _ in 1..levels {
        item = Value::Array(vec![in rt.alloc(); item].expect(rt, "memory"));
    }
    item
}

/// A response whose attestation statement is this many nested arrays.
fn stating(rt: &(impl Abort + AllocGlobal), levels: usize) -> Response {
    Response {
        fmt: Text::empty(rt.alloc()),
        auth_data: AuthenticatorData::empty(),
        att_stmt: arrays(rt, levels),
        ep_att: None,
        large_blob_key: None,
        unsigned_extension_outputs: None,
    }
}

/// {1: "", 2: data with 18 as its flags, 3: this many nested arrays}
fn stating_written(rt: &(impl Abort + AllocGlobal), levels: usize) -> String {
    let front =
        "a301600258250000000000000000000000000000000000000000000000000000000000000000180000000003";
    let mut text = String::from_str(rt.alloc(), front).expect(rt, "memory");
    for _ in 1..levels {
        text.push_str("81").expect(rt, "memory");
    }
    text.push_str("80").expect(rt, "memory");
    text
}

/// The encoding of the response in hexadecimal, or why it isn't decoded.
fn reread(rt: &(impl Abort + AllocGlobal), item: &str) -> String {
    match Response::from_slice(rt.alloc(), bytes_of(rt, item).as_slice()) {
        Ok((response, _)) => {
            let bytes = response.to_vec(rt.alloc()).expect(rt, "memory");
            hexadecimal(rt, bytes.as_slice())
        }
        Err(fault) => shown(rt, &fault),
    }
}

// The map around the statement is one more nesting level (RFC 8949, section 5.3.1, allows a limit).
#[test]
fn statements_of_255_levels_cohere(rt: HostRuntime) {
    for (levels, coheres) in [(255, true), (256, false)] {
        let response = stating(&rt, levels);
        let wanted = stating_written(&rt, levels);
        let bytes = response.to_vec(rt.alloc()).expect(&rt, "memory");
        assert_eq!(rt; response.is_coherent(), coheres);
        assert_eq!(rt;
            hexadecimal(&rt, bytes.as_slice()).as_str(),
            wanted.as_str()
        );
        let read = if coheres {
            wanted.as_str()
        } else {
            "DecodeFailed"
        };
        assert_eq!(rt; reread(&rt, wanted.as_str()).as_str(), read);
    }
}
