//! Client data that a program makes (WebAuthn Level 3, section 5.8.1). The rows of the program contain
//! client data that is decoded.
use crate::json::checks::{assert_shows, displayed, parsed};
use indexmap::IndexMap;
use passkey_bytes::Text;
use passkey_json::JsonFault;
use passkey_webauthn_json::client_data::{ClientDataType, CollectedClientData};
use serde_json::Value;
use std::process::Abort;

/// The text, or else the display text of the fault.
fn shown(rt: &(impl Abort + AllocGlobal), text: Result<Text, JsonFault>) -> String {
    match text {
        Ok(text) => displayed(rt, &text),
        Err(fault) => displayed(rt, &fault),
    }
}

/// The encoding of client data with this unknown member, or with none, or else the fault.
fn made(rt: &(impl Abort + AllocGlobal), unknown: Option<Value>) -> String {
    let mut unknown_keys = IndexMap::new(rt.alloc());
    if let Some(value) = unknown {
        let name = String::from_str(rt.alloc(), "a").expect(rt, "memory");
        unknown_keys.insert(name, value).expect(rt, "memory");
    }
    let data = CollectedClientData {
        ty: ClientDataType::Get,
        challenge: Text::from_str(rt.alloc(), "c").expect(rt, "memory"),
        origin: Text::from_str(rt.alloc(), "http://localhost:4000").expect(rt, "memory"),
        cross_origin: None,
        extra_data: (),
        unknown_keys,
    };
    shown(rt, data.to_text(rt.alloc()))
}

#[test]
fn client_data_that_was_made_is_written(rt: HostRuntime) {
    let want =
        r#"{"type":"webauthn.get","challenge":"c","origin":"http://localhost:4000","crossOrigin":false}"#;
    assert_shows(&rt, "nothing unknown", made(&rt, None), want);
    let float = parsed(&rt, "[1.5]");
    assert_shows(
        &rt,
        "a float",
        made(&rt, Some(float)),
        r#"Float("unknown_keys")"#,
    );
}
