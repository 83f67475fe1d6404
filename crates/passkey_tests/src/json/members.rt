//! Members that are put one by one.
use crate::json::checks::{assert_shows, debugged, parsed};
use passkey_json::{JsonFault, Object, PlainJsonRecord};
use passkey_webauthn::AuthenticationExtensionsPrfOutputs;
use serde_json::Value;
use std::alloc::Global;
use std::process::Abort;

/// Puts two members into the outputs of prf, the second of which is refused, and returns the outputs.
fn put_refused(
    alloc: Global,
    value: &Value,
) -> Result<AuthenticationExtensionsPrfOutputs, JsonFault> {
    let object = Object::of(alloc, value)?;
    let mut outputs = AuthenticationExtensionsPrfOutputs::blank(alloc);
    let _results = outputs.put(2, &mut object.member("results"));
    let _enabled = outputs.put(1, &mut object.member("enabled"));
    Ok(outputs)
}

#[test]
fn a_refused_member_leaves_the_others(rt: HostRuntime) {
    let value = parsed(&rt, r#"{"enabled":{"x":1.5},"results":{"first":"AQ"}}"#);
    let want = "Ok(AuthenticationExtensionsPrfOutputs { enabled: None, results: Some(\
         AuthenticationExtensionsPrfValues { first: Bytes([1]), second: None }) })";
    assert_shows(
        &rt,
        "enabled",
        debugged(&rt, &put_refused(rt.alloc(), &value)),
        want,
    );
}
