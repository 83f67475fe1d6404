//! How values that JSON values decode to are printed, with numbers of IANA's registry "COSE
//! Algorithms". The rows of the program contain other values.
use crate::json::checks::assert_reads;
use passkey_bytes::{Map, Text};
use passkey_iana::Algorithm;
use passkey_json::{TolerantList, Tolerated, TruthText};

#[test]
fn values_are_read(rt: HostRuntime) {
    assert_reads::<TruthText>(&rt, &[(r#""true""#, "TruthText(true)")]);
    assert_reads::<Option<u8>>(
        &rt,
        &[("null", "None"), ("7", "Some(7)"), ("256", "Refused")],
    );
    assert_reads::<Tolerated<u8>>(
        &rt,
        &[("7", "Tolerated(Some(7))"), ("-7", "Tolerated(None)")],
    );
    assert_reads::<TolerantList<u8>>(&rt, &[("[1,null,1.5,2]", "TolerantList([1, 2])")]);
    assert_reads::<Map<Text, u8>>(&rt, &[(r#"{"b":2,"a":1}"#, r#"{"a": 1, "b": 2}"#)]);
}

#[test]
fn algorithms_are_read(rt: HostRuntime) {
    assert_reads::<Algorithm>(
        &rt,
        &[
            ("-7", "ES256"),
            ("-8", "EdDSA"),
            ("-25", "ECDH_ES_HKDF_256"),
            ("-35", "ES384"),
            ("-36", "ES512"),
            ("-37", "PS256"),
            ("-38", "PS384"),
            ("-39", "PS512"),
            ("-47", "ES256K"),
            ("-48", "ML_DSA_44"),
            ("-49", "ML_DSA_65"),
            ("-50", "ML_DSA_87"),
            ("-257", "RS256"),
            ("-258", "RS384"),
            ("-259", "RS512"),
            ("-65535", "RS1"),
            ("-6", "Refused"),
        ],
    );
}
