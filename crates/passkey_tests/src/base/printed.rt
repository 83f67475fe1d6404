//! Printed texts, most of which aren't in a contract.
use crate::base::checks::{assert_same, assert_shown, bytes, text};
use passkey_bytes::{Bytes, BytesFault, List, Map, NotBase64Encoded, Text};
use passkey_cbor::{CborError, OutOfMemory};
use passkey_core::{CodeOutOfRange, GivenBack, TryFromSliceError};
use passkey_cose::{CoseError, CoseKey, CoseKeyConversionError, RefusedKey};
use std::fmt::Display;
use std::process::Abort;

fn assert_printed<T: Display>(rt: &(impl Abort + AllocGlobal), value: &T, wanted: &str) {
    let printed = format!(in rt.alloc(); "{value}").expect(rt, "memory");
    assert_same(rt, printed.as_str(), wanted);
}

fn refused_key() -> RefusedKey {
    RefusedKey {
        key: CoseKey::default(),
        error: CoseError::DuplicateMapKey,
    }
}

#[test]
fn failed_conversions_of_keys_are_printed(rt: HostRuntime) {
    let words = String::from_str(rt.alloc(), "no curve").expect(&rt, "memory");
    for (error, wanted) in [
        (
            CoseKeyConversionError::UnsupportedAlgorithm,
            "UnsupportedAlgorithm",
        ),
        (
            CoseKeyConversionError::InvalidCredential,
            "InvalidCredential",
        ),
        (CoseKeyConversionError::Other(words), "no curve"),
    ] {
        assert_printed(&rt, &error, wanted);
    }
}

#[test]
fn faults_are_printed_by_name(rt: HostRuntime) {
    assert_printed(&rt, &CborError::DecodeFailed, "DecodeFailed");
    assert_printed(&rt, &CborError::OutOfMemory, "OutOfMemory");
    assert_printed(
        &rt,
        &CborError::OutOfRangeIntegerValue,
        "OutOfRangeIntegerValue",
    );
    assert_printed(&rt, &OutOfMemory, "OutOfMemory");
    assert_printed(
        &rt,
        &BytesFault::NotBase64Encoded(NotBase64Encoded),
        "NotBase64Encoded",
    );
    assert_printed(&rt, &BytesFault::OutOfMemory, "OutOfMemory");
    assert_printed(&rt, &NotBase64Encoded, "NotBase64Encoded");
    assert_printed(&rt, &CoseError::DuplicateMapKey, "DuplicateMapKey");
    assert_printed(&rt, &CodeOutOfRange(27u8), "Value 27 is out of range");
    assert_printed(&rt, &TryFromSliceError, "TryFromSliceError");
    assert_printed(&rt, &GivenBack { value: 1u8 }, "OutOfMemory");
    assert_printed(&rt, &refused_key(), "DuplicateMapKey");
    let fault = BytesFault::NotBase64Encoded(NotBase64Encoded);
    assert_shown(&rt, &fault, "NotBase64Encoded(NotBase64Encoded)");
    assert_shown(
        &rt,
        &CoseKeyConversionError::UnsupportedAlgorithm,
        "UnsupportedAlgorithm",
    );
}

fn list(rt: &(impl Abort + AllocGlobal)) -> List<Text> {
    let items = vec![in rt.alloc(); text(rt, "a")].expect(rt, "memory");
    List::from(items)
}

#[test]
fn containers_are_printed(rt: HostRuntime) {
    assert_shown(&rt, &Bytes::empty(rt.alloc()), "Bytes([])");
    assert_shown(&rt, &bytes(&rt, &[1, 2]), "Bytes([1, 2])");
    assert_shown(&rt, &text(&rt, "a\"\n"), "\"a\\\"\\n\"");
    assert_printed(&rt, &text(&rt, "a\"\n"), "a\"\n");
    assert_shown(&rt, &list(&rt), "[\"a\"]");
    let mut map = Map::empty(rt.alloc());
    map.insert(bytes(&rt, &[1, 2]), 3).expect(&rt, "memory");
    map.insert(bytes(&rt, &[1]), 4).expect(&rt, "memory");
    assert_shown(&rt, &map, "{Bytes([1]): 4, Bytes([1, 2]): 3}");
}
