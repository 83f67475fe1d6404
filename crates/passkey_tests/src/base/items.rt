//! Data items as values: what they are made of, and how they are printed.
use crate::base::checks::assert_shown;
use passkey_cbor::{CborError, Cursor, Float, Integer, Simple, Value};
use std::process::Abort;
use std::test::Fail;

/// Asserts that a false length is a fault, and that no memory is asked for what isn't there, where the
/// item isn't skipped first.
fn assert_false_lengths(rt: &(impl Abort + AllocGlobal)) {
    for head in [0x9b, 0xbb] {
        let bytes = [head, 0x7f, 0xff, 0xff, 0xff, 0xff, 0xff, 0xff, 0xff, 0x00];
        let value = Cursor::new(&bytes).value_ahead(rt.alloc());
        assert!(rt;
            matches!(value, Err(CborError::DecodeFailed)),
            "after {head}"
        );
    }
}

/// Items with others in them, and how they are printed; the last one is a map whose key is a tagged
/// map.
const NESTED: &[(&[u8], &str)] = &[
    (
        &[0xa2, 0x61, 0x61, 0xf6, 0x61, 0x62, 0x82, 0xf4, 0x03],
        "Map([(Text(\"a\"), Null), (Text(\"b\"), Array([Bool(false), Integer(Integer { value: 3 })]))])",
    ),
    (
        &[0xa1, 0xc1, 0xa1, 0x61, 0x62, 0x80, 0x40],
        "Map([(Tag(1, Map([(Text(\"b\"), Array([]))])), Bytes([]))])",
    ),
];

fn assert_nested(rt: &(impl Abort + AllocGlobal)) {
    for (bytes, wanted) in NESTED {
        let (value, _len) = Value::from_slice(rt.alloc(), bytes).expect(rt, "an item");
        assert_value(rt, value, wanted);
    }
}

fn assert_value(rt: &(impl Abort + AllocGlobal), value: Value, wanted: &str) {
    assert_shown(rt, &value, wanted);
}

#[test]
fn values_are_made_and_printed(rt: HostRuntime) -> Result<(), Fail> {
    assert_false_lengths(&rt);
    assert_nested(&rt);
    let integer = Integer::new(-1)?;
    assert_value(&rt, Value::from(integer), "Integer(Integer { value: -1 })");
    let simple = Simple::new(16)?;
    assert_value(&rt, Value::from(simple), "Simple(Simple { value: 16 })");
    let float = Float::new(2, 15872)?;
    assert_value(
        &rt,
        Value::from(float),
        "Float(Float { width: 2, bits: 15872 })",
    );
    assert_value(&rt, Value::from_text(rt.alloc(), "IETF")?, "Text(\"IETF\")");
    assert_value(
        &rt,
        Value::from_bytes(rt.alloc(), &[1, 2])?,
        "Bytes([1, 2])",
    );
    Ok(())
}
