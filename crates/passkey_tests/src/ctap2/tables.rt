//! Tables of items in hexadecimal, with what they decode to and are encoded as.
use passkey_cbor::Value;
use passkey_kinds::{FromCbor, ToCbor};
use std::fmt::Debug;
use std::process::Abort;

pub(crate) fn bytes_of(rt: &(impl Abort + AllocGlobal), hexadecimal: &str) -> Vec<u8> {
    hex::decode(rt.alloc(), hexadecimal).expect(rt, "bytes in hexadecimal")
}

pub(crate) fn item_of(rt: &(impl Abort + AllocGlobal), hexadecimal: &str) -> Value {
    let bytes = bytes_of(rt, hexadecimal);
    Value::from_slice(rt.alloc(), bytes.as_slice())
        .expect(rt, "an item")
        .0
}

pub(crate) fn hexadecimal(rt: &(impl Abort + AllocGlobal), bytes: &[u8]) -> String {
    hex::encode(rt.alloc(), bytes).expect(rt, "memory")
}

pub(crate) fn shown<T: Debug>(rt: &(impl Abort + AllocGlobal), value: &T) -> String {
    format!(in rt.alloc(); "{value:?}").expect(rt, "memory")
}

/// The encoding of the value.
pub(crate) fn written<T: ToCbor>(rt: &(impl Abort + AllocGlobal), value: &T) -> String {
    let item = value.to_value(rt.alloc()).expect(rt, "memory");
    let bytes = item.to_vec(rt.alloc()).expect(rt, "memory");
    hexadecimal(rt, bytes.as_slice())
}

/// Asserts the debug text of the value that each item decodes to.
pub(crate) fn assert_read<T: FromCbor + Debug>(
    rt: &(impl Abort + AllocGlobal),
    rows: &[(&str, &str)],
) {
    for (item, wanted) in rows {
        let value = T::from_value(rt.alloc(), &item_of(rt, item));
        assert_eq!(rt; shown(rt, &value).as_str(), *wanted, "of {item}");
    }
}

/// Asserts the encoding of the value that each item decodes to.
pub(crate) fn assert_rewritten<T: FromCbor + ToCbor>(
    rt: &(impl Abort + AllocGlobal),
    rows: &[(&str, &str)],
) {
    for (item, wanted) in rows {
        let value = T::from_value(rt.alloc(), &item_of(rt, item)).expect(rt, item);
        assert_eq!(rt; written(rt, &value).as_str(), *wanted, "of {item}");
    }
}

/// Asserts that each item is rejected.
pub(crate) fn assert_refused<T: FromCbor + Debug>(rt: &(impl Abort + AllocGlobal), items: &[&str]) {
    for item in items {
        let value = T::from_value(rt.alloc(), &item_of(rt, item));
        assert_eq!(rt; shown(rt, &value).as_str(), "Err(Refused)", "of {item}");
    }
}
