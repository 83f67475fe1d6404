//! Helpers of the tests.
use passkey_bytes::{Bytes, Text};
use std::fmt::Debug;
use std::process::Abort;

/// Ends the test unless this holds for the case.
pub(crate) fn check(rt: &impl Abort, holds: bool, what: &str, case: &[u8]) {
    assert!(rt; holds, "{what}: {case:?}");
}

/// The same for a case that is a text.
pub(crate) fn check_text(rt: &impl Abort, holds: bool, what: &str, case: &str) {
    assert!(rt; holds, "{what}: {case:?}");
}

pub(crate) fn assert_same(rt: &impl Abort, found: &str, wanted: &str) {
    assert_eq!(rt; found, wanted);
}

pub(crate) fn assert_same_bytes(rt: &impl Abort, found: &[u8], wanted: &[u8]) {
    assert_eq!(rt; found, wanted);
}

/// Asserts how `Debug` prints the value.
pub(crate) fn assert_shown<T: Debug>(rt: &(impl Abort + AllocGlobal), value: &T, wanted: &str) {
    let shown = format!(in rt.alloc(); "{value:?}").expect(rt, "memory");
    assert_same(rt, shown.as_str(), wanted);
}

pub(crate) fn bytes(rt: &(impl Abort + AllocGlobal), of: &[u8]) -> Bytes {
    Bytes::from_slice(rt.alloc(), of).expect(rt, "memory")
}

pub(crate) fn text(rt: &(impl Abort + AllocGlobal), of: &str) -> Text {
    Text::from_str(rt.alloc(), of).expect(rt, "memory")
}
