//! Helpers of the JSON tests. Each call has one exit, so that little has to be proved about a test.
use passkey_json::{BytesForm, FromJson, JsonRecord, ToJson};
use serde_json::Value;
use std::fmt::{Debug, Display};
use std::process::Abort;

/// The JSON value of a text.
pub fn parsed(rt: &(impl Abort + AllocGlobal), text: &str) -> Value {
    Value::from_str(rt.alloc(), text).expect(rt, "a JSON text")
}

/// The text that `{}` prints.
pub fn displayed<T: Display>(rt: &(impl Abort + AllocGlobal), value: &T) -> String {
    format!(in rt.alloc(); "{value}").expect(rt, "memory")
}

/// The text that `{:?}` prints.
pub fn debugged<T: Debug>(rt: &(impl Abort + AllocGlobal), value: &T) -> String {
    format!(in rt.alloc(); "{value:?}").expect(rt, "memory")
}

/// The compact JSON text of the value's encoding.
pub fn written<T: ToJson>(rt: &(impl Abort + AllocGlobal), value: &T, form: BytesForm) -> String {
    let json = value.to_json(rt.alloc(), form).expect(rt, "memory");
    json.to_string(rt.alloc()).expect(rt, "memory")
}

/// The debug text of the value that the JSON text decodes to, or else the display text of the
/// error.
fn read<T: FromJson + Debug>(rt: &(impl Abort + AllocGlobal), text: &str) -> String {
    match T::from_value(rt.alloc(), &parsed(rt, text)) {
        Ok(value) => debugged(rt, &value),
        Err(refusal) => displayed(rt, &refusal),
    }
}

/// The encoding of the record that the JSON text decodes to, or else the display text of the fault.
fn rewritten<T: JsonRecord + ToJson>(
    rt: &(impl Abort + AllocGlobal),
    text: &str,
    form: BytesForm,
) -> String {
    match T::from_json(rt.alloc(), &parsed(rt, text)) {
        Ok(record) => written(rt, &record, form),
        Err(fault) => displayed(rt, &fault),
    }
}

/// Asserts what a call shows for this input.
pub fn assert_shows(rt: &impl Abort, input: &str, shown: String, want: &str) {
    assert_eq!(rt; shown.as_str(), want, "on {input}");
}

/// Asserts what `read` returns for each text.
pub fn assert_reads<T: FromJson + Debug>(rt: &(impl Abort + AllocGlobal), cases: &[(&str, &str)]) {
    for (text, want) in cases {
        assert_shows(rt, text, read::<T>(rt, text), want);
    }
}

/// Asserts what `rewritten` returns for each text.
pub fn assert_rewrites<T: JsonRecord + ToJson>(
    rt: &(impl Abort + AllocGlobal),
    form: BytesForm,
    cases: &[(&str, &str)],
) {
    for (text, want) in cases {
        assert_shows(rt, text, rewritten::<T>(rt, text, form), want);
    }
}
