//! Data items, described by the tables of messages.
use crate::ctap2::tables::bytes_of;
use passkey_cbor::Value;
use passkey_ctap2::get_assertion::{Request, Response};
use passkey_ctap2::get_info::Response as GetInfo;
use passkey_explain::describe;
use passkey_kinds::Message;
use std::process::Abort;

fn assert_described<M: Message>(rt: &(impl Abort + AllocGlobal), hexadecimal: &str, wanted: &str) {
    let bytes = bytes_of(rt, hexadecimal);
    let (value, _) = Value::from_slice(rt.alloc(), bytes.as_slice()).expect(rt, "an item");
    let description = describe::<M>(rt.alloc(), &value).expect(rt, "memory");
    let text = format!(in rt.alloc(); "{description:?}").expect(rt, "memory");
    assert_eq!(rt; text.as_str(), wanted, "of {hexadecimal}");
}

/// CTAP 2.1, sections 6.2 and 6.4: rpId (1) with a member of a later version, where clientDataHash is
/// absent; versions (1), a list of texts with a number in it; and credential (1), which is no map.
#[test]
fn members_are_described(rt: HostRuntime) {
    let wanted = "Record([(Member(1, \"rpId\"), Leaf(Text, Text(\"a\"))), \
        (Unknown(Integer(Integer { value: 99 })), Leaf(Any, Integer(Integer { value: 10 })))])";
    assert_described::<Request>(&rt, "a201616118630a", wanted);
    let wanted = "Record([(Member(1, \"versions\"), \
        List([Leaf(Text, Text(\"FIDO_2_0\")), Leaf(Text, Integer(Integer { value: 5 }))]))])";
    assert_described::<GetInfo>(&rt, "a10182684649444f5f325f3005", wanted);
    let wanted = "Record([(Member(1, \"credential\"), Leaf(Map, Integer(Integer { value: 5 })))])";
    assert_described::<Response>(&rt, "a10105", wanted);
}
