//! Faults as they are printed, and laws at concrete types.
use passkey_bytes::{Bytes, List, Map, Text};
use passkey_ctap2::get_assertion::Request;
use passkey_extensions::MissingRpId;
use passkey_kinds::{Message, ReadBack, Refusal, WriteFault, laws};
use passkey_webauthn::PublicKeyCredentialDescriptor;
use std::fmt::Display;
use std::process::Abort;

fn assert_printed<T: Display>(rt: &(impl Abort + AllocGlobal), value: &T, wanted: &str) {
    let printed = format!(in rt.alloc(); "{value}").expect(rt, "memory");
    assert_eq!(rt; printed.as_str(), wanted);
}

#[test]
fn faults_are_printed_by_name(rt: HostRuntime) {
    assert_printed(&rt, &Refusal::Refused, "Refused");
    assert_printed(&rt, &Refusal::OutOfMemory, "OutOfMemory");
    assert_printed(&rt, &WriteFault::OutOfMemory, "OutOfMemory");
    assert_printed(&rt, &WriteFault::NumberTooLarge, "NumberTooLarge");
    let rp_name = Text::from_str(rt.alloc(), "Example").expect(&rt, "memory");
    assert_printed(&rt, &MissingRpId { rp_name }, "MissingRpId");
}

// These do nothing when they run; the proof shows that they can be called with concrete types.
#[test]
fn laws_at_concrete_types() {
    List::<u8>::read_back();
    Map::<Bytes, u8>::read_back();
    laws::unknown_member_is_passed_over::<PublicKeyCredentialDescriptor>();
    laws::refused_element_is_passed_over::<u8>();
    laws::same_answers_read_alike::<PublicKeyCredentialDescriptor>();
    laws::reading_knows_maps::<Request>();
    laws::unknown_member_changes_the_length_alone::<Request>();
    laws::written_keys_ascend::<PublicKeyCredentialDescriptor>();
    Request::decoded_is_coherent();
}
