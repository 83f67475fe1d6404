//! Authenticator data, with bytes composed by hand from WebAuthn Level 3, sections 6.1 and 6.5.1.
use crate::base::checks::{assert_same, assert_same_bytes, check};
use passkey_cbor::Value;
use passkey_core::{Aaguid, AttestedCredentialData, AuthenticatorData, Flags};
use passkey_cose::iana::KeyType;
use passkey_cose::{CoseError, CoseKey, Registered};
use std::process::Abort;

/// The SHA-256 hash of `abc` (FIPS 180-4).
const ABC: &[u8] = &[
    0xba, 0x78, 0x16, 0xbf, 0x8f, 0x01, 0xcf, 0xea, 0x41, 0x41, 0x40, 0xde, 0x5d, 0xae, 0x22, 0x23,
    0xb0, 0x03, 0x61, 0xa3, 0x96, 0x17, 0x7a, 0x9c, 0xb4, 0x10, 0xff, 0x61, 0xf2, 0x00, 0x15, 0xad,
];

fn with_hash(rt: &(impl Abort + AllocGlobal), following: &[u8]) -> Vec<u8> {
    let mut data = Vec::from_slice(rt.alloc(), ABC).expect(rt, "memory");
    data.extend_from_slice(following).expect(rt, "memory");
    data
}

fn assert_encoded(rt: &(impl Abort + AllocGlobal), data: &AuthenticatorData, following: &[u8]) {
    let encoded = data.to_vec(rt.alloc()).expect(rt, "memory");
    assert_same_bytes(rt, encoded.as_slice(), with_hash(rt, following).as_slice());
}

fn attested(rt: &(impl Abort + AllocGlobal), id: &[u8]) -> AttestedCredentialData {
    let id = Vec::from_slice(rt.alloc(), id).expect(rt, "memory");
    let key = CoseKey::new(Registered::Assigned(KeyType::EC2));
    AttestedCredentialData::new(Aaguid::from([7; 16]), id, key).expect(rt, "a short id")
}

/// The extensions of the data, or the error.
fn told(rt: &(impl Abort + AllocGlobal), data: Result<AuthenticatorData, CoseError>) -> String {
    let text = match data {
        Ok(data) => format!(in rt.alloc(); "{:?}", &data.extensions),
        Err(error) => format!(in rt.alloc(); "{error}"),
    };
    text.expect(rt, "memory")
}

/// What data decodes to whose encoding has these bytes after the hash.
fn reread(rt: &(impl Abort + AllocGlobal), following: &[u8]) -> String {
    let bytes = with_hash(rt, following);
    told(
        rt,
        AuthenticatorData::from_slice(rt.alloc(), bytes.as_slice()),
    )
}

/// Asserts that the data isn't coherent, and asserts its encoding and what the encoding decodes to.
fn assert_incoherent(
    rt: &(impl Abort + AllocGlobal),
    data: AuthenticatorData,
    following: &[u8],
    wanted: &str,
) {
    check(rt, !data.is_coherent(), "coherent", following);
    assert_encoded(rt, &data, following);
    assert_same(rt, reread(rt, following).as_str(), wanted);
}

fn with_flags(flags: Flags) -> AuthenticatorData {
    AuthenticatorData::new("abc", None).set_flags(flags)
}

fn with_extensions(flags: Flags, extensions: Value) -> AuthenticatorData {
    let mut data = with_flags(flags);
    data.extensions = Some(extensions);
    data
}

fn with_default_key(rt: &(impl Abort + AllocGlobal)) -> AuthenticatorData {
    let mut credential = attested(rt, &[9]);
    credential.key = CoseKey::default();
    AuthenticatorData::new("abc", None).set_attested_credential_data(credential)
}

// A flag alone adds nothing to the encoding, and what is there without its flag isn't decoded
// (WebAuthn Level 3, section 6.1).
#[test]
fn data_that_are_not_coherent(rt: HostRuntime) {
    let map = Value::Map(Vec::new(rt.alloc()));
    let flags = Flags::BE | Flags::BS;
    assert_incoherent(
        &rt,
        with_extensions(flags, map),
        b"\x18\0\0\0\0\xa0",
        "None",
    );
    let wanted = b"\x98\0\0\0\0";
    assert_incoherent(&rt, with_flags(Flags::ED), wanted, "DecodeFailed");
    let wanted = b"\x58\0\0\0\0";
    assert_incoherent(&rt, with_flags(Flags::AT), wanted, "DecodeFailed");
    let wanted = b"\x98\0\0\0\0\xf6";
    assert_incoherent(
        &rt,
        with_extensions(Flags::ED, Value::Null),
        wanted,
        "UnexpectedItem",
    );
    let wanted =
        b"\x58\0\0\0\0\x07\x07\x07\x07\x07\x07\x07\x07\x07\x07\x07\x07\x07\x07\x07\x07\0\x01\x09\xa1\x01\0";
    assert_incoherent(&rt, with_default_key(&rt), wanted, "UnexpectedItem");
}
