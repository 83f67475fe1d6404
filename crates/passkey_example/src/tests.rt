//! How your own crate tests its code.
use crate::verifies_users;
use passkey_types::ctap2::Fault;

#[test]
fn users_that_are_verified(rt: HostRuntime) {
    let rows: [(&[u8], Result<bool, Fault>); 3] = [
        // {1: [], 3: h'00..00'}
        (
            b"\xa2\x01\x80\x03\x50\0\0\0\0\0\0\0\0\0\0\0\0\0\0\0\0",
            Ok(false),
        ),
        // {1: [], 3: h'00..00', 4: {"uv": true}}
        (
            b"\xa3\x01\x80\x03\x50\0\0\0\0\0\0\0\0\0\0\0\0\0\0\0\0\x04\xa1\x62uv\xf5",
            Ok(true),
        ),
        (b"\xa0", Err(Fault::Missing(1))),
    ];
    for (message, wanted) in rows {
        assert_eq!(rt;
            verifies_users(rt.alloc(), message),
            wanted,
            "of {message:?}"
        );
    }
}
