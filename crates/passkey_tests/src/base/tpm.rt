//! Structures of a TPM.
use passkey_tpm::{EncodeError, PubArea};
use std::process::Abort;

/// A key of ECC (TPM 2.0 Library, Part 2, TPMT_PUBLIC): P-521, with a policy of one byte.
const KEY: [u8; 31] = [
    0x00, 0x23, 0x00, 0x0b, 0x00, 0x06, 0x04, 0x72, 0x00, 0x01, 0x09, 0x00, 0x10, 0x00, 0x18, 0x00,
    0x0c, 0x00, 0x05, 0x00, 0x10, 0x00, 0x03, 0x01, 0x01, 0x01, 0x00, 0x03, 0x02, 0x02, 0x02,
];

/// The length of the key's encoding with this policy.
fn encoded_len(
    rt: &(impl Abort + AllocGlobal),
    area: PubArea<'_>,
    auth_policy: &[u8],
) -> Result<usize, EncodeError> {
    let area = PubArea {
        auth_policy,
        ..area
    };
    let bytes = area.to_vec(rt.alloc())?;
    Ok(bytes.len())
}

// A length has two bytes: 65,535 bytes are encoded, and 65,536 are too long, whatever memory there is.
#[test]
fn a_policy_has_at_most_65535_bytes(rt: HostRuntime) {
    let area = PubArea::from_slice(&KEY).expect(&rt, "a key");
    let policy = [0u8; 65_536];
    assert_eq!(rt; encoded_len(&rt, area, &policy[1..]), Ok(65_565));
    assert_eq!(rt; encoded_len(&rt, area, &policy), Err(EncodeError::TooLong));
}
