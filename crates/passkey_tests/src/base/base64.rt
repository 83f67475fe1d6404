//! Base64 and base64url (RFC 4648).
use crate::base::checks::check_text;
use passkey_bytes::encoding::try_from_base64url;
use passkey_bytes::{Bytes, BytesFault, NotBase64Encoded};
use std::process::Abort;

/// RFC 4648, table 1.
const STANDARD_ALPHABET: &str = "ABCDEFGHIJKLMNOPQRSTUVWXYZabcdefghijklmnopqrstuvwxyz0123456789+/";

/// The bytes that are encoded as the symbols of the values 0 to 63, in this order.
const ALL_VALUES: &[u8] = &[
    0x00, 0x10, 0x83, 0x10, 0x51, 0x87, 0x20, 0x92, 0x8b, 0x30, 0xd3, 0x8f, 0x41, 0x14, 0x93, 0x51,
    0x55, 0x97, 0x61, 0x96, 0x9b, 0x71, 0xd7, 0x9f, 0x82, 0x18, 0xa3, 0x92, 0x59, 0xa7, 0xa2, 0x9a,
    0xab, 0xb2, 0xdb, 0xaf, 0xc3, 0x1c, 0xb3, 0xd3, 0x5d, 0xb7, 0xe3, 0x9e, 0xbb, 0xf3, 0xdf, 0xbf,
];

fn url_decoded(rt: &(impl Abort + AllocGlobal), text: &str) -> Vec<u8> {
    let found = try_from_base64url(rt.alloc(), text).expect(rt, "memory");
    found.expect(rt, "base64url")
}

fn is_url_refused(rt: &(impl Abort + AllocGlobal), text: &str) -> bool {
    let found = try_from_base64url(rt.alloc(), text).expect(rt, "memory");
    found.is_none()
}

fn decoded(rt: &(impl Abort + AllocGlobal), text: &str) -> Bytes {
    Bytes::try_from(rt.alloc(), text).expect(rt, "base64url or base64")
}

fn is_refused(rt: &(impl Abort + AllocGlobal), text: &str) -> bool {
    let refused = BytesFault::NotBase64Encoded(NotBase64Encoded);
    Bytes::try_from(rt.alloc(), text).err() == Some(refused)
}

/// Texts that are base64url, and their bytes: those of section 10 and of table 2 of RFC 4648; the
/// last four bits of two symbols, and the last two bits of three symbols, are ignored (section 3.5).
const URL_TEXTS: &[(&str, &[u8])] = &[
    ("Zg==", b"f"),
    ("Zm8=", b"fo"),
    ("Zm9v", b"foo"),
    ("Zm9vYg==", b"foob"),
    ("Zm9vYmE=", b"fooba"),
    ("Zm9vYmFy", b"foobar"),
    (
        "ABCDEFGHIJKLMNOPQRSTUVWXYZabcdefghijklmnopqrstuvwxyz0123456789-_",
        ALL_VALUES,
    ),
    ("_w", &[0xff]),
    ("_x", &[0xff]),
    ("_y", &[0xff]),
    ("_z", &[0xff]),
    ("_0", &[0xff]),
    ("_1", &[0xff]),
    ("_2", &[0xff]),
    ("_3", &[0xff]),
    ("_4", &[0xff]),
    ("_5", &[0xff]),
    ("_6", &[0xff]),
    ("_7", &[0xff]),
    ("_8", &[0xff]),
    ("_9", &[0xff]),
    ("_-", &[0xff]),
    ("__", &[0xff]),
    ("__8", &[0xff, 0xff]),
    ("__9", &[0xff, 0xff]),
    ("__-", &[0xff, 0xff]),
    ("___", &[0xff, 0xff]),
    ("__9=", &[0xff, 0xff]),
    ("___==", &[0xff, 0xff]),
];

/// Texts that aren't base64url.
const NO_URL_TEXTS: &[&str] = &[
    "A",
    "A===",
    "Zm9vY",
    " ",
    " Zg",
    "Zg ",
    "Zg\n",
    "Z g",
    "Zg=g",
    "=Zg",
    "Zg==\n",
    "Zg.",
    "Z\u{e9}",
    "/w",
    STANDARD_ALPHABET,
];

/// Texts that are base64url, or else base64 in which the last symbol has no bit set after the last
/// byte, and their bytes.
const TEXTS: &[(&str, &[u8])] = &[
    ("", &[]),
    ("====", &[]),
    ("_w", &[0xff]),
    ("-x", &[0xfb]),
    ("/w", &[0xff]),
    ("+w", &[0xfb]),
    ("/g", &[0xfe]),
    ("//8", &[0xff, 0xff]),
    ("//4", &[0xff, 0xfe]),
    ("ZcPUob9wS72YNHkRPnFypA==", IDENTIFIER),
    ("ZcPUob9wS72YNHkRPnFypA", IDENTIFIER),
    (STANDARD_ALPHABET, ALL_VALUES),
];

/// Texts that are neither.
const OTHER_TEXTS: &[&str] = &[
    "/x", "/+", "//", "//9", "//+", "///", "+x", "-/", "A", "A===", "AAAAA", " ", "_w ", "\n_w",
    "_w\t", "=_w", "_w..",
];

/// A credential id.
const IDENTIFIER: &[u8] = &[
    0x65, 0xc3, 0xd4, 0xa1, 0xbf, 0x70, 0x4b, 0xbd, 0x98, 0x34, 0x79, 0x11, 0x3e, 0x71, 0x72, 0xa4,
];

#[test]
fn texts_are_decoded(rt: HostRuntime) {
    for (text, wanted) in URL_TEXTS {
        let found = url_decoded(&rt, text);
        check_text(&rt, found.as_slice() == *wanted, "base64url", text);
    }
    for text in NO_URL_TEXTS {
        check_text(&rt, is_url_refused(&rt, text), "no base64url", text);
    }
    for (text, wanted) in TEXTS {
        let found = decoded(&rt, text);
        check_text(&rt, found.as_slice() == *wanted, "either", text);
    }
    for text in OTHER_TEXTS {
        check_text(&rt, is_refused(&rt, text), "neither", text);
    }
}
