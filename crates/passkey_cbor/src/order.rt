//! CTAP2's order of map keys.
ghost use Rattle.std.specs.Prelude.{◌≡◌, ◌<◌, length};
ghost use Rattle.passkey_cbor.specs.Order.{ctap2_order};

use std::cmp::Ordering;

/// Compares two map keys by their encodings, neither of which may be empty: the lower major type
/// comes first, then the shorter encoding, then the lower bytes in lexicographic order. Allocates
/// nothing. (CTAP 2.1, section 8.)
pub fn ctap2_order(a: &[u8], b: &[u8]) -> Ordering
    requires first { 0 < length a.now }
    requires second { 0 < length b.now }
    ensures { result ≡ ctap2_order a.now b.now }
{
    (a[0] / 32)
        .cmp(&(b[0] / 32))
        .then(a.len().cmp(&b.len()))
        .then(a.cmp(b))
}
