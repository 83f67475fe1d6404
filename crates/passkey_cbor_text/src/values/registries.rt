//! Names in IANA's COSE registries: "COSE Algorithms", "COSE Key Types" and "COSE Elliptic Curves".
ghost use Rattle.std.specs.Prelude.{◌≡◌, map};
ghost use Rattle.passkey_cbor_text.specs.values.Registries.{algorithm_named, algorithms, curves, key_types, named_in, row_of};

use passkey_cbor::Integer;
use passkey_iana::{Algorithm, EnumI64};

/// The algorithms, by their names.
fn algorithms() -> &'static [(&'static str, Algorithm)]
    ensures { map row_of result.now ≡ algorithms }
{
    &[
        ("RS1", Algorithm::RS1),
        ("RS512", Algorithm::RS512),
        ("RS384", Algorithm::RS384),
        ("RS256", Algorithm::RS256),
        ("ML-DSA-87", Algorithm::ML_DSA_87),
        ("ML-DSA-65", Algorithm::ML_DSA_65),
        ("ML-DSA-44", Algorithm::ML_DSA_44),
        ("ES256K", Algorithm::ES256K),
        ("PS512", Algorithm::PS512),
        ("PS384", Algorithm::PS384),
        ("PS256", Algorithm::PS256),
        ("ES512", Algorithm::ES512),
        ("ES384", Algorithm::ES384),
        ("ECDH-ES + HKDF-256", Algorithm::ECDH_ES_HKDF_256),
        ("EdDSA", Algorithm::EdDSA),
        ("ES256", Algorithm::ES256),
    ]
}

/// The key types, by their names.
fn key_types() -> &'static [(&'static str, i64)]
    ensures { map row_of result.now ≡ key_types }
{
    &[
        ("OKP", 1),
        ("EC2", 2),
        ("RSA", 3),
        ("Symmetric", 4),
        ("HSS-LMS", 5),
        ("WalnutDSA", 6),
        ("AKP", 7),
    ]
}

/// The elliptic curves, by their names.
fn curves() -> &'static [(&'static str, i64)]
    ensures { map row_of result.now ≡ curves }
{
    &[
        ("P-256", 1),
        ("P-384", 2),
        ("P-521", 3),
        ("X25519", 4),
        ("X448", 5),
        ("Ed25519", 6),
        ("Ed448", 7),
        ("secp256k1", 8),
    ]
}

/// Returns what the first row with this name has.
pub fn named_in<T: Copy>(name: &str, rows: &[(&str, T)]) -> Option<T>
    ensures { result ≡ named_in name.now (map row_of rows.now) }
{
    for (own, value) in rows {
        if *own == name {
            return Some(*value);
        }
    }
    None
}

/// Returns the algorithm with this name.
pub(crate) fn algorithm_named(name: &str) -> Option<Algorithm>
    ensures { result ≡ algorithm_named name.now }
{
    named_in(name, algorithms())
}

/// Returns the number of the key type with this name.
pub(crate) fn key_type_named(name: &str) -> Option<i64>
    ensures { result ≡ named_in name.now key_types }
{
    named_in(name, key_types())
}

/// Returns the number of the curve with this name.
pub(crate) fn curve_named(name: &str) -> Option<i64>
    ensures { result ≡ named_in name.now curves }
{
    named_in(name, curves())
}

/// Returns the name of the algorithm with this number.
pub(crate) fn algorithm_name(number: Integer) -> Option<&'static str> {
    for (name, algorithm) in algorithms() {
        if i128::from(algorithm.to_i64()) == number.get() {
            return Some(*name);
        }
    }
    None
}

fn name_in(number: Integer, rows: &[(&'static str, i64)]) -> Option<&'static str> {
    for (name, own) in rows {
        if i128::from(*own) == number.get() {
            return Some(*name);
        }
    }
    None
}

/// Returns the name of the key type with this number.
pub(crate) fn key_type_name(number: Integer) -> Option<&'static str> {
    name_in(number, key_types())
}

/// Returns the name of the curve with this number.
pub(crate) fn curve_name(number: Integer) -> Option<&'static str> {
    name_in(number, curves())
}
