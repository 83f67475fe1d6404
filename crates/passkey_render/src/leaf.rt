//! Data items that aren't divided.
ghost use Rattle.std.specs.Prelude.{◌≡◌, IfOk, length, string_bytes};
ghost use Rattle.uuid.specs.Text.{hyphenated_text, lower};
ghost use Rattle.passkey_render.specs.Json.{algorithm_in, algorithm_name};

use passkey_cbor::{Integer, Value};
use passkey_cbor_text::diagnose::diagnose;
use passkey_core::iana::{Algorithm, EnumI64};
use passkey_cose::signed_64;
use passkey_kinds::Wanted;
use passkey_memory::OutOfMemory;
use std::alloc::Global;
use uuid::Uuid;

/// What is wanted of an AAGUID, and of nothing else.
pub(crate) const AAGUID: Wanted = Wanted::ByteString(16);

/// Returns the algorithm with this number (IANA's registry "COSE Algorithms").
pub(crate) fn algorithm_of(number: Integer) -> Option<Algorithm>
    ensures { result ≡ algorithm_in number }
{
    match signed_64(number) {
        Some(number) => Algorithm::from_i64(number),
        None => None,
    }
}

/// Returns the algorithm's name in the registry.
pub(crate) fn algorithm_name(algorithm: Algorithm) -> &'static str
    ensures { result.now ≡ algorithm_name algorithm }
{
    match algorithm {
        Algorithm::RS1 => "RS1",
        Algorithm::RS512 => "RS512",
        Algorithm::RS384 => "RS384",
        Algorithm::RS256 => "RS256",
        Algorithm::ML_DSA_87 => "ML-DSA-87",
        Algorithm::ML_DSA_65 => "ML-DSA-65",
        Algorithm::ML_DSA_44 => "ML-DSA-44",
        Algorithm::ES256K => "ES256K",
        Algorithm::PS512 => "PS512",
        Algorithm::PS384 => "PS384",
        Algorithm::PS256 => "PS256",
        Algorithm::ES512 => "ES512",
        Algorithm::ES384 => "ES384",
        Algorithm::ECDH_ES_HKDF_256 => "ECDH-ES + HKDF-256",
        Algorithm::EdDSA => "EdDSA",
        Algorithm::ES256 => "ES256",
    }
}

/// Returns an AAGUID as a UUID (RFC 9562, section 4).
pub(crate) fn uuid_text(alloc: Global, bytes: &[u8]) -> Result<String, OutOfMemory>
    requires { length bytes.now ≡ 16 }
    ensures { IfOk result (λ s. string_bytes s ≡ hyphenated_text lower bytes.now) }
{
    let uuid = Uuid::from_slice(bytes).unwrap();
    let mut buffer = Uuid::encode_buffer();
    let text = uuid.hyphenated().encode_lower(&mut buffer);
    Ok(String::from_str(alloc, text)?)
}

fn bytes_text(alloc: Global, bytes: &[u8]) -> Result<String, OutOfMemory> {
    let digits = hex::encode(alloc, bytes)?;
    let len = bytes.len();
    let noun = if len == 1 { "byte" } else { "bytes" };
    Ok(format!(in alloc; "{len} {noun} {digits}")?)
}

/// Returns the number of an algorithm, with its name if it has one.
fn algorithm_text(alloc: Global, number: Integer) -> Result<String, OutOfMemory> {
    let text = diagnose(alloc, &Value::Integer(number))?;
    match algorithm_of(number) {
        Some(algorithm) => Ok(format!(in alloc; "{} ({text})", algorithm_name(algorithm))?),
        None => Ok(text),
    }
}

/// Returns whether a text has only letters, digits, hyphens and underscores of ASCII.
fn is_plain(text: &str) -> bool {
    text.as_bytes().iter().all(|byte| byte.is_ascii_alphanumeric()
        || *byte == b'-'
        || *byte == b'_')
}

/// Returns the text of a data item: a byte string with its length and in hexadecimal, an AAGUID as a
/// UUID, an algorithm with its name, a text where a name of the standard is wanted as it is if it is
/// plain, and others in diagnostic notation.
#[inline(never)]
pub(crate) fn leaf_text(
    alloc: Global,
    wanted: Wanted,
    value: &Value,
) -> Result<String, OutOfMemory> {
    match value {
        Value::Bytes(bytes) => {
            if wanted == AAGUID && bytes.len() == 16 {
                return uuid_text(alloc, bytes.as_slice());
            }
            bytes_text(alloc, bytes.as_slice())
        }
        Value::Text(text) if wanted == Wanted::Name && is_plain(text.as_str()) => {
            Ok(String::from_str(alloc, text.as_str())?)
        }
        Value::Integer(n) if wanted == Wanted::Algorithm => algorithm_text(alloc, *n),
        _ => diagnose(alloc, value),
    }
}
