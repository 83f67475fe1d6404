//! The structures of a TPM, by the names of their members (TPM 2.0 Library, Part 2).

use crate::examine::{Examined, accepted};
use crate::refusal::{refused, structure_refused};
use passkey_cbor::{Integer, Value};
use passkey_cose::CoseError;
use passkey_explain::{Description, FieldName};
use passkey_kinds::Wanted;
use passkey_memory::OutOfMemory;
use passkey_tpm::{
    CertInfo, ClockInfo, Curve, EccKey, EccScheme, HashAlgorithm, KdfScheme, PubArea, PublicKey,
    RsaKey, RsaScheme, explain_cert_info, explain_pub_area,
};
use std::alloc::Global;

/// The members of a structure that are described so far.
#[derive(Drop)]
struct Fields {
    alloc: Global,
    fields: Vec<(FieldName, Description)>,
}

impl Fields {
    fn new(alloc: Global) -> Fields {
        Fields {
            alloc,
            fields: Vec::new(alloc),
        }
    }

    fn push(&mut self, name: &'static str, description: Description) -> Result<(), OutOfMemory> {
        Ok(self.fields.push((FieldName::Member(0, name), description))?)
    }

    fn bytes(&mut self, name: &'static str, bytes: &[u8]) -> Result<(), OutOfMemory> {
        let value = Value::Bytes(Vec::from_slice(self.alloc, bytes)?);
        self.push(name, Description::Leaf(Wanted::Bytes, value))
    }

    fn word(&mut self, name: &'static str, text: &str) -> Result<(), OutOfMemory> {
        let value = Value::Text(String::from_str(self.alloc, text)?);
        self.push(name, Description::Leaf(Wanted::Name, value))
    }

    fn number(&mut self, name: &'static str, number: u64) -> Result<(), OutOfMemory> {
        // A number of 64 bits is one of CBOR's.
        let value = Integer::new(i128::from(number)).map_or(Value::Null, Value::Integer);
        self.push(name, Description::Leaf(Wanted::Any, value))
    }

    fn truth(&mut self, name: &'static str, truth: bool) -> Result<(), OutOfMemory> {
        self.push(name, Description::Leaf(Wanted::Boolean, Value::Bool(truth)))
    }

    /// The name that the standard has for the number, or the number.
    fn named(&mut self, name: &'static str, word: &str, number: u16) -> Result<(), OutOfMemory> {
        if word.is_empty() {
            self.number(name, u64::from(number))
        } else {
            self.word(name, word)
        }
    }

    fn hash(&mut self, name: &'static str, hash: HashAlgorithm) -> Result<(), OutOfMemory> {
        self.named(name, hash_name(hash), hash.0)
    }

    fn done(self) -> Description {
        Description::Record(self.fields)
    }
}

fn hash_name(hash: HashAlgorithm) -> &'static str {
    match hash {
        HashAlgorithm::SHA1 => "SHA1",
        HashAlgorithm::SHA256 => "SHA256",
        HashAlgorithm::SHA384 => "SHA384",
        HashAlgorithm::SHA512 => "SHA512",
        HashAlgorithm::NULL => "NULL",
        HashAlgorithm::SM3_256 => "SM3_256",
        HashAlgorithm::SHA3_256 => "SHA3_256",
        HashAlgorithm::SHA3_384 => "SHA3_384",
        HashAlgorithm::SHA3_512 => "SHA3_512",
        _ => "",
    }
}

fn describe_clock(alloc: Global, clock: &ClockInfo) -> Result<Description, OutOfMemory> {
    let mut fields = Fields::new(alloc);
    fields.number("clock", clock.clock)?;
    fields.number("resetCount", u64::from(clock.reset_count))?;
    fields.number("restartCount", u64::from(clock.restart_count))?;
    match clock.safe {
        0 => fields.truth("safe", false)?,
        1 => fields.truth("safe", true)?,
        other => fields.number("safe", u64::from(other))?,
    }
    Ok(fields.done())
}

fn describe_cert_info(alloc: Global, info: &CertInfo<'_>) -> Result<Description, OutOfMemory> {
    let mut fields = Fields::new(alloc);
    fields.bytes("qualifiedSigner", info.qualified_signer)?;
    fields.bytes("extraData", info.extra_data)?;
    fields.push("clockInfo", describe_clock(alloc, &info.clock_info)?)?;
    fields.number("firmwareVersion", info.firmware_version)?;
    fields.bytes("name", info.name)?;
    fields.bytes("qualifiedName", info.qualified_name)?;
    Ok(fields.done())
}

/// Appends a scheme, and the hash algorithm that it uses.
fn push_scheme(
    fields: &mut Fields,
    name: &str,
    hash: Option<HashAlgorithm>,
) -> Result<(), OutOfMemory> {
    fields.word("scheme", name)?;
    match hash {
        Some(hash) => fields.hash("hashAlg", hash),
        None => Ok(()),
    }
}

fn rsa_scheme(scheme: RsaScheme) -> (&'static str, Option<HashAlgorithm>) {
    match scheme {
        RsaScheme::Null => ("NULL", None),
        RsaScheme::RsaSsa(hash) => ("RSASSA", Some(hash)),
        RsaScheme::RsaEs => ("RSAES", None),
        RsaScheme::RsaPss(hash) => ("RSAPSS", Some(hash)),
        RsaScheme::Oaep(hash) => ("OAEP", Some(hash)),
    }
}

fn ecc_scheme(scheme: EccScheme) -> (&'static str, Option<HashAlgorithm>) {
    match scheme {
        EccScheme::Null => ("NULL", None),
        EccScheme::Ecdsa(hash) => ("ECDSA", Some(hash)),
        EccScheme::Ecdh(hash) => ("ECDH", Some(hash)),
        EccScheme::Ecdaa(hash, _) => ("ECDAA", Some(hash)),
        EccScheme::Sm2(hash) => ("SM2", Some(hash)),
        EccScheme::EcSchnorr(hash) => ("ECSCHNORR", Some(hash)),
        EccScheme::EcMqv(hash) => ("ECMQV", Some(hash)),
    }
}

fn kdf_scheme(scheme: KdfScheme) -> (&'static str, Option<HashAlgorithm>) {
    match scheme {
        KdfScheme::Null => ("NULL", None),
        KdfScheme::Mgf1(hash) => ("MGF1", Some(hash)),
        KdfScheme::Kdf1Sp80056a(hash) => ("KDF1_SP800_56A", Some(hash)),
        KdfScheme::Kdf2(hash) => ("KDF2", Some(hash)),
        KdfScheme::Kdf1Sp800108(hash) => ("KDF1_SP800_108", Some(hash)),
    }
}

fn describe_kdf(alloc: Global, kdf: KdfScheme) -> Result<Description, OutOfMemory> {
    let (name, hash) = kdf_scheme(kdf);
    let mut fields = Fields::new(alloc);
    push_scheme(&mut fields, name, hash)?;
    Ok(fields.done())
}

fn curve_name(curve: Curve) -> &'static str {
    match curve {
        Curve::P192 => "NIST_P192",
        Curve::P224 => "NIST_P224",
        Curve::P256 => "NIST_P256",
        Curve::P384 => "NIST_P384",
        Curve::P521 => "NIST_P521",
        Curve::BN_P256 => "BN_P256",
        Curve::BN_P638 => "BN_P638",
        Curve::SM2_P256 => "SM2_P256",
        _ => "",
    }
}

fn push_rsa(fields: &mut Fields, key: &RsaKey<'_>) -> Result<(), OutOfMemory> {
    let (name, hash) = rsa_scheme(key.scheme);
    push_scheme(fields, name, hash)?;
    fields.number("keyBits", u64::from(key.key_bits))?;
    fields.number("exponent", u64::from(key.exponent))?;
    fields.bytes("unique", key.modulus)
}

fn push_ecc(fields: &mut Fields, key: &EccKey<'_>) -> Result<(), OutOfMemory> {
    let (name, hash) = ecc_scheme(key.scheme);
    push_scheme(fields, name, hash)?;
    if let EccScheme::Ecdaa(_, count) = key.scheme {
        fields.number("count", u64::from(count))?;
    }
    fields.named("curveID", curve_name(key.curve), key.curve.0)?;
    if key.kdf != KdfScheme::Null {
        let kdf = describe_kdf(fields.alloc, key.kdf)?;
        fields.push("kdf", kdf)?;
    }
    fields.bytes("x", key.x)?;
    fields.bytes("y", key.y)
}

fn describe_pub_area(alloc: Global, area: &PubArea<'_>) -> Result<Description, OutOfMemory> {
    let mut fields = Fields::new(alloc);
    let kind = match area.key {
        PublicKey::Rsa(_) => "RSA",
        PublicKey::Ecc(_) => "ECC",
    };
    fields.word("type", kind)?;
    fields.hash("nameAlg", area.name_alg)?;
    fields.number("objectAttributes", u64::from(area.object_attributes))?;
    fields.bytes("authPolicy", area.auth_policy)?;
    match &area.key {
        PublicKey::Rsa(key) => push_rsa(&mut fields, key)?,
        PublicKey::Ecc(key) => push_ecc(&mut fields, key)?,
    }
    Ok(fields.done())
}

/// Examines `certInfo` of a tpm attestation statement, which is all of the bytes.
pub fn examine_cert_info(alloc: Global, bytes: &[u8]) -> Result<Examined, OutOfMemory> {
    if let Some(refusal) = explain_cert_info(bytes) {
        return structure_refused(alloc, refusal);
    }
    match CertInfo::from_slice(bytes) {
        Some(info) => Ok(accepted(alloc, describe_cert_info(alloc, &info)?, bytes.len())),
        None => refused(alloc, CoseError::DecodeFailed),
    }
}

/// Examines `pubArea` of a tpm attestation statement, which is all of the bytes.
pub fn examine_pub_area(alloc: Global, bytes: &[u8]) -> Result<Examined, OutOfMemory> {
    if let Some(refusal) = explain_pub_area(bytes) {
        return structure_refused(alloc, refusal);
    }
    match PubArea::from_slice(bytes) {
        Some(area) => Ok(accepted(alloc, describe_pub_area(alloc, &area)?, bytes.len())),
        None => refused(alloc, CoseError::DecodeFailed),
    }
}
