//! Schemes of keys, and of the derivation of keys.
ghost use Rattle.std.specs.Prelude.{◌≡◌, ◌++◌, OnOk};
ghost use Rattle.std.specs.Int.{w16, to_be_bytes};
ghost use Rattle.passkey_tpm.specs.HashAlgorithm.{IsHash};
ghost use Rattle.passkey_tpm.specs.Parts.{begun};
ghost use Rattle.passkey_tpm.specs.Scheme.{rsa_scheme_at, ecdaa_at, ecc_scheme_at, kdf_at, rsa_scheme_written};
ghost use Rattle.passkey_tpm.specs.Scheme.{ecc_scheme_written, kdf_written, hash_written, IsRsaScheme, IsEccScheme, IsKdf};

use crate::HashAlgorithm;
use crate::hash_algorithm::read_hash;
use crate::part::{Begun, read_u16, refused};
use crate::refusal::{TpmField, TpmReason};
use passkey_memory::OutOfMemory;

/// TPM_ALG_NULL.
pub(crate) const NULL: u16 = 0x0010;

/// TPMT_RSA_SCHEME: the scheme of an RSA key (TPM 2.0 Library, Part 2).
#[derive(Clone, Copy, Debug, PartialEq, Eq)]
pub enum RsaScheme {
    /// 0x0010, TPM_ALG_NULL: the key may be used with any scheme.
    Null,
    /// 0x0014: TPM_ALG_RSASSA.
    RsaSsa(HashAlgorithm),
    /// 0x0015: TPM_ALG_RSAES.
    RsaEs,
    /// 0x0016: TPM_ALG_RSAPSS.
    RsaPss(HashAlgorithm),
    /// 0x0017: TPM_ALG_OAEP.
    Oaep(HashAlgorithm),
}

/// TPMT_ECC_SCHEME: the scheme of a key on an elliptic curve (TPM 2.0 Library, Part 2).
#[derive(Clone, Copy, Debug, PartialEq, Eq)]
pub enum EccScheme {
    /// 0x0010, TPM_ALG_NULL: the key may be used with any scheme.
    Null,
    /// 0x0018: TPM_ALG_ECDSA.
    Ecdsa(HashAlgorithm),
    /// 0x0019: TPM_ALG_ECDH.
    Ecdh(HashAlgorithm),
    /// 0x001A: TPM_ALG_ECDAA, with `count`, the counter of its commit.
    Ecdaa(HashAlgorithm, u16),
    /// 0x001B: TPM_ALG_SM2.
    Sm2(HashAlgorithm),
    /// 0x001C: TPM_ALG_ECSCHNORR.
    EcSchnorr(HashAlgorithm),
    /// 0x001D: TPM_ALG_ECMQV.
    EcMqv(HashAlgorithm),
}

/// TPMT_KDF_SCHEME: how keys are derived from a key on an elliptic curve (TPM 2.0 Library, Part 2).
#[derive(Clone, Copy, Debug, PartialEq, Eq)]
pub enum KdfScheme {
    /// 0x0010, TPM_ALG_NULL: no keys are derived.
    Null,
    /// 0x0007: TPM_ALG_MGF1.
    Mgf1(HashAlgorithm),
    /// 0x0020: TPM_ALG_KDF1_SP800_56A.
    Kdf1Sp80056a(HashAlgorithm),
    /// 0x0021: TPM_ALG_KDF2.
    Kdf2(HashAlgorithm),
    /// 0x0022: TPM_ALG_KDF1_SP800_108.
    Kdf1Sp800108(HashAlgorithm),
}

#[tactic(auto, unfolding(crate::specs::Scheme::rsa_scheme_at))]
pub(crate) fn read_rsa_scheme(bytes: &[u8]) -> Begun<'_, RsaScheme>
    ensures { begun (λ r. (r.0, r.1.now)) result ≡ rsa_scheme_at bytes.now }
{
    let (id, rest) = read_u16(TpmField::Scheme, bytes)?;
    match id {
        0x0010 => Ok((RsaScheme::Null, rest)),
        0x0014 => {
            let (hash, rest) = read_hash(TpmField::SchemeHash, rest)?;
            Ok((RsaScheme::RsaSsa(hash), rest))
        }
        0x0015 => Ok((RsaScheme::RsaEs, rest)),
        0x0016 => {
            let (hash, rest) = read_hash(TpmField::SchemeHash, rest)?;
            Ok((RsaScheme::RsaPss(hash), rest))
        }
        0x0017 => {
            let (hash, rest) = read_hash(TpmField::SchemeHash, rest)?;
            Ok((RsaScheme::Oaep(hash), rest))
        }
        _ => Err(refused(TpmField::Scheme, bytes, 2, TpmReason::Unknown)),
    }
}

#[tactic(auto, unfolding(crate::specs::Scheme::ecdaa_at))]
fn read_ecdaa(bytes: &[u8]) -> Begun<'_, EccScheme>
    ensures { begun (λ r. (r.0, r.1.now)) result ≡ ecdaa_at bytes.now }
{
    let (hash, rest) = read_hash(TpmField::SchemeHash, bytes)?;
    let (count, rest) = read_u16(TpmField::SchemeCount, rest)?;
    Ok((EccScheme::Ecdaa(hash, count), rest))
}

#[tactic(auto, unfolding(crate::specs::Scheme::ecc_scheme_at))]
pub(crate) fn read_ecc_scheme(bytes: &[u8]) -> Begun<'_, EccScheme>
    ensures { begun (λ r. (r.0, r.1.now)) result ≡ ecc_scheme_at bytes.now }
{
    let (id, rest) = read_u16(TpmField::Scheme, bytes)?;
    match id {
        0x0010 => Ok((EccScheme::Null, rest)),
        0x0018 => {
            let (hash, rest) = read_hash(TpmField::SchemeHash, rest)?;
            Ok((EccScheme::Ecdsa(hash), rest))
        }
        0x0019 => {
            let (hash, rest) = read_hash(TpmField::SchemeHash, rest)?;
            Ok((EccScheme::Ecdh(hash), rest))
        }
        0x001A => read_ecdaa(rest),
        0x001B => {
            let (hash, rest) = read_hash(TpmField::SchemeHash, rest)?;
            Ok((EccScheme::Sm2(hash), rest))
        }
        0x001C => {
            let (hash, rest) = read_hash(TpmField::SchemeHash, rest)?;
            Ok((EccScheme::EcSchnorr(hash), rest))
        }
        0x001D => {
            let (hash, rest) = read_hash(TpmField::SchemeHash, rest)?;
            Ok((EccScheme::EcMqv(hash), rest))
        }
        _ => Err(refused(TpmField::Scheme, bytes, 2, TpmReason::Unknown)),
    }
}

#[tactic(auto, unfolding(crate::specs::Scheme::kdf_at))]
pub(crate) fn read_kdf(bytes: &[u8]) -> Begun<'_, KdfScheme>
    ensures { begun (λ r. (r.0, r.1.now)) result ≡ kdf_at bytes.now }
{
    let (id, rest) = read_u16(TpmField::Kdf, bytes)?;
    match id {
        0x0010 => Ok((KdfScheme::Null, rest)),
        0x0007 => {
            let (hash, rest) = read_hash(TpmField::KdfHash, rest)?;
            Ok((KdfScheme::Mgf1(hash), rest))
        }
        0x0020 => {
            let (hash, rest) = read_hash(TpmField::KdfHash, rest)?;
            Ok((KdfScheme::Kdf1Sp80056a(hash), rest))
        }
        0x0021 => {
            let (hash, rest) = read_hash(TpmField::KdfHash, rest)?;
            Ok((KdfScheme::Kdf2(hash), rest))
        }
        0x0022 => {
            let (hash, rest) = read_hash(TpmField::KdfHash, rest)?;
            Ok((KdfScheme::Kdf1Sp800108(hash), rest))
        }
        _ => Err(refused(TpmField::Kdf, bytes, 2, TpmReason::Unknown)),
    }
}

/// Appends a scheme's TPM_ALG_ID and its hash algorithm's.
fn push_hashed(out: &mut Vec<u8>, id: u16, hash: HashAlgorithm) -> Result<(), OutOfMemory>
    ensures written { OnOk result (out.new.items ≡ out.old.items ++ (to_be_bytes w16 id ++ hash_written hash)) }
    ensures valid { IsHash hash }
{
    out.extend_from_slice(&id.to_be_bytes())?;
    out.extend_from_slice(&hash.0.to_be_bytes())?;
    Ok(())
}

pub(crate) fn push_rsa_scheme(out: &mut Vec<u8>, scheme: RsaScheme) -> Result<(), OutOfMemory>
    ensures written { OnOk result (out.new.items ≡ out.old.items ++ rsa_scheme_written scheme) }
    ensures valid { IsRsaScheme scheme }
{
    match scheme {
        RsaScheme::Null => out.extend_from_slice(&NULL.to_be_bytes())?,
        RsaScheme::RsaSsa(hash) => push_hashed(out, 0x0014, hash)?,
        RsaScheme::RsaEs => out.extend_from_slice(&0x0015_u16.to_be_bytes())?,
        RsaScheme::RsaPss(hash) => push_hashed(out, 0x0016, hash)?,
        RsaScheme::Oaep(hash) => push_hashed(out, 0x0017, hash)?,
    }
    Ok(())
}

#[tactic(auto, using(std::proofs::lemmas::List::append_assoc))]
fn push_ecdaa(out: &mut Vec<u8>, hash: HashAlgorithm, count: u16) -> Result<(), OutOfMemory>
    ensures written { OnOk result (out.new.items
        ≡ out.old.items ++ (to_be_bytes w16 0x001A ++ hash_written hash ++ to_be_bytes w16 count)) }
    ensures valid { IsHash hash }
{
    push_hashed(out, 0x001A, hash)?;
    out.extend_from_slice(&count.to_be_bytes())?;
    Ok(())
}

pub(crate) fn push_ecc_scheme(out: &mut Vec<u8>, scheme: EccScheme) -> Result<(), OutOfMemory>
    ensures written { OnOk result (out.new.items ≡ out.old.items ++ ecc_scheme_written scheme) }
    ensures valid { IsEccScheme scheme }
{
    match scheme {
        EccScheme::Null => out.extend_from_slice(&NULL.to_be_bytes())?,
        EccScheme::Ecdsa(hash) => push_hashed(out, 0x0018, hash)?,
        EccScheme::Ecdh(hash) => push_hashed(out, 0x0019, hash)?,
        EccScheme::Ecdaa(hash, count) => push_ecdaa(out, hash, count)?,
        EccScheme::Sm2(hash) => push_hashed(out, 0x001B, hash)?,
        EccScheme::EcSchnorr(hash) => push_hashed(out, 0x001C, hash)?,
        EccScheme::EcMqv(hash) => push_hashed(out, 0x001D, hash)?,
    }
    Ok(())
}

pub(crate) fn push_kdf(out: &mut Vec<u8>, scheme: KdfScheme) -> Result<(), OutOfMemory>
    ensures written { OnOk result (out.new.items ≡ out.old.items ++ kdf_written scheme) }
    ensures valid { IsKdf scheme }
{
    match scheme {
        KdfScheme::Null => out.extend_from_slice(&NULL.to_be_bytes())?,
        KdfScheme::Mgf1(hash) => push_hashed(out, 0x0007, hash)?,
        KdfScheme::Kdf1Sp80056a(hash) => push_hashed(out, 0x0020, hash)?,
        KdfScheme::Kdf2(hash) => push_hashed(out, 0x0021, hash)?,
        KdfScheme::Kdf1Sp800108(hash) => push_hashed(out, 0x0022, hash)?,
    }
    Ok(())
}
