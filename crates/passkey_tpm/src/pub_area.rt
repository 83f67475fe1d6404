//! `pubArea` of a tpm attestation statement.
ghost use Rattle.std.specs.Prelude.{◌≡◌, ◌≤◌, ◌^◌, ◌⊎◌, length, not, is_some, Err, option_map, IfOk, OnOk};
ghost use Rattle.passkey_tpm.specs.Parts.{begun};
ghost use Rattle.passkey_tpm.specs.PubArea.{pub_area_parts, pub_area_at, pub_area_read, pub_area_in, pub_area_refusal};
ghost use Rattle.passkey_tpm.specs.PubArea.{pub_area_written, key_parts, IsPubArea, IsLongKey};
ghost use Rattle.passkey_tpm.specs.declared.encode_error.EncodeError.TheVariants.{TooLong};

use crate::hash_algorithm::read_hash;
use crate::part::{Begun, bytes_follow, push_sized, read_sized, read_u32};
use crate::public_key::{push_key, read_key, read_type};
use crate::refusal::{Stop, TpmField, refusal_of};
use crate::{EncodeError, HashAlgorithm, PublicKey, TpmRefusal};
use std::alloc::Global;

/// `pubArea`: a TPMT_PUBLIC, the public part of a credential's key in the TPM (WebAuthn Level 3,
/// section 8.3; TPM 2.0 Library, Part 2). Byte strings are lent, each of at most
/// 65535 bytes.
#[derive(Clone, Copy, Debug)]
pub struct PubArea<'a> {
    /// `nameAlg`: the hash algorithm of the key's name.
    pub name_alg: HashAlgorithm,
    /// `objectAttributes`: a TPMA_OBJECT, whose bits aren't checked.
    pub object_attributes: u32,
    /// `authPolicy`: a digest, or empty.
    pub auth_policy: &'a [u8],
    /// `type`, `parameters` and `unique`.
    pub key: PublicKey<'a>,
}

#[tactic(auto, unfolding(crate::specs::PubArea::pub_area_at))]
fn read_pub_area(bytes: &[u8]) -> Begun<'_, PubArea<'_>>
    ensures { begun (λ r. (pub_area_parts r.0, r.1.now)) result ≡ pub_area_at bytes.now }
{
    let (kind, rest) = read_type(bytes)?;
    let (name_alg, rest) = read_hash(TpmField::NameAlg, rest)?;
    let (object_attributes, rest) = read_u32(TpmField::ObjectAttributes, rest)?;
    let (auth_policy, rest) = read_sized(TpmField::AuthPolicy, rest)?;
    let (key, rest) = read_key(kind, rest)?;
    let area = PubArea {
        name_alg,
        object_attributes,
        auth_policy,
        key,
    };
    Ok((area, rest))
}

fn read_all(bytes: &[u8]) -> Result<PubArea<'_>, Stop>
    ensures { begun pub_area_parts result ≡ pub_area_read bytes.now }
{
    let (area, rest) = read_pub_area(bytes)?;
    if rest.is_empty() {
        Ok(area)
    } else {
        Err(bytes_follow(rest))
    }
}

/// Explains why the bytes aren't `pubArea`. Returns `None` exactly if they are, as by
/// `PubArea::from_slice`. Allocates nothing. (WebAuthn Level 3, section 8.3; TPM 2.0 Library, Part 2,
/// TPMT_PUBLIC.)
pub fn explain_pub_area(bytes: &[u8]) -> Option<TpmRefusal>
    ensures refusal { result ≡ pub_area_refusal bytes.now }
    ensures exact { is_some result ≡ not (is_some (pub_area_in bytes.now)) }
{
    match read_all(bytes) {
        Ok(_) => None,
        Err(stop) => Some(refusal_of(bytes.len(), stop)),
    }
}

impl<'a> PubArea<'a> {
    /// Decodes `pubArea`, which is all of the bytes, big-endian, a byte string with its length in 2
    /// bytes before it: the type, `nameAlg`, `objectAttributes`, `authPolicy`; then of an RSA key
    /// (type 0001) `symmetric`, `scheme`, `keyBits`, `exponent` and the modulus; and of a key on an
    /// elliptic curve (type 0023) `symmetric`, `scheme`, `curveID`, `kdf`, x and y. The TPM_ALG_ID of
    /// a hash algorithm follows that of a scheme which uses one, and `count` follows it for
    /// TPM_ALG_ECDAA. Returns `None` exactly if the bytes aren't that: they end within a member, go on
    /// after the last, or have another type, a `scheme` or `kdf` that isn't named here, whose
    /// length isn't known, or another `symmetric` than TPM_ALG_NULL: `explain_pub_area` says which.
    /// Allocates nothing. Nothing is checked of what the members mean.
    pub fn from_slice(bytes: &'a [u8]) -> Option<PubArea<'a>>
        ensures { option_map pub_area_parts result ≡ pub_area_in bytes.now }
    {
        match read_all(bytes) {
            Ok(area) => Some(area),
            Err(_) => None,
        }
    }

    /// Encodes `pubArea`. Returns `TooLong` if a byte string has more than 65535 bytes, and
    /// `OutOfMemory` if an allocation fails.
    pub fn to_vec(&self, alloc: Global) -> Result<Vec<u8>, EncodeError>
        ensures written { IfOk result (λ bytes. bytes.items ≡ pub_area_written (pub_area_parts self.now)) }
        ensures valid { OnOk result (IsPubArea (pub_area_parts self.now)) }
        ensures long { result ≡ Err TooLong → (2 ^ 16 ≤ length self.now.auth_policy.now)
            ⊎ IsLongKey (key_parts self.now.key) }
    {
        let mut out = Vec::from_slice(alloc, &self.key.kind().to_be_bytes())?;
        out.extend_from_slice(&self.name_alg.0.to_be_bytes())?;
        out.extend_from_slice(&self.object_attributes.to_be_bytes())?;
        push_sized(&mut out, self.auth_policy)?;
        push_key(&mut out, &self.key)?;
        Ok(out)
    }
}
