//! Hash algorithms by their TPM_ALG_ID.
ghost use Rattle.std.specs.Prelude.{◌≡◌};
ghost use Rattle.passkey_tpm.specs.HashAlgorithm.{hash_at};
ghost use Rattle.passkey_tpm.specs.Parts.{begun};

use crate::part::{Begun, read_u16};
use crate::refusal::TpmField;

/// The TPM_ALG_ID of a hash algorithm (TPM 2.0 Library, Part 2, section 6.3). Any number is kept.
#[derive(Clone, Copy, Debug, PartialEq, Eq)]
pub struct HashAlgorithm(pub u16);

impl HashAlgorithm {
    /// TPM_ALG_SHA1.
    pub const SHA1: HashAlgorithm = HashAlgorithm(0x0004);

    /// TPM_ALG_SHA256.
    pub const SHA256: HashAlgorithm = HashAlgorithm(0x000B);

    /// TPM_ALG_SHA384.
    pub const SHA384: HashAlgorithm = HashAlgorithm(0x000C);

    /// TPM_ALG_SHA512.
    pub const SHA512: HashAlgorithm = HashAlgorithm(0x000D);

    /// TPM_ALG_NULL: no hash algorithm.
    pub const NULL: HashAlgorithm = HashAlgorithm(0x0010);

    /// TPM_ALG_SM3_256.
    pub const SM3_256: HashAlgorithm = HashAlgorithm(0x0012);

    /// TPM_ALG_SHA3_256.
    pub const SHA3_256: HashAlgorithm = HashAlgorithm(0x0027);

    /// TPM_ALG_SHA3_384.
    pub const SHA3_384: HashAlgorithm = HashAlgorithm(0x0028);

    /// TPM_ALG_SHA3_512.
    pub const SHA3_512: HashAlgorithm = HashAlgorithm(0x0029);
}

#[tactic(auto, unfolding(crate::specs::HashAlgorithm::hash_at))]
pub(crate) fn read_hash(field: TpmField, bytes: &[u8]) -> Begun<'_, HashAlgorithm>
    ensures { begun (λ r. (r.0, r.1.now)) result ≡ hash_at field bytes.now }
{
    let (id, rest) = read_u16(field, bytes)?;
    Ok((HashAlgorithm(id), rest))
}
