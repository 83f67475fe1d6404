//! IANA's registry "COSE Algorithms", as far as passkeys use it; mostly from RFC 9053 and RFC 8812.
ghost use Rattle.passkey_iana.specs.Iana.{algorithm_number, algorithm_named};
ghost use Rattle.passkey_iana.specs.IanaLaws.{algorithm_named-number};

use crate::enum_i64::EnumI64;

/// A signature or key agreement algorithm (IANA's registry "COSE Algorithms").
#[derive(Clone, Copy, Debug, PartialEq, Eq)]
pub enum Algorithm {
    /// RSASSA-PKCS1-v1_5 with SHA-1.
    RS1,
    /// RSASSA-PKCS1-v1_5 with SHA-512.
    RS512,
    /// RSASSA-PKCS1-v1_5 with SHA-384.
    RS384,
    /// RSASSA-PKCS1-v1_5 with SHA-256.
    RS256,
    /// ML-DSA-87.
    ML_DSA_87,
    /// ML-DSA-65.
    ML_DSA_65,
    /// ML-DSA-44.
    ML_DSA_44,
    /// ECDSA over secp256k1 with SHA-256.
    ES256K,
    /// RSASSA-PSS with SHA-512.
    PS512,
    /// RSASSA-PSS with SHA-384.
    PS384,
    /// RSASSA-PSS with SHA-256.
    PS256,
    /// ECDSA with SHA-512.
    ES512,
    /// ECDSA with SHA-384.
    ES384,
    /// ECDH of an ephemeral and a static key, with HKDF and SHA-256.
    ECDH_ES_HKDF_256,
    /// EdDSA.
    EdDSA,
    /// ECDSA with SHA-256.
    ES256,
}

impl EnumI64 for Algorithm {
    ghost number_of = { algorithm_number };

    ghost named = { algorithm_named };

    ghost numbers_name = { algorithm_named-number };

    fn from_i64(number: i64) -> Option<Algorithm> {
        match number {
            -65535 => Some(Algorithm::RS1),
            -259 => Some(Algorithm::RS512),
            -258 => Some(Algorithm::RS384),
            -257 => Some(Algorithm::RS256),
            -50 => Some(Algorithm::ML_DSA_87),
            -49 => Some(Algorithm::ML_DSA_65),
            -48 => Some(Algorithm::ML_DSA_44),
            -47 => Some(Algorithm::ES256K),
            -39 => Some(Algorithm::PS512),
            -38 => Some(Algorithm::PS384),
            -37 => Some(Algorithm::PS256),
            -36 => Some(Algorithm::ES512),
            -35 => Some(Algorithm::ES384),
            -25 => Some(Algorithm::ECDH_ES_HKDF_256),
            -8 => Some(Algorithm::EdDSA),
            -7 => Some(Algorithm::ES256),
            _ => None,
        }
    }

    fn to_i64(self) -> i64 {
        match self {
            Algorithm::RS1 => -65535,
            Algorithm::RS512 => -259,
            Algorithm::RS384 => -258,
            Algorithm::RS256 => -257,
            Algorithm::ML_DSA_87 => -50,
            Algorithm::ML_DSA_65 => -49,
            Algorithm::ML_DSA_44 => -48,
            Algorithm::ES256K => -47,
            Algorithm::PS512 => -39,
            Algorithm::PS384 => -38,
            Algorithm::PS256 => -37,
            Algorithm::ES512 => -36,
            Algorithm::ES384 => -35,
            Algorithm::ECDH_ES_HKDF_256 => -25,
            Algorithm::EdDSA => -8,
            Algorithm::ES256 => -7,
        }
    }
}
