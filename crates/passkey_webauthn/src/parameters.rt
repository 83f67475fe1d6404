//! Credential parameters.
ghost use Rattle.std.specs.Prelude.{◌≡◌, IfOk};
ghost use Rattle.passkey_webauthn.specs.Parameters.{default_parameters, public_keys_of};

use crate::credential_type::PublicKeyCredentialType;
use passkey_bytes::List;
use passkey_iana::Algorithm;
use passkey_memory::OutOfMemory;
use std::alloc::Global;

/// A credential type and an algorithm that a relying party supports (WebAuthn Level 3, section
/// 5.3).
#[derive(Clone, Copy, Debug, PartialEq, Eq)]
pub struct PublicKeyCredentialParameters {
    /// The credential type.
    pub ty: PublicKeyCredentialType,
    /// The signature algorithm of the new key.
    pub alg: Algorithm,
}

impl PublicKeyCredentialParameters {
    /// Returns the parameters that an empty list means: public keys with ES256, then with RS256
    /// (WebAuthn Level 3, section 5.1.3). `OutOfMemory` if an allocation fails.
    pub fn default_algorithms(
        alloc: Global,
    ) -> Result<List<PublicKeyCredentialParameters>, OutOfMemory>
        ensures { IfOk result (λ parameters. parameters ≡ default_parameters) }
    {
        Ok(List::from(vec![in alloc;
            PublicKeyCredentialParameters::from(Algorithm::ES256),
            PublicKeyCredentialParameters::from(Algorithm::RS256),
        ]?))
    }
}

impl From<Algorithm> for PublicKeyCredentialParameters {
    ghost from_gives = { λ algorithm parameters. parameters ≡ public_keys_of algorithm };

    /// A public-key credential with this algorithm.
    fn from(algorithm: Algorithm) -> PublicKeyCredentialParameters {
        PublicKeyCredentialParameters {
            ty: PublicKeyCredentialType::PublicKey,
            alg: algorithm,
        }
    }
}
