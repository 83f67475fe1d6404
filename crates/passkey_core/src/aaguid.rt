//! Authenticators' makes and models.
ghost use Rattle.std.specs.Prelude.{◌≡◌, replicate};

/// An authenticator attestation GUID: 16 bytes that identify the authenticator's make and model, or
/// all zero if it doesn't disclose them (WebAuthn Level 3, section 6.5.1).
#[derive(Clone, Copy, Debug, PartialEq, Eq)]
pub struct Aaguid(pub [u8; 16]);

impl Aaguid {
    /// The AAGUID of 16 zero bytes.
    pub const fn new_empty() -> Aaguid
        ensures { result.0 ≡ replicate 16 0 }
    {
        Aaguid([0; 16])
    }
}

impl Default for Aaguid {
    ghost is_default = { λ aaguid. aaguid.0 ≡ replicate 16 0 };

    /// The AAGUID of 16 zero bytes.
    fn default() -> Aaguid {
        Aaguid::new_empty()
    }
}

impl From<[u8; 16]> for Aaguid {
    ghost from_gives = { λ bytes aaguid. aaguid.0 ≡ bytes };

    fn from(bytes: [u8; 16]) -> Aaguid {
        Aaguid(bytes)
    }
}
