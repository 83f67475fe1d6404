//! Permissions of a pinUvAuthToken.
ghost use Rattle.std.specs.Prelude.{◌≡◌, ◌==◌, ◌<◌, ◌^◌};
ghost use Rattle.std.specs.Int.RustNames.{bit_and, bit_or};
ghost use Rattle.passkey_kinds.specs.Words.{below, number_tree};

use passkey_cbor::{Cursor, Encoder, Value};
use passkey_kinds::{Form, FromCbor, Look, OutOfMemory, Refusal, ToCbor, Wanted, looked};
use std::alloc::Global;
use std::marker::Model;
use std::ops::BitOr;

/// The permissions of a pinUvAuthToken, a set of bits (CTAP 2.1, section 6.5.5.7). Bits without a
/// name are kept.
#[derive(Clone, Copy, Debug, PartialEq, Eq)]
pub struct Permissions(u32);

/// Contracts see the bits.
impl Model for Permissions {
    ghost use Rattle.std.specs.Prelude.{ℕ};

    ghost Value = { ℕ };

    ghost view = { λ p. p.0 };

    ghost inverse = { λ bits. record { 0 = bits } };
}

impl Permissions {
    /// mc, bit 0: authenticatorMakeCredential. It requires a relying party id.
    pub const MAKE_CREDENTIAL: Permissions = Permissions(0x01);

    /// ga, bit 1: authenticatorGetAssertion. It requires a relying party id.
    pub const GET_ASSERTION: Permissions = Permissions(0x02);

    /// cm, bit 2: authenticatorCredentialManagement.
    pub const CREDENTIAL_MANAGEMENT: Permissions = Permissions(0x04);

    /// be, bit 3: authenticatorBioEnrollment.
    pub const BIO_ENROLLMENT: Permissions = Permissions(0x08);

    /// lbw, bit 4: writing with authenticatorLargeBlobs.
    pub const LARGE_BLOB_WRITE: Permissions = Permissions(0x10);

    /// acfg, bit 5: authenticatorConfig.
    pub const AUTHENTICATOR_CONFIGURATION: Permissions = Permissions(0x20);

    /// pcmr, bit 6: reading with authenticatorCredentialManagement, by a token that persists (CTAP
    /// 2.2).
    pub const PERSISTENT_CREDENTIAL_MANAGEMENT_READ_ONLY: Permissions = Permissions(0x40);

    /// Returns the set with these bits.
    pub fn from_bits(bits: u32) -> Permissions
        ensures { result ≡ bits }
    {
        Permissions(bits)
    }

    /// Returns the bits.
    pub fn bits(&self) -> u32
        ensures { result ≡ self.now }
    {
        self.0
    }

    /// Returns whether all permissions of the other set are in this one.
    pub fn contains(&self, other: Permissions) -> bool
        ensures { result ≡ (bit_and self.now other == other) }
    {
        self.0 & other.0 == other.0
    }
}

impl BitOr for Permissions {
    type Output = Permissions;

    ghost bitor_gives = { λ a b both. both ≡ bit_or a b };

    fn bitor(self, other: Permissions) -> Permissions {
        Permissions(self.0 | other.0)
    }
}

impl FromCbor for Permissions {
    ghost use Rattle.std.specs.Prelude.{ℕ};

    ghost Meaning = { ℕ };

    ghost view = { λ p. p };

    ghost typed = { below (2 ^ 32) };

    fn from_value(alloc: Global, value: &Value) -> Result<Permissions, Refusal> {
        Ok(Permissions(u32::from_value(alloc, value)?))
    }

    fn read(alloc: Global, cursor: &mut Cursor<'_>) -> Result<Permissions, Refusal> {
        Ok(Permissions(u32::read(alloc, cursor)?))
    }

    fn look(alloc: Global, _way: &[u8], value: &Value) -> Result<Look, OutOfMemory> {
        looked(
            Permissions::from_value(alloc, value),
            Form::Leaf(Wanted::Below(4_294_967_296)),
        )
    }
}

impl ToCbor for Permissions {
    ghost tree = { number_tree };

    ghost fits = { λ p. p < 2 ^ 32 };

    fn to_value(&self, alloc: Global) -> Result<Value, OutOfMemory> {
        self.0.to_value(alloc)
    }

    fn append(&self, alloc: Global, encoder: &mut Encoder) -> Result<(), OutOfMemory> {
        self.0.append(alloc, encoder)
    }
}
