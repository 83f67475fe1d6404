//! The flags of authenticator data (WebAuthn Level 3, section 6.1).
ghost use Rattle.std.specs.Prelude.{⊤, ◌≡◌, ◌↔◌, ◌-◌, IsOk, IfOk};
ghost use Rattle.std.specs.Int.RustNames.{bit_and, bit_or, bit_xor};
ghost use Rattle.passkey_core.specs.Flags.{flag_bits, known_flags, reserved_flags};

use bitflags::Flag;
use std::ops::{
    BitAnd, BitAndAssign, BitOr, BitOrAssign, BitXor, BitXorAssign, Not, Sub, SubAssign,
};

/// The flags of authenticator data, one byte. The reserved bits 1 and 5 are set only in a value
/// from `from_bits_retain` of `bitflags::Flags` (WebAuthn Level 3, section 6.1).
#[derive(Clone, Copy, Debug, PartialEq, Eq)]
pub struct Flags(u8);

impl Flags {
    /// UP, bit 0: the user is present.
    pub const UP: Flags = Flags(1);

    /// UV, bit 2: the user is verified.
    pub const UV: Flags = Flags(4);

    /// BE, bit 3: the credential may be backed up.
    pub const BE: Flags = Flags(8);

    /// BS, bit 4: the credential is backed up. It must not be set without BE.
    pub const BS: Flags = Flags(16);

    /// AT, bit 6: attested credential data is present.
    pub const AT: Flags = Flags(64);

    /// ED, bit 7: extension outputs are present.
    pub const ED: Flags = Flags(128);

    const TABLE: &'static [Flag<Flags>] = &[
        Flag {
            name: "UP",
            value: Flags::UP,
        },
        Flag {
            name: "UV",
            value: Flags::UV,
        },
        Flag {
            name: "BE",
            value: Flags::BE,
        },
        Flag {
            name: "BS",
            value: Flags::BS,
        },
        Flag {
            name: "AT",
            value: Flags::AT,
        },
        Flag {
            name: "ED",
            value: Flags::ED,
        },
    ];

    const KNOWN: u8 = 0b1101_1101;
}

impl bitflags::Flags for Flags {
    type Bits = u8;

    ghost exact = { ⊤ };

    ghost table = { flag_bits };

    ghost set_of = { λ flags. flags.0 };

    fn flags<'a>() -> &'a [Flag<Flags>] {
        Flags::TABLE
    }

    fn bits(&self) -> u8 {
        u8::from(*self)
    }

    fn from_bits_retain(bits: u8) -> Flags {
        Flags(bits)
    }
}

impl BitOr for Flags {
    type Output = Flags;

    ghost bitor_gives = { λ a b both. both.0 ≡ bit_or a.0 b.0 };

    fn bitor(self, other: Flags) -> Flags {
        Flags(self.0 | other.0)
    }
}

impl BitOrAssign for Flags {
    ghost bitor_assign_gives = { λ a b both. both.0 ≡ bit_or a.0 b.0 };

    fn bitor_assign(&mut self, other: Flags) {
        self.0 |= other.0;
    }
}

impl BitAnd for Flags {
    type Output = Flags;

    ghost bitand_gives = { λ a b common. common.0 ≡ bit_and a.0 b.0 };

    fn bitand(self, other: Flags) -> Flags {
        Flags(self.0 & other.0)
    }
}

impl BitAndAssign for Flags {
    ghost bitand_assign_gives = { λ a b common. common.0 ≡ bit_and a.0 b.0 };

    fn bitand_assign(&mut self, other: Flags) {
        self.0 &= other.0;
    }
}

impl BitXor for Flags {
    type Output = Flags;

    ghost bitxor_gives = { λ a b differing. differing.0 ≡ bit_xor a.0 b.0 };

    fn bitxor(self, other: Flags) -> Flags {
        Flags(self.0 ^ other.0)
    }
}

impl BitXorAssign for Flags {
    ghost bitxor_assign_gives = { λ a b differing. differing.0 ≡ bit_xor a.0 b.0 };

    fn bitxor_assign(&mut self, other: Flags) {
        self.0 ^= other.0;
    }
}

impl Sub for Flags {
    type Output = Flags;

    ghost sub_gives = { λ a b left. left.0 ≡ bit_and a.0 (255 - b.0) };

    /// The bits of this value that aren't set in the other one.
    fn sub(self, other: Flags) -> Flags {
        Flags(self.0 & !other.0)
    }
}

impl SubAssign for Flags {
    ghost sub_assign_gives = { λ a b left. left.0 ≡ bit_and a.0 (255 - b.0) };

    fn sub_assign(&mut self, other: Flags) {
        self.0 &= !other.0;
    }
}

impl Not for Flags {
    type Output = Flags;

    ghost not_gives = { λ a lacking. lacking.0 ≡ bit_and (255 - a.0) known_flags };

    /// The flags that aren't set; reserved bits are left out.
    fn not(self) -> Flags {
        Flags(!self.0 & Flags::KNOWN)
    }
}

impl Default for Flags {
    ghost is_default = { λ flags. flags.0 ≡ 24 };

    /// The flags BE and BS.
    fn default() -> Flags {
        Flags::BE | Flags::BS
    }
}

impl From<Flags> for u8 {
    ghost from_gives = { λ flags byte. byte ≡ flags.0 };

    fn from(flags: Flags) -> u8 {
        flags.0
    }
}

impl TryFrom<u8> for Flags {
    type Error = ();

    ghost try_from_gives = { λ byte flags. (IsOk flags ↔ (bit_and byte reserved_flags ≡ 0)) × IfOk flags (λ made. made.0 ≡ byte) };

    /// The flags in a byte; `Err(())` if bit 1 or 5 is set.
    fn try_from(byte: u8) -> Result<Flags, ()> {
        if byte & !Flags::KNOWN == 0 {
            Ok(Flags(byte))
        } else {
            Err(())
        }
    }
}
