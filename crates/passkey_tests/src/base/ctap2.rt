//! Flags, salts and commands.
ghost use Rattle.std.specs.Prelude.{◌≡◌, ◌↔◌, IsTrue, IfOk};

use crate::base::checks::check;
use bitflags::Flags as _;
use passkey_core::{Aaguid, Ctap2Command, Flags, HmacSecretSaltOrOutput};
use std::alloc::AllocError;

// WebAuthn Level 3, section 6.1.
#[test]
fn flags_have_bits_and_names(rt: HostRuntime) {
    let flags = [
        ("UP", Flags::UP, 0x01),
        ("UV", Flags::UV, 0x04),
        ("BE", Flags::BE, 0x08),
        ("BS", Flags::BS, 0x10),
        ("AT", Flags::AT, 0x40),
        ("ED", Flags::ED, 0x80),
    ];
    for (name, flag, bit) in flags {
        check(&rt, u8::from(flag) == bit, "bit", &[bit]);
        check(&rt, Flags::from_name(name) == Some(flag), "name", &[bit]);
    }
}

/// Returns whether two values are equal, which they are exactly if their bytes are.
fn are_equal(a: &Flags, b: &Flags) -> bool
    ensures { IsTrue result ↔ (a.now.0 ≡ b.now.0) }
{
    a == b
}

/// Returns whether two values are equal, which they are exactly if their bytes are.
fn are_equal_aaguids(a: &Aaguid, b: &Aaguid) -> bool
    ensures { IsTrue result ↔ (a.now.0 ≡ b.now.0) }
{
    a == b
}

// What the crate `bitflags` provides for the table of flags.
#[test]
fn flags_are_sets_and_compared(rt: HostRuntime) {
    let flags = Flags::UP | Flags::AT;
    assert!(rt; flags.contains(Flags::AT));
    assert!(rt; !flags.contains(Flags::ED));
    assert!(rt; Flags::from_bits(0x41) == Some(flags));
    assert!(rt; Flags::from_bits(0x43) == None);
    assert_eq!(rt; Flags::all().bits(), 0xdd);
    assert!(rt; Flags::from_bits_retain(0x43).contains_unknown_bits());
    assert!(rt; are_equal(&Flags::from_bits_truncate(0x43), &flags));
    assert!(rt; !are_equal_aaguids(&Aaguid::new_empty(), &Aaguid([7; 16])));
}

/// A copy is equal.
fn copied(salts: &HmacSecretSaltOrOutput) -> Result<HmacSecretSaltOrOutput, AllocError>
    ensures { IfOk result (λ copy. copy ≡ salts.now) }
{
    salts.clone()
}

#[test]
fn salts_are_copied(rt: HostRuntime) {
    let both = HmacSecretSaltOrOutput::new([1; 32], Some([2; 32]));
    let copy = copied(&both).expect(&rt, "memory");
    check(
        &rt,
        copy.as_slice() == both.as_slice(),
        "a copy",
        both.as_slice(),
    );
}

// CTAP 2.1, section 6.
#[test]
fn commands_have_bytes(rt: HostRuntime) {
    assert_eq!(rt; u8::from(Ctap2Command::MakeCredential), 1);
    assert_eq!(rt; u8::from(Ctap2Command::GetAssertion), 2);
    assert_eq!(rt; u8::from(Ctap2Command::GetInfo), 4);
}
