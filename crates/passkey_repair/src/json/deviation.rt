//! Deviations from WebAuthn's JSON.
ghost use Rattle.std.specs.Prelude.{Some};
ghost use Rattle.passkey_repair.specs.json.Texts.{deviation_text};

use std::fmt;

/// A deviation from WebAuthn's JSON that known programs send and that the records reject.
#[derive(Clone, Copy, Debug, PartialEq, Eq)]
pub enum Deviation {
    /// An optional member is null. Servers send it whose serializer writes null for a member that
    /// has no value. The member is left out.
    NullMember,
    /// A `name` or a user's `displayName` is absent or null. WebAuthn Level 3, sections 5.4.1 and
    /// 5.4.3, requires them, but CTAP 2.1, section 6.1, doesn't, and servers leave them out. It
    /// becomes the empty text.
    NoName,
    /// A text is an empty array. python-fido2 1.2.0 and 2.2.1 write each empty text so. It becomes
    /// the empty text.
    EmptyArray,
    /// An integer is written as a float, such as 60000.0. JSON has one type of numbers (RFC 8259,
    /// section 6), and ECMAScript makes no difference. It becomes the integer, if its magnitude is
    /// below 2^53.
    WholeFloat,
    /// Transports contain unknown names, such as `smart-card`, which browsers pass on from newer
    /// authenticators. Unknown values are to be ignored (WebAuthn Level 3, section 5.8.4). They are
    /// left out.
    UnknownTransport,
    /// The client extension outputs are null, as the fake client of webauthn-ruby writes them. They
    /// become an empty object (WebAuthn Level 3, section 5.1).
    NullOutputs,
    /// The client extension outputs are absent, and there is a member `extensions`, as webauthn-rs
    /// names them. They become that member's value.
    RenamedOutputs,
    /// A registration's authenticator data are absent: browsers from before WebAuthn Level 3, and
    /// libraries for them, send the attestation object alone. They are taken from it (WebAuthn
    /// Level 3, section 5.2.1.1). A null is left out before.
    NoAuthenticatorData,
    /// The algorithm of a registration's key is absent, in the same answers. It is taken from the
    /// attestation object, where it is the key's parameter `alg` (RFC 9052, section 7.1).
    NoKeyAlgorithm,
}

impl fmt::Display for Deviation {
    ghost output = { λ d. Some (deviation_text d) };

    /// Writes what the member is, and how it is repaired.
    fn fmt<W: fmt::Write>(&self, f: &mut fmt::Formatter<W>) -> fmt::Result {
        f.write_str(match self {
            Deviation::NullMember => "null, left out",
            Deviation::NoName => "absent or null, read as an empty text",
            Deviation::EmptyArray => "an empty array, read as an empty text",
            Deviation::WholeFloat => "a float with a whole value, read as an integer",
            Deviation::UnknownTransport => "unknown transports, left out",
            Deviation::NullOutputs => "null, read as an empty object",
            Deviation::RenamedOutputs => "absent, taken from extensions",
            Deviation::NoAuthenticatorData | Deviation::NoKeyAlgorithm => {
                "absent, taken from attestationObject"
            }
        })
    }
}
