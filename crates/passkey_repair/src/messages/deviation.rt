//! What programs are known to send, and tables refuse.
ghost use Rattle.std.specs.Prelude.{Some};
ghost use Rattle.passkey_repair.specs.messages.Texts.{deviation_text};

use std::fmt;

/// A deviation from the standards that programs in use are known to send, or that one standard
/// allows and another doesn't.
#[derive(Clone, Copy, Debug, PartialEq, Eq)]
pub enum Deviation {
    /// A user without `name` or `displayName`. Chrome leaves out an empty display name, also in its
    /// request for a touch; libfido2 and python-fido2 leave out what their caller doesn't give. CTAP
    /// makes both optional (CTAP 2.1, section 6.1), WebAuthn requires them (WebAuthn Level 3, section
    /// 5.4.3).
    AbsentName,
    /// Null in place of a user's `name` or `displayName`, as Firefox's authenticator-rs writes what
    /// is absent. Both are texts (WebAuthn Level 3, section 5.4.3).
    NullName,
    /// An empty array in place of an empty text, as python-fido2 1.2.0 and 2.2.1 write each empty
    /// text of a user or a relying party, so that authenticators store and return it. These are
    /// texts (WebAuthn Level 3, sections 5.4.1 and 5.4.3).
    EmptyArrayAsText,
    /// Outputs of the extension prf at a registration that have `results` and no `enabled`. Chrome
    /// reads them (WebAuthn Level 3, section 10.1.4).
    PrfWithoutEnabled,
    /// Outputs of the extension prf at a registration with null for `enabled`, as serializers write
    /// what has no value. WebAuthn makes it a boolean (WebAuthn Level 3, section 10.1.4).
    NullEnabled,
    /// Outputs of the extension prf that have neither `enabled` nor `results`. Chrome reads them
    /// (WebAuthn Level 3, section 10.1.4).
    EmptyPrf,
}

impl fmt::Display for Deviation {
    ghost output = { λ d. Some (deviation_text d) };

    fn fmt<W: fmt::Write>(&self, f: &mut fmt::Formatter<W>) -> fmt::Result {
        f.write_str(match self {
            Deviation::AbsentName => "a user's name left out, as Chrome and libfido2 do",
            Deviation::NullName => "null for a user's name, as Firefox writes it",
            Deviation::EmptyArrayAsText => "an array for an empty text, as python-fido2 writes it",
            Deviation::PrfWithoutEnabled => "outputs of prf without enabled",
            Deviation::NullEnabled => "null for enabled of prf",
            Deviation::EmptyPrf => "outputs of prf without results",
        })
    }
}
