//! The kinds of JSON texts that a client takes or gives beside the ceremonies' own.
ghost use Rattle.std.specs.Prelude.{◌≡◌};
ghost use Rattle.passkey_catalogue.specs.ClientKinds.{client_kinds, client_own, client_source};

use crate::rows::{names, source};
use passkey_webauthn::EnumNames;

/// What a JSON text that a client takes or gives is decoded as, beside `JsonKind` (WebAuthn Level 3).
#[derive(Clone, Copy, Debug, PartialEq, Eq)]
pub enum ClientKind {
    /// The argument of signalUnknownCredential (section 5.1.10.2).
    UnknownCredential,
    /// The argument of signalAllAcceptedCredentials (section 5.1.10.3).
    AcceptedCredentials,
    /// The argument of signalCurrentUserDetails (section 5.1.10.4).
    UserDetails,
    /// Inputs of client extensions (section 9.3).
    ClientInputs,
    /// Outputs of client extensions (section 9.4).
    ClientOutputs,
    /// The options of a registration, with `mediation` (section 5.1.3).
    MediatedCreation,
    /// The options of a sign-in, with `mediation` (section 5.1.4).
    MediatedRequest,
    /// Client data with `topOrigin` (section 5.8.1).
    TopOrigin,
    /// Client data with `payment` (W3C Secure Payment Confirmation).
    Payment,
    /// Client capabilities (section 5.1.7).
    Capabilities,
}

/// The kinds: the name of each, its value, and the standard that defines what its inputs are, with the
/// section. `$of` is the macro that makes something of them.
macro_rules! kinds {
    ($of:ident $(, $with:expr)?) => {
        $of! {
            $($with,)?
            ("signal-unknown", ClientKind::UnknownCredential, "WebAuthn Level 3, section 5.1.10.2"),
            ("signal-accepted", ClientKind::AcceptedCredentials, "WebAuthn Level 3, section 5.1.10.3"),
            ("signal-details", ClientKind::UserDetails, "WebAuthn Level 3, section 5.1.10.4"),
            ("client-inputs", ClientKind::ClientInputs, "WebAuthn Level 3, section 9.3"),
            ("client-outputs", ClientKind::ClientOutputs, "WebAuthn Level 3, section 9.4"),
            ("mediated-creation", ClientKind::MediatedCreation, "WebAuthn Level 3, section 5.1.3"),
            ("mediated-request", ClientKind::MediatedRequest, "WebAuthn Level 3, section 5.1.4"),
            ("client-data-top", ClientKind::TopOrigin, "WebAuthn Level 3, section 5.8.1"),
            ("client-data-payment", ClientKind::Payment, "Secure Payment Confirmation"),
            ("capabilities", ClientKind::Capabilities, "WebAuthn Level 3, section 5.1.7"),
        }
    };
}

impl EnumNames for ClientKind {
    ghost table = { client_kinds };

    ghost name_is_own = { client_own };

    fn table() -> &'static [(&'static str, ClientKind)] {
        kinds!(names)
    }
}

/// The standard that defines what inputs of this kind are, and its section.
pub(crate) fn client_source(kind: ClientKind) -> &'static str
    ensures { result.now ≡ client_source kind }
{
    kinds!(source, kind)
}
