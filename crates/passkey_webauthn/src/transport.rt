//! Transports.
ghost use Rattle.std.specs.Prelude.{Some};
ghost use Rattle.passkey_webauthn.specs.NameLaws.{transport_own};
ghost use Rattle.passkey_webauthn.specs.Transport.{transport_name, transports};

use crate::names::EnumNames;
use std::fmt;

/// How a client can reach an authenticator (WebAuthn Level 3, section 5.8.4). `smart-card`, which
/// the standard has as well, is an unknown name here.
#[derive(Clone, Copy, Debug, PartialEq, Eq)]
pub enum AuthenticatorTransport {
    /// Over a removable USB device.
    Usb,
    /// Over Near Field Communication.
    Nfc,
    /// Over Bluetooth Low Energy.
    Ble,
    /// Over several ways together, such as a data channel that a nearby device opens. Its earlier
    /// name is `cable`.
    Hybrid,
    /// Within the client's own device.
    Internal,
}

impl EnumNames for AuthenticatorTransport {
    ghost table = { transports };

    ghost name_is_own = { transport_own };

    fn table() -> &'static [(&'static str, AuthenticatorTransport)] {
        &[
            ("usb", AuthenticatorTransport::Usb),
            ("nfc", AuthenticatorTransport::Nfc),
            ("ble", AuthenticatorTransport::Ble),
            ("hybrid", AuthenticatorTransport::Hybrid),
            ("internal", AuthenticatorTransport::Internal),
            ("cable", AuthenticatorTransport::Hybrid),
        ]
    }
}

impl fmt::Display for AuthenticatorTransport {
    ghost output = { λ x. Some (transport_name x) };

    /// Writes the transport's name in WebAuthn Level 3.
    fn fmt<W: fmt::Write>(&self, f: &mut fmt::Formatter<W>) -> fmt::Result {
        f.write_str(self.name())
    }
}
