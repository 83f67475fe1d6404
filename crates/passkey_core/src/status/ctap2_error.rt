//! CTAP 2.1's named status codes.
ghost use Rattle.std.specs.Prelude.{◌≡◌, ◌↔◌, IsTrue, Some, nat_eq};
ghost use Rattle.std.specs.Cmp.{partial_order_from_own_ties, unsigned_ties};
ghost use Rattle.std.specs.Cmp.Rules.{comparing};
ghost use Rattle.std.specs.Ordering.{as_partial_cmp, nat_cmp, on};
ghost use Rattle.std.proofs.Common.{rules};
ghost use Rattle.passkey_core.specs.Statuses.{Converts, ctap2_error, ctap2_error_byte, ctap2_error_of};

use super::CodeOutOfRange;
use passkey_cose::CoseKeyConversionError;
use std::cmp::Ordering;

/// A named status code (CTAP 2.1, section 8.2). They are ordered by their bytes.
#[derive(Clone, Copy, Debug)]
pub enum Ctap2Error {
    /// Success.
    Ok = 0x00,
    /// The command is invalid.
    InvalidCommand = 0x01,
    /// A parameter is invalid.
    InvalidParameter = 0x02,
    /// A message or an item has an invalid length.
    InvalidLength = 0x03,
    /// Message sequencing is invalid.
    InvalidSequence = 0x04,
    /// The message timed out.
    Timeout = 0x05,
    /// The channel is busy; the client should try again later.
    ChannelBusy = 0x06,
    /// The command requires a channel lock.
    LockRequired = 0x0A,
    /// The command isn't allowed on this channel.
    InvalidChannel = 0x0B,
    /// A CBOR item has an unexpected type.
    CborUnexpectedType = 0x11,
    /// The CBOR is invalid.
    InvalidCbor = 0x12,
    /// A required parameter is missing.
    MissingParameter = 0x14,
    /// The limit for the number of items is exceeded.
    LimitExceeded = 0x15,
    /// The fingerprint database is full.
    FingerprintDatabaseFull = 0x17,
    /// The large blob storage is full.
    LargeBlobStorageFull = 0x18,
    /// A credential in the exclude list exists on this authenticator.
    CredentialExcluded = 0x19,
    /// Processing a lengthy operation.
    Processing = 0x21,
    /// The credential isn't valid for this authenticator.
    InvalidCredential = 0x22,
    /// The authenticator waits for the user.
    UserActionPending = 0x23,
    /// An operation is pending.
    OperationPending = 0x24,
    /// No operation is pending.
    NoOperations = 0x25,
    /// The algorithm isn't supported.
    UnsupportedAlgorithm = 0x26,
    /// The operation isn't authorized.
    OperationDenied = 0x27,
    /// The key storage is full.
    KeyStoreFull = 0x28,
    /// The option isn't supported.
    UnsupportedOption = 0x2B,
    /// The option isn't valid for the operation.
    InvalidOption = 0x2C,
    /// A pending keep-alive was cancelled.
    KeepAliveCancel = 0x2D,
    /// No valid credentials are available.
    NoCredentials = 0x2E,
    /// The user didn't act in time.
    UserActionTimeout = 0x2F,
    /// A continuation command, such as authenticatorGetNextAssertion, isn't allowed.
    NotAllowed = 0x30,
    /// The PIN is wrong.
    PinInvalid = 0x31,
    /// The PIN is blocked.
    PinBlocked = 0x32,
    /// The pinUvAuthParam is wrong.
    PinAuthInvalid = 0x33,
    /// PIN authentication is blocked until the authenticator is powered up again.
    PinAuthBlocked = 0x34,
    /// No PIN has been set.
    PinNotSet = 0x35,
    /// A pinUvAuthToken is required.
    PuatRequired = 0x36,
    /// The PIN violates the policy, such as the minimum length.
    PinPolicyViolation = 0x37,
    /// The request exceeds the authenticator's memory.
    RequestTooLarge = 0x39,
    /// The current operation timed out.
    ActionTimeout = 0x3A,
    /// User presence is required.
    UserPresenceRequired = 0x3B,
    /// Built-in user verification is blocked.
    UserVerificationBlocked = 0x3C,
    /// An integrity check failed.
    IntegrityFailure = 0x3D,
    /// The subcommand is invalid.
    InvalidSubcommand = 0x3E,
    /// Built-in user verification failed; the platform may try again.
    UserVerificationInvalid = 0x3F,
    /// A requested permission isn't granted.
    UnauthorizedPermission = 0x40,
    /// Another, unspecified error.
    Other = 0x7F,
}

impl TryFrom<u8> for Ctap2Error {
    type Error = CodeOutOfRange<u8>;

    ghost try_from_gives = { Converts ctap2_error };

    /// The status code of this byte. `CodeOutOfRange` with the byte if it has no name.
    fn try_from(byte: u8) -> Result<Ctap2Error, CodeOutOfRange<u8>> {
        let error = match byte {
            0x00 => Ctap2Error::Ok,
            0x01 => Ctap2Error::InvalidCommand,
            0x02 => Ctap2Error::InvalidParameter,
            0x03 => Ctap2Error::InvalidLength,
            0x04 => Ctap2Error::InvalidSequence,
            0x05 => Ctap2Error::Timeout,
            0x06 => Ctap2Error::ChannelBusy,
            0x0A => Ctap2Error::LockRequired,
            0x0B => Ctap2Error::InvalidChannel,
            0x11 => Ctap2Error::CborUnexpectedType,
            0x12 => Ctap2Error::InvalidCbor,
            0x14 => Ctap2Error::MissingParameter,
            0x15 => Ctap2Error::LimitExceeded,
            0x17 => Ctap2Error::FingerprintDatabaseFull,
            0x18 => Ctap2Error::LargeBlobStorageFull,
            0x19 => Ctap2Error::CredentialExcluded,
            0x21 => Ctap2Error::Processing,
            0x22 => Ctap2Error::InvalidCredential,
            0x23 => Ctap2Error::UserActionPending,
            0x24 => Ctap2Error::OperationPending,
            0x25 => Ctap2Error::NoOperations,
            0x26 => Ctap2Error::UnsupportedAlgorithm,
            0x27 => Ctap2Error::OperationDenied,
            0x28 => Ctap2Error::KeyStoreFull,
            0x2B => Ctap2Error::UnsupportedOption,
            0x2C => Ctap2Error::InvalidOption,
            0x2D => Ctap2Error::KeepAliveCancel,
            0x2E => Ctap2Error::NoCredentials,
            0x2F => Ctap2Error::UserActionTimeout,
            0x30 => Ctap2Error::NotAllowed,
            0x31 => Ctap2Error::PinInvalid,
            0x32 => Ctap2Error::PinBlocked,
            0x33 => Ctap2Error::PinAuthInvalid,
            0x34 => Ctap2Error::PinAuthBlocked,
            0x35 => Ctap2Error::PinNotSet,
            0x36 => Ctap2Error::PuatRequired,
            0x37 => Ctap2Error::PinPolicyViolation,
            0x39 => Ctap2Error::RequestTooLarge,
            0x3A => Ctap2Error::ActionTimeout,
            0x3B => Ctap2Error::UserPresenceRequired,
            0x3C => Ctap2Error::UserVerificationBlocked,
            0x3D => Ctap2Error::IntegrityFailure,
            0x3E => Ctap2Error::InvalidSubcommand,
            0x3F => Ctap2Error::UserVerificationInvalid,
            0x40 => Ctap2Error::UnauthorizedPermission,
            0x7F => Ctap2Error::Other,
            _ => return Err(CodeOutOfRange(byte)),
        };
        Ok(error)
    }
}

impl From<Ctap2Error> for u8 {
    ghost from_gives = { λ error byte. (byte ≡ ctap2_error_byte error) × (ctap2_error byte ≡ Some error) };

    #[tactic(auto, using(crate::proofs::StatusTable::ctap2_error_own))]
    fn from(error: Ctap2Error) -> u8 {
        error as u8
    }
}

impl From<CoseKeyConversionError> for Ctap2Error {
    ghost from_gives = { λ reason error. error ≡ ctap2_error_of reason };

    fn from(reason: CoseKeyConversionError) -> Ctap2Error {
        match reason {
            CoseKeyConversionError::UnsupportedAlgorithm => Ctap2Error::UnsupportedAlgorithm,
            CoseKeyConversionError::InvalidCredential => Ctap2Error::InvalidCredential,
            CoseKeyConversionError::Other(_) => Ctap2Error::Other,
        }
    }
}

impl PartialEq for Ctap2Error {
    ghost eq = { on ctap2_error_byte nat_eq };

    ghost laws = { Prim.search (comparing, rules) };

    #[tactic(auto, using(crate::proofs::StatusTable::ctap2_errors_apart))]
    fn eq(&self, other: &Ctap2Error) -> bool
        ensures value { result ≡ on ctap2_error_byte nat_eq self.now other.now }
        ensures same { IsTrue result ↔ (self.now ≡ other.now) }
    {
        u8::from(*self) == u8::from(*other)
    }
}

impl Eq for Ctap2Error {
    ghost laws = { Prim.search (comparing, rules) };
}

impl Ord for Ctap2Error {
    ghost cmp = { on ctap2_error_byte nat_cmp };

    ghost total = { Prim.search (comparing, rules) };

    ghost matches_partial_cmp = { Prim.search (comparing, rules) };

    ghost matches_eq = { λ a b. unsigned_ties (ctap2_error_byte a) (ctap2_error_byte b) };

    fn cmp(&self, other: &Ctap2Error) -> Ordering {
        u8::from(*self).cmp(&u8::from(*other))
    }
}

impl PartialOrd for Ctap2Error {
    ghost partial_cmp = { as_partial_cmp (on ctap2_error_byte nat_cmp) };

    ghost laws = { partial_order_from_own_ties (Prim.search (comparing, rules))
        (λ a b. unsigned_ties (ctap2_error_byte a) (ctap2_error_byte b)) };

    fn partial_cmp(&self, other: &Ctap2Error) -> Option<Ordering> {
        Some(self.cmp(other))
    }
}
