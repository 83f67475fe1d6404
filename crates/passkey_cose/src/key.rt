//! Keys.
ghost use Rattle.std.specs.Prelude.{◌≡◌, true, [], None};
ghost use Rattle.passkey_cose.specs.KeyFaults.{first_fault};
ghost use Rattle.passkey_cose.specs.KeyFields.{parts_held};
ghost use Rattle.passkey_cose.specs.KeyLabels.{are_separate};
ghost use Rattle.passkey_cose.specs.KeyParams.{params_held};
ghost use Rattle.passkey_cose.specs.KeyParts.{key_members};

use crate::iana::{Algorithm, KeyOperation, KeyType};
use crate::label::Label;
use crate::registered::Registered;
use passkey_cbor::Value;

/// A COSE key (RFC 9052, section 7): its type, the common parameters of section 7.1, and other
/// parameters. No label occurs twice, and no other parameter has the label of a common one, 1 to
/// 5. A key is never encoded with a member that decoding rejects.
#[derive(Debug, Drop)]
pub struct CoseKey {
    pub(super) kty: Registered<KeyType>,
    pub(super) key_id: Option<Vec<u8>>,
    pub(super) alg: Option<Registered<Algorithm>>,
    pub(super) key_ops: Option<Vec<Registered<KeyOperation>>>,
    pub(super) base_iv: Option<Vec<u8>>,
    pub(super) params: Option<Vec<(Label, Value)>>,
    ghost separate: { are_separate (params_held params) ≡ true },
    ghost good: { first_fault [] (key_members (parts_held kty key_id alg key_ops base_iv params)) ≡ None },
}
