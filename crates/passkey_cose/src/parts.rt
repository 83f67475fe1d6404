//! Access to a key's parts.
ghost use Rattle.std.specs.Prelude.{◌≡◌, true, map, option_map};
ghost use Rattle.passkey_cbor.specs.View.{item_of};
ghost use Rattle.passkey_cose.specs.Key.{key_parts};
ghost use Rattle.passkey_cose.specs.KeyLabels.{are_separate, value_at};
ghost use Rattle.passkey_cose.specs.KeyParams.{params_of};
ghost use Rattle.passkey_cose.specs.Label.{label_item};
ghost use Rattle.passkey_cose.specs.Registered.{named_of};

use crate::iana::{Algorithm, KeyOperation, KeyType};
use crate::key::CoseKey;
use crate::label::Label;
use crate::registered::Registered;
use crate::search::find;
use passkey_cbor::Value;

impl CoseKey {
    /// The key type (`kty`, label 1).
    pub fn kty(&self) -> &Registered<KeyType>
        ensures { named_of result.now ≡ (key_parts self.now).kty }
    {
        &self.kty
    }

    /// The key identifier (`kid`, label 2), one byte or more; `None` means the parameter is absent.
    pub fn key_id(&self) -> Option<&[u8]>
        ensures { option_map (λ s. s.now) result ≡ (key_parts self.now).key_id }
    {
        match &self.key_id {
            Some(id) => Some(id.as_slice()),
            None => None,
        }
    }

    /// The algorithm that the key is restricted to (`alg`, label 3); `None` means the parameter is
    /// absent.
    pub fn alg(&self) -> Option<&Registered<Algorithm>>
        ensures { option_map (λ a. named_of a.now) result ≡ (key_parts self.now).alg }
    {
        self.alg.as_ref()
    }

    /// The operations that the key is restricted to (`key_ops`, label 4), without duplicates. An
    /// empty list means the parameter is absent: the key may be used for any operation.
    pub fn key_ops(&self) -> &[Registered<KeyOperation>]
        ensures { map named_of result.now ≡ (key_parts self.now).key_ops }
    {
        match &self.key_ops {
            Some(ops) => ops.as_slice(),
            None => &[],
        }
    }

    /// The Base IV (label 5), one byte or more; `None` means the parameter is absent.
    pub fn base_iv(&self) -> Option<&[u8]>
        ensures { option_map (λ s. s.now) result ≡ (key_parts self.now).base_iv }
    {
        match &self.base_iv {
            Some(iv) => Some(iv.as_slice()),
            None => None,
        }
    }

    /// The other parameters, in their order. Their labels are distinct, and none is 1 to 5.
    pub fn params(&self) -> &[(Label, Value)]
        ensures value { params_of result.now ≡ (key_parts self.now).params }
        ensures separate { are_separate (key_parts self.now).params ≡ true }
    {
        match &self.params {
            Some(params) => params.as_slice(),
            None => &[],
        }
    }

    /// The value of the other parameter with this label; `None` if the key has none, and for the
    /// labels of the common parameters, 1 to 5.
    pub fn param(&self, label: &Label) -> Option<&Value>
        ensures { option_map (λ v. item_of v.now) result
            ≡ value_at (label_item label.now) (key_parts self.now).params }
    {
        find(label, self.params())
    }
}
