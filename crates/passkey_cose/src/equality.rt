//! Equality of keys.
ghost use Rattle.std.specs.Prelude.{◌≡◌, ◌↔◌, IsTrue, map};
ghost use Rattle.std.specs.Cmp.{on_equiv, on_per, partial_equiv_from_equiv};
ghost use Rattle.std.specs.Cmp.Lexicographic.{pointwise};
ghost use Rattle.std.specs.Ordering.{on};
ghost use Rattle.passkey_iana.specs.Iana.{key_operation_number};
ghost use Rattle.passkey_cose.specs.Key.{key_parts};
ghost use Rattle.passkey_cose.specs.KeyParams.{params_of};
ghost use Rattle.passkey_cose.specs.KeySame.{member_eq, strings_eq, names_eq, parts_eq};
ghost use Rattle.passkey_cose.specs.KeySameLaws.{parts_eq-equivalence};
ghost use Rattle.passkey_cose.specs.Registered.{named_of, named_eq};

use crate::iana::KeyOperation;
use crate::key::CoseKey;
use crate::label::Label;
use crate::registered::Registered;
use passkey_cbor::Value;

fn are_ops_equal(a: &[Registered<KeyOperation>], b: &[Registered<KeyOperation>]) -> bool
    ensures { result ≡ pointwise (named_eq key_operation_number) (map named_of a.now) (map named_of b.now) }
{
    a == b
}

fn are_params_equal(a: &[(Label, Value)], b: &[(Label, Value)]) -> bool
    ensures { result ≡ pointwise member_eq (params_of a.now) (params_of b.now) }
{
    a == b
}

fn have_equal_strings(a: &CoseKey, b: &CoseKey) -> bool
    ensures { result ≡ strings_eq (key_parts a.now) (key_parts b.now) }
{
    a.key_id() == b.key_id() && a.base_iv() == b.base_iv()
}

fn have_equal_names(a: &CoseKey, b: &CoseKey) -> bool
    ensures { result ≡ names_eq (key_parts a.now) (key_parts b.now) }
{
    a.kty() == b.kty() && a.alg() == b.alg() && are_ops_equal(a.key_ops(), b.key_ops())
}

fn are_equal(a: &CoseKey, b: &CoseKey) -> bool
    ensures { result ≡ parts_eq (key_parts a.now) (key_parts b.now) }
{
    have_equal_strings(a, b) && have_equal_names(a, b) && are_params_equal(a.params(), b.params())
}

impl PartialEq for CoseKey {
    ghost eq = { on key_parts parts_eq };

    ghost laws = { on_per key_parts (partial_equiv_from_equiv parts_eq-equivalence) };

    /// Whether both have the same parts, with operations and other parameters in the same order.
    fn eq(&self, other: &CoseKey) -> bool
        ensures value { result ≡ parts_eq (key_parts self.now) (key_parts other.now) }
        ensures same { IsTrue result ↔ (key_parts self.now ≡ key_parts other.now) }
    {
        are_equal(self, other)
    }
}

impl Eq for CoseKey {
    ghost laws = { on_equiv key_parts parts_eq-equivalence };
}
