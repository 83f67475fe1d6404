//! Equality of authenticator data.
ghost use Rattle.std.specs.Prelude.{◌≡◌, ◌↔◌, IsTrue};
ghost use Rattle.std.specs.Cmp.{on_per, partial_equiv_from_equiv};
ghost use Rattle.std.specs.Ordering.{on};
ghost use Rattle.passkey_core.specs.DataSame.{fixed_eq, after_eq, data_eq, data_eq-equivalence};
ghost use Rattle.passkey_core.specs.DataViews.{data_parts};

use crate::authenticator_data::AuthenticatorData;

fn have_equal_fixed_parts(a: &AuthenticatorData, b: &AuthenticatorData) -> bool
    ensures { result ≡ fixed_eq (data_parts a.now) (data_parts b.now) }
{
    a.rp_id_hash == b.rp_id_hash && u8::from(a.flags) == u8::from(b.flags) && a.counter == b.counter
}

fn have_equal_parts_after(a: &AuthenticatorData, b: &AuthenticatorData) -> bool
    ensures { result ≡ after_eq (data_parts a.now) (data_parts b.now) }
{
    a.attested_credential_data == b.attested_credential_data && a.extensions == b.extensions
}

fn are_equal(a: &AuthenticatorData, b: &AuthenticatorData) -> bool
    ensures { result ≡ data_eq (data_parts a.now) (data_parts b.now) }
{
    have_equal_fixed_parts(a, b) && have_equal_parts_after(a, b)
}

impl PartialEq for AuthenticatorData {
    ghost eq = { on data_parts data_eq };

    ghost laws = { on_per data_parts (partial_equiv_from_equiv data_eq-equivalence) };

    /// Whether both have the same parts. An absent counter and a counter of 0 are different.
    #[tactic(auto, using(crate::specs::DataSame::data_Decides))]
    fn eq(&self, other: &AuthenticatorData) -> bool
        ensures value { result ≡ data_eq (data_parts self.now) (data_parts other.now) }
        ensures same { IsTrue result ↔ (data_parts self.now ≡ data_parts other.now) }
    {
        are_equal(self, other)
    }
}
