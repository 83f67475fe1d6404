//! Laws about records, each the contract of a function that does nothing.
ghost use Rattle.std.specs.Prelude.{◌≡◌, false};
ghost use Rattle.passkey_json.specs.Extensions.{credential_properties};
ghost use Rattle.passkey_json.specs.Members.{takes_in};
ghost use Rattle.passkey_json.specs.SelectionCriteria.{selection_criteria};
ghost use Rattle.passkey_json.specs.Table.{TakeNothing, takes_of};
ghost use Rattle.passkey_json.specs.WebAuthn.{parameters};
ghost use Rattle.serde_json.specs.Data.{Data};

use crate::plain_json_record::PlainJsonRecord;

/// Decoding a record takes no memory if decoding none of its members does.
#[tactic(auto, using(crate::proofs::Tables::takes_nothing))]
pub fn small_members_take_nothing<R: PlainJsonRecord>()
    ensures { TakeNothing R.table.members → (d : Data) → takes_in (takes_of R.table) d ≡ false }
{}

/// So decoding credential parameters, credential properties and the requirements for an
/// authenticator never runs out of memory.
#[tactic(auto, using(crate::proofs::Tables::takes_nothing))]
pub fn small_records_take_nothing()
    ensures parameters { (d : Data) → takes_in (takes_of parameters) d ≡ false }
    ensures properties { (d : Data) → takes_in (takes_of credential_properties) d ≡ false }
    ensures criteria { (d : Data) → takes_in (takes_of selection_criteria) d ≡ false }
{}
