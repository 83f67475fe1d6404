//! Laws about extensions. Each is the contract of a function that does nothing.
ghost use Rattle.passkey_registered.specs.extensions.Others.{OthersArePassedOver, OthersKeepOrder};

use passkey_kinds::Record;

/// Members under names that a record doesn't know change nothing that is decoded: with them
/// (`with_others`) a map decodes to the same record or fault as without them.
#[tactic(auto, using(crate::proofs::Places::others_skipped))]
pub fn others_are_passed_over<R: Record>()
    ensures { OthersArePassedOver R.fields }
{}

/// Keys that ascend in CTAP2's order still do with others in their places (`with_others`), if no key
/// is there twice (CTAP 2.1, section 8). So the whole map is canonical if its values are.
#[tactic(auto, using(crate::proofs::Ascending::kept_in_order))]
pub fn others_keep_order()
    ensures { OthersKeepOrder }
{}
