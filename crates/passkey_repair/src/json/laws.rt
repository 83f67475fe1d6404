//! Laws about repairs, each the contract of a function that does nothing.
ghost use Rattle.passkey_json.specs.Members.{record_kind};
ghost use Rattle.passkey_json.specs.Table.{members_in};
ghost use Rattle.passkey_repair.specs.json.Laws.{AcceptedIsDecoded, AcceptedIsUnchanged, EmptyIfNoneFits, ListIsComplete};

use crate::json::repairs_json::RepairsJson;

/// A JSON value from which the record is decoded stays as it is, and the list is empty.
#[tactic(auto, using(crate::proofs::Repairing::accepted_is_unchanged))]
pub fn accepted_is_unchanged<R: RepairsJson>()
    ensures { AcceptedIsUnchanged (record_kind (members_in R.table)) R.edits }
{}

/// What the strict call decodes a JSON value to, the lenient one does, too, with an empty list.
pub fn accepted_is_decoded<R: RepairsJson>()
    ensures { AcceptedIsDecoded (members_in R.table) R.edits }
{}

/// The listed repairs alone, made in turn, make the same of the JSON value, and each of them fits
/// in its turn: whatever changed is listed.
pub fn list_is_complete<R: RepairsJson>()
    ensures { ListIsComplete (record_kind (members_in R.table)) R.edits }
{}

/// The list for a JSON value from which the record isn't decoded is empty exactly if no repair
/// fits; by `list_is_complete` the value then stays as it is.
pub fn list_is_empty_if_none_fits<R: RepairsJson>()
    ensures { EmptyIfNoneFits (record_kind (members_in R.table)) R.edits }
{}
