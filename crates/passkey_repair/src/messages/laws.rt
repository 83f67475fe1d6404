//! Laws about repairs. Each is the contract of a function that does nothing.
ghost use Rattle.passkey_repair.specs.messages.Laws.{AcceptedIsUnchanged, DecodedDecodeAlike, DecodedIsNotRefused, ListIsWhatWasDone, NoneIsListedIfNoneFits};

use crate::messages::Repairable;
use passkey_kinds::Message;

/// A data item that the message's table accepts is returned as it is, without any repair, and
/// decodes to the same message.
pub fn accepted_is_unchanged<M: Message + Repairable>()
    ensures { AcceptedIsUnchanged M.fields M.edits }
{}

/// A message that `Message::from_slice` decodes is decoded by `from_slice_lenient` as the same message,
/// with the same length and without any repair, unless memory runs out.
#[tactic(auto, using(crate::proofs::Alike::decoded_decode_alike, crate::proofs::Alike::decoded_is_not_refused))]
pub fn decoded_decode_alike<M: Message + Repairable>()
    ensures alike { DecodedDecodeAlike M.parts M.fields M.edits }
    ensures accepted { DecodedIsNotRefused M.parts M.fields M.edits }
{
    passkey_cbor::laws::at_most_one_leading_item();
}

/// The repaired data item is what the listed repairs make of the data item, applied in turn: so
/// whatever was changed is listed.
#[tactic(auto, using(crate::proofs::Listing::list_is_what_was_done))]
pub fn list_is_what_was_done()
    ensures { ListIsWhatWasDone }
{}

/// No repair is listed exactly if none fits the data item; then the data item is returned as it is.
#[tactic(auto, using(crate::proofs::Listing::none_is_listed_if_none_fits))]
pub fn none_is_listed_if_none_fits()
    ensures { NoneIsListedIfNoneFits }
{}
