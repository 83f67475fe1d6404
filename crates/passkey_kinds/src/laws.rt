//! Laws about decoding records and lists. Each is the contract of a function that does nothing.
ghost use Rattle.passkey_kinds.specs.Words.{read_item, KeysAscend, KnowsMaps, PassesOverUnknown, AlikeDifferInLength, KnowsItems};
ghost use Rattle.passkey_kinds.specs.Words.{RefusedElementIsPassedOver, SameAnswersReadAlike, UnknownMemberIsPassedOver};
ghost use Rattle.passkey_kinds.specs.Words.{make_credential_signed, get_assertion_signed, plain_tree, WrittenIsCanonical};
ghost use Rattle.passkey_kinds.specs.Numbered.{MessagesAreReadBack, is_shallow, kept_list};
ghost use Rattle.std.specs.Prelude.{◌≡◌};
ghost use Rattle.passkey_core.specs.SignedOutputs.{make_credential_item, get_assertion_item};
ghost use Rattle.passkey_core.specs.declared.make_credential.SignedExtensionOutputs as make_credential;
ghost use Rattle.passkey_core.specs.declared.get_assertion.SignedExtensionOutputs as get_assertion;

use crate::TableMessage;
use crate::record::Record;
use crate::to_cbor::ToCborMap;

/// A record is encoded with its map keys in CTAP2's order (CTAP 2.1, section 8).
pub fn written_keys_ascend<R: ToCborMap>()
    ensures { KeysAscend R.places }
{
    R::ordered();
}

/// Signed extension outputs are encoded as the data items that `to_value` of `passkey_core` returns.
#[tactic(auto, using(crate::proofs::Lawful::make_credential_same, crate::proofs::Lawful::get_assertion_same))]
pub fn signed_outputs_are_their_items()
    ensures make_credential { (o : make_credential.SignedExtensionOutputs) → plain_tree make_credential_signed o ≡ make_credential_item o }
    ensures get_assertion { (o : get_assertion.SignedExtensionOutputs) → plain_tree get_assertion_signed o ≡ get_assertion_item o }
{}

/// A member under a key that the record's table doesn't know changes nothing, wherever it is: the
/// record or the fault is the same without it.
#[tactic(auto, using(crate::proofs::RecordLaws::unknown_is_skipped))]
pub fn unknown_member_is_passed_over<R: Record>()
    ensures { UnknownMemberIsPassedOver R.fields }
{}

/// A member under a key that the message's table doesn't know changes only the length, wherever it
/// is: for any encodings of the map with the member and without it, within 256 nesting levels, the
/// messages differ only in their length in bytes, and a fault is the same. `OutOfMemory` is left
/// out: `ReadsMessage` allows it for any map that isn't empty, and `GrowsMessage` says more.
pub fn unknown_member_changes_the_length_alone<R: Record>()
    ensures { PassesOverUnknown R.parts R.fields }
{
    passkey_cbor::laws::at_most_one_leading_item();
}

/// The same holds for any two data items that a message's table decodes alike: for any of their
/// encodings, the messages differ only in their length in bytes.
#[tactic(auto, using(crate::proofs::RecordLaws::alike_differ_in_length))]
pub fn alike_items_differ_in_length<R: Record>()
    ensures { AlikeDifferInLength R.parts (read_item R.fields) }
{
    passkey_cbor::laws::at_most_one_leading_item();
}

/// An element that can't be decoded changes nothing in a tolerant list, wherever it is: the value
/// is the same without it.
#[tactic(auto, using(crate::proofs::Lists::refused_is_passed_over))]
pub fn refused_element_is_passed_over<M>()
    ensures { RefusedElementIsPassedOver M }
{}

/// Two lists of members without a wrong key decode to the same record or fault if they name the
/// same rows in the same order, with values that these rows decode alike.
#[tactic(auto, using(crate::proofs::RecordLaws::same_answers_read_alike))]
pub fn same_answers_read_alike<R: Record>()
    ensures { SameAnswersReadAlike R.fields }
{}

/// No data item decodes to `DecodeFailed` or `OutOfMemory`: which record an item decodes to, and
/// what is wrong with it, depends neither on its encoding nor on memory.
#[tactic(auto, using(crate::proofs::RecordLaws::knows_items))]
pub fn reading_knows_items<R: Record>()
    ensures { KnowsItems (read_item R.fields) }
{}

/// No map decodes to `NotAMap`, whatever its members.
#[tactic(auto, using(crate::proofs::RecordLaws::knows_maps))]
pub fn reading_knows_maps<R: Record>()
    ensures { KnowsMaps (read_item R.fields) }
{}

/// The encoding of a coherent message that one table defines, whatever bytes follow, decodes to the
/// message's normal form.
pub fn written_message_is_read_back<M: TableMessage>()
    ensures { MessagesAreReadBack M.numbered M.normal M.table }
{
    M::lawful();
    passkey_cbor::laws::written_is_leading_item();
}

/// The encoding of a coherent message that one table defines is in CTAP2's canonical form if the
/// encoding of the data item that it keeps is, or if it keeps none (CTAP 2.1, section 8).
pub fn written_message_is_canonical<M: TableMessage>()
    ensures { WrittenIsCanonical (plain_tree M.table) (is_shallow M.table) (kept_list M.kept) }
{
    M::is_message();
    passkey_cbor::laws::at_most_one_leading_item();
    passkey_cbor::laws::written_is_leading_item();
}
