//! Laws of the definitions, each the contract of a function that does nothing.
ghost use Rattle.passkey_cbor_text.specs.values.JsonItem.{MembersAscend};

/// The members of an object that is no escape are in CTAP2's order, so no two have one key (CTAP 2.1,
/// section 8).
pub fn members_ascend()
    ensures { MembersAscend }
{}
