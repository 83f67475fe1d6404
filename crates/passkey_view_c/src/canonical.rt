//! Where bytes leave CTAP2's canonical form, for C.
ghost use Rattle.std.specs.Prelude.{min};
ghost use Rattle.passkey_cbor.specs.LeadingItem.{max_depth};
ghost use Rattle.passkey_view_c.specs.Canonical.{FindsBreach};

use passkey_malformed::not_canonical;

/// Returns PUFFGRIT_CANONICAL, which is 0, if the bytes are exactly one data item in CTAP2's canonical form, with arrays
/// and maps inside one another at no more than so many levels (4 in messages), and at most 256. Else writes
/// the offset of the first head that breaks a rule to `offset`, and returns the rule, from
/// PUFFGRIT_RULE_WELL_FORMED on; of a key that isn't in its place the offset is the key's, and of trailing
/// bytes that of the first. Leaves `offset` as it was if the bytes are canonical. (CTAP 2.2, section 8.)
#[unsafe(no_mangle)]
pub extern "C" fn puffgrit_not_canonical(bytes: &[u8], levels: usize, offset: &mut usize) -> u32
    ensures { FindsBreach (min levels max_depth) bytes.now offset.old offset.new result }
{
    match not_canonical(bytes, levels) {
        None => 0,
        Some(found) => {
            *offset = found.offset;
            u32::from(found.rule.number())
        }
    }
}
