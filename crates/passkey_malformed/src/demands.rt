//! What may be asked of bytes beside that a data item begins them, or where they aren't so.
ghost use Rattle.std.specs.Prelude.{◌≡◌, MatchOption, MatchResult, min};
ghost use Rattle.passkey_cbor.specs.LeadingItem.{max_depth};
ghost use Rattle.passkey_malformed.specs.Demands.{IsUnmet, LeadsAs, Meets, StraysAs, Unmet, rule_of};

use crate::canonical::{Breach, after_item as after_canonical, broken};
use crate::items::after_item as after_well_formed;
use crate::rule::{NotCanonical, Rule};
use crate::why::Why;
use passkey_cbor::MAX_DEPTH;

/// What is asked of bytes beside that a well-formed data item begins them.
#[derive(Clone, Copy, Debug, PartialEq, Eq)]
pub struct Demands {
    /// The data item is in CTAP2's canonical form.
    pub canonical: bool,
    /// Arrays, maps and tags are inside one another at no more levels than this; CTAP2 allows
    /// `CTAP2_DEPTH`. More than 256 are taken for 256.
    pub levels: usize,
    /// No bytes follow it.
    pub whole: bool,
}

/// Returns the rule that is broken where bytes with so many levels aren't well-formed.
fn rule_of(why: Why) -> Rule
    ensures { result ≡ rule_of why }
{
    match why {
        Why::TooDeep => Rule::Levels,
        _ => Rule::WellFormed(why),
    }
}

/// Returns the bytes after a data item of at most `levels` levels, or which rule is broken.
fn after_item(bytes: &[u8], canonical: bool, levels: usize) -> Result<&[u8], Breach<'_>>
    ensures { MatchResult result (λ rest. LeadsAs canonical levels bytes.now rest.now)
        (λ b. StraysAs canonical levels bytes.now b.rule b.rest.now) }
{
    if canonical {
        return after_canonical(bytes, levels);
    }
    match after_well_formed(bytes, levels, Why::StrayBreak) {
        Ok(rest) => Ok(rest),
        Err(stop) => Err(broken(rule_of(stop.why), stop.rest)),
    }
}

/// Returns where the bytes break what is asked of them.
fn breach_of(bytes: &[u8], demands: Demands) -> Option<Breach<'_>>
    ensures { MatchOption result (Meets demands bytes.now)
        (λ b. Unmet demands bytes.now b.rule b.rest.now) }
{
    match after_item(bytes, demands.canonical, demands.levels.min(MAX_DEPTH)) {
        Ok(rest) => {
            if demands.whole && !rest.is_empty() {
                Some(broken(Rule::NothingAfter, rest))
            } else {
                None
            }
        }
        Err(broken) => Some(broken),
    }
}

/// Returns where the bytes don't begin with a data item as these demands want it, or go on after it
/// where they mustn't, and by which rule; or `None` if they are as is wanted. The first place is
/// returned. Decodes the bytes once, and allocates nothing. (CTAP 2.2, section 8.)
pub fn unmet(bytes: &[u8], demands: Demands) -> Option<NotCanonical>
    ensures { MatchOption result (Meets demands bytes.now) (IsUnmet demands bytes.now) }
{
    let Breach { rule, rest } = breach_of(bytes, demands)?;
    let offset = bytes.len() - rest.len();
    Some(NotCanonical { offset, rule })
}
