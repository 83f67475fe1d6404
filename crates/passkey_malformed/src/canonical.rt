//! CTAP2's canonical form, or which rule is broken.
ghost use Rattle.std.specs.Prelude.{◌≡◌, ℕ, ◌<◌, IfSome, List, MatchOption, MatchResult, None, length, min, option_map};
ghost use Rattle.passkey_cbor.specs.CanonicalReading.{BeginsContent, BeginsItem, BeginsItems, BeginsPairs, BeginsShortest, head_written};
ghost use Rattle.passkey_cbor.specs.LeadingItem.{max_depth};
ghost use Rattle.passkey_cbor.specs.Lent.{string_head};
ghost use Rattle.passkey_cbor.specs.Written.{shortest_head, float_head};
ghost use Rattle.passkey_cbor.specs.declared.head.Head.TheVariants.{Array as ArrayHead, Map as MapHead};
ghost use Rattle.passkey_malformed.specs.Breaks.{Breaks, BreaksInItems, BreaksInPairs, BreaksOff, IsCanonicalWithin, IsNotCanonical, NoShortestHead, key_rule};
ghost use Rattle.passkey_malformed.specs.declared.rule.Rule.TheVariants.{WellFormed as Formed};

use crate::heads::{Stop, after_head};
use crate::rule::{NotCanonical, Rule};
use crate::strings::after_string;
use crate::why::Why;
use passkey_cbor::{Float, Head, MAX_DEPTH, ctap2_order};
use std::cmp::Ordering;

/// The number of nesting levels of arrays and maps that CTAP2 allows in a message (CTAP 2.2, section 8).
pub const CTAP2_DEPTH: usize = 4;

/// Where the bytes break a rule.
#[derive(Clone, Copy)]
pub(crate) struct Breach<'a> {
    pub(crate) rule: Rule,
    /// The bytes from there on.
    pub(crate) rest: &'a [u8],
}

pub(crate) fn broken(rule: Rule, rest: &[u8]) -> Breach<'_>
    ensures rule { result.rule ≡ rule }
    ensures rest { result.rest.now ≡ rest.now }
{
    Breach { rule, rest }
}

fn not_well_formed(stop: Stop<'_>) -> Breach<'_>
    ensures rule { result.rule ≡ Formed stop.entry.why }
    ensures rest { result.rest.now ≡ stop.entry.rest.now }
{
    broken(Rule::WellFormed(stop.why), stop.rest)
}

/// Returns the length in bytes of the shortest head with this argument.
#[tactic(auto, unfolding(passkey_cbor::specs::Written::shortest_head))]
fn argument_len(argument: u64) -> usize
    ensures { (major : ℕ) → result ≡ length (shortest_head major argument) }
{
    match argument {
        0..=23 => 1,
        24..=0xff => 2,
        0x100..=0xffff => 3,
        0x1_0000..=0xffff_ffff => 5,
        _ => 9,
    }
}

/// Returns the length in bytes of the head of a float, which keeps its width.
#[tactic(auto, unfolding(passkey_cbor::specs::Written::float_head))]
fn float_len(float: Float) -> usize
    ensures { result ≡ length (float_head float) }
{
    match float.width() {
        2 => 3,
        4 => 5,
        _ => 9,
    }
}

/// Returns the length in bytes of the head's shortest encoding.
fn shortest_len(head: &Head) -> usize
    ensures { result ≡ length (head_written head.now) }
{
    match head {
        Head::Unsigned(n) | Head::Negative(n) | Head::Tag(n) => argument_len(*n),
        Head::Bytes(len) | Head::Text(len) | Head::Array(len) | Head::Map(len) => match len {
            None => 1,
            Some(n) => argument_len(*n),
        },
        Head::Simple(n) => { if *n < 24 { 1 } else { 2 } }
        Head::Float(float) => float_len(*float),
        Head::Break => 1,
    }
}

/// Returns the head at the beginning of the bytes and the bytes after it, if it has its shortest encoding.
fn after_shortest_head(bytes: &[u8]) -> Result<(Head, &[u8]), Breach<'_>>
    ensures { MatchResult result (λ r. BeginsShortest r.0 bytes.now r.1.now)
        (λ b. NoShortestHead bytes.now b.rule b.rest.now) }
{
    let (head, following) = match after_head(bytes) {
        Ok(found) => found,
        Err(stop) => return Err(not_well_formed(stop)),
    };
    if bytes.len() - following.len() != shortest_len(&head) {
        return Err(broken(Rule::ShortestHead, bytes));
    }
    Ok((head, following))
}

/// Returns the bytes after the content of a string whose head begins `bytes`, before `following`.
fn after_string_content<'a>(
    bytes: &'a [u8],
    is_text: bool,
    len: Option<u64>,
    following: &'a [u8],
) -> Result<&'a [u8], Breach<'a>>
    requires { BeginsShortest (string_head is_text len) bytes.now following.now }
    ensures { (levels : ℕ) → MatchResult result
        (λ rest. BeginsContent levels (string_head is_text len) following.now rest.now)
        (λ b. Breaks levels bytes.now b.rule b.rest.now) }
{
    match len {
        None => Err(broken(Rule::DefiniteLength, bytes)),
        Some(_) => match after_string(is_text, len, following) {
            Ok(rest) => Ok(rest),
            Err(stop) => Err(not_well_formed(stop)),
        },
    }
}

/// Returns the rule that the key breaks after the previous one, if there is one.
fn key_rule(before: Option<&[u8]>, key: &[u8]) -> Option<Rule>
    requires before { IfSome before (λ k. 0 < length k.now) }
    requires key { 0 < length key.now }
    ensures { result ≡ key_rule (option_map (λ k. k.now) before.entry) key.now }
{
    match before {
        None => None,
        Some(before) => match ctap2_order(before, key) {
            Ordering::Less => None,
            Ordering::Equal => Some(Rule::DistinctKeys),
            Ordering::Greater => Some(Rule::AscendingKeys),
        },
    }
}

/// Returns the bytes after `count` canonical data items.
#[cycle(canonical)]
fn after_items(bytes: &[u8], count: u64, levels: usize) -> Result<&[u8], Breach<'_>>
    ensures { MatchResult result (λ rest. BeginsItems levels count bytes.now rest.now)
        (λ b. BreaksInItems levels count bytes.now b.rule b.rest.now) }
{
    let mut here = bytes;
    let mut left = count;
    while left > 0 {
        match after_item(here, levels) {
            Ok(next) => here = next,
            Err(broken) => return Err(broken),
        }
        left -= 1;
    }
    Ok(here)
}

/// Returns the bytes after `count` pairs of canonical data items with ascending keys.
#[cycle(canonical)]
fn after_pairs(bytes: &[u8], count: u64, levels: usize) -> Result<&[u8], Breach<'_>>
    ensures { MatchResult result (λ rest. BeginsPairs levels count None bytes.now rest.now)
        (λ b. BreaksInPairs levels count None bytes.now b.rule b.rest.now) }
{
    let mut here = bytes;
    let mut before = None;
    let mut left = count;
    while left > 0 {
        let after_key = match after_item(here, levels) {
            Ok(next) => next,
            Err(broken) => return Err(broken),
        };
        let key = &here[..here.len() - after_key.len()];
        if let Some(rule) = key_rule(before, key) {
            return Err(broken(rule, here));
        }
        match after_item(after_key, levels) {
            Ok(next) => here = next,
            Err(broken) => return Err(broken),
        }
        before = Some(key);
        left -= 1;
    }
    Ok(here)
}

/// Returns the bytes after the elements of an array whose head begins `bytes`, before `following`.
#[cycle(canonical)]
fn after_array<'a>(
    bytes: &'a [u8],
    len: Option<u64>,
    following: &'a [u8],
    levels: usize,
) -> Result<&'a [u8], Breach<'a>>
    requires { BeginsShortest (ArrayHead len) bytes.now following.now }
    ensures { MatchResult result (λ rest. BeginsContent levels (ArrayHead len) following.now rest.now)
        (λ b. Breaks levels bytes.now b.rule b.rest.now) }
{
    let Some(count) = len else {
        return Err(broken(Rule::DefiniteLength, bytes));
    };
    match levels.checked_sub(1) {
        None => Err(broken(Rule::Levels, bytes)),
        Some(inner) => after_items(following, count, inner),
    }
}

/// Returns the bytes after the pairs of a map whose head begins `bytes`, before `following`.
#[cycle(canonical)]
fn after_map<'a>(
    bytes: &'a [u8],
    len: Option<u64>,
    following: &'a [u8],
    levels: usize,
) -> Result<&'a [u8], Breach<'a>>
    requires { BeginsShortest (MapHead len) bytes.now following.now }
    ensures { MatchResult result (λ rest. BeginsContent levels (MapHead len) following.now rest.now)
        (λ b. Breaks levels bytes.now b.rule b.rest.now) }
{
    let Some(count) = len else {
        return Err(broken(Rule::DefiniteLength, bytes));
    };
    match levels.checked_sub(1) {
        None => Err(broken(Rule::Levels, bytes)),
        Some(inner) => after_pairs(following, count, inner),
    }
}

/// Returns the bytes after the content of a data item whose head begins `bytes`, before `following`.
#[cycle(canonical)]
fn after_content<'a>(
    bytes: &'a [u8],
    head: Head,
    following: &'a [u8],
    levels: usize,
) -> Result<&'a [u8], Breach<'a>>
    requires { BeginsShortest head bytes.now following.now }
    ensures { MatchResult result (λ rest. BeginsContent levels head following.now rest.now)
        (λ b. Breaks levels bytes.now b.rule b.rest.now) }
{
    match head {
        Head::Unsigned(_) => Ok(following),
        Head::Negative(_) => Ok(following),
        Head::Float(_) => Ok(following),
        Head::Simple(n) => {
            if n == 23 {
                Err(broken(Rule::NoUndefined, bytes))
            } else {
                Ok(following)
            }
        }
        Head::Bytes(len) => after_string_content(bytes, false, len, following),
        Head::Text(len) => after_string_content(bytes, true, len, following),
        Head::Array(len) => after_array(bytes, len, following, levels),
        Head::Map(len) => after_map(bytes, len, following, levels),
        Head::Tag(_) => Err(broken(Rule::NoTag, bytes)),
        Head::Break => Err(broken(Rule::WellFormed(Why::StrayBreak), bytes)),
    }
}

/// Returns the bytes after a canonical data item of at most `levels` levels, or which rule is broken.
#[cycle(canonical)]
pub(crate) fn after_item(bytes: &[u8], levels: usize) -> Result<&[u8], Breach<'_>>
    ensures { MatchResult result (λ rest. BeginsItem levels bytes.now rest.now)
        (λ b. Breaks levels bytes.now b.rule b.rest.now) }
{
    match after_shortest_head(bytes) {
        Ok((head, following)) => after_content(bytes, head, following, levels),
        Err(broken) => Err(broken),
    }
}

/// Returns where the bytes aren't one canonical data item of at most `levels` levels, and nothing else.
fn breach_in(bytes: &[u8], levels: usize) -> Option<Breach<'_>>
    ensures { MatchOption result (IsCanonicalWithin levels bytes.now)
        (λ b. BreaksOff levels bytes.now b.rule b.rest.now) }
{
    match after_item(bytes, levels) {
        Ok([]) => None,
        Ok(rest) => Some(broken(Rule::NothingAfter, rest)),
        Err(broken) => Some(broken),
    }
}

/// Returns where the bytes aren't exactly one data item in CTAP2's canonical form, in which arrays and
/// maps are inside one another at no more than `levels` levels, and by which rule; or `None` if they
/// are. An array of numbers has one level. CTAP2 allows `CTAP2_DEPTH`; more than 256 are taken for
/// 256. The first place is returned, and all before it is canonical. Decodes the bytes once, and
/// allocates nothing. (CTAP 2.2, section 8.)
pub fn not_canonical(bytes: &[u8], levels: usize) -> Option<NotCanonical>
    ensures { MatchOption result (IsCanonicalWithin (min levels max_depth) bytes.now)
        (IsNotCanonical (min levels max_depth) bytes.now) }
{
    let Breach { rule, rest } = breach_in(bytes, levels.min(MAX_DEPTH))?;
    let offset = bytes.len() - rest.len();
    Some(NotCanonical { offset, rule })
}
