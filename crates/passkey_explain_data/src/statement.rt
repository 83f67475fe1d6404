//! Why attestation statements are refused.
ghost use Rattle.std.specs.Prelude.{◌≡◌, ℕ, IfOk, Some};
ghost use Rattle.passkey_attestation.specs.Formats.{format_name};
ghost use Rattle.passkey_attestation.specs.Statement.{read_statement};
ghost use Rattle.passkey_cbor.specs.Item.{Item};
ghost use Rattle.passkey_cbor.specs.LeadingItem.{IsLeadingItem};
ghost use Rattle.passkey_explain.specs.Along.{IsLocated};
ghost use Rattle.passkey_explain.specs.Blame.{item_along};
ghost use Rattle.passkey_explain.specs.Blaming.{blamed};
ghost use Rattle.passkey_explain_data.specs.StatementBlame.{ExplainsStatement, ExplainsStatementItem, IsFaultOf};
ghost use Rattle.passkey_explain_data.specs.StatementBlame.{blame_of_statement, compound_blame, in_item, none_blame, path_to};
ghost use Rattle.passkey_explain_data.specs.StatementBlame.{statement_blame};
ghost use Rattle.passkey_kinds.specs.Words.{item_of};

use passkey_attestation::{
    AndroidKeyStatement, AppleStatement, AttestationFormat, AttestationStatement, CompoundElement,
    FidoU2fStatement, PackedStatement, SafetyNetStatement, StatementFault, TpmStatement,
};
use passkey_bytes::List;
use passkey_cbor::{CborError, Value};
use passkey_explain::{Blame, Extent, Reason, explain_at, locate};
use passkey_kinds::{Fault, FromCbor, Refusal};
use passkey_malformed::{Malformed, malformed};
use passkey_memory::OutOfMemory;
use passkey_webauthn::EnumNames;
use std::alloc::Global;

/// What in an attestation statement is to blame.
#[derive(Debug, Drop)]
pub enum StatementBlame {
    /// The innermost data item, or map key, that is refused, as in a message.
    Item(Blame),
    /// The whole statement, of the format none, which has members.
    NotEmpty,
    /// The whole statement, of the format compound, which has fewer than two elements.
    TooFew,
    /// The whole statement, of the format compound, an element of which is compound itself.
    Nested,
}

/// What in an attestation statement is refused.
#[derive(Debug, Drop)]
pub struct StatementRefusal {
    /// The fault with which the statement isn't decoded.
    pub fault: StatementFault,
    /// What in it is refused, and why.
    pub blame: StatementBlame,
    /// Where that is encoded.
    pub extent: Extent,
}

/// Why bytes aren't decoded as an attestation statement.
#[derive(Debug, Drop)]
pub enum StatementExplanation {
    /// They don't begin with a well-formed data item of at most 256 levels. Where and why they don't.
    NotWellFormed(Malformed),
    /// Something in that item is refused.
    Refused(StatementRefusal),
}

/// Returns what the type blames for the data item, if it refuses it.
fn item_blame<T: FromCbor>(alloc: Global, value: &Value) -> Result<StatementBlame, OutOfMemory>
    ensures { IfOk result (λ b. blame_of_statement b ≡ in_item (blamed T.typed.shape (item_of value.now))) }
{
    Ok(StatementBlame::Item(explain_at::<T>(alloc, &[], value)?))
}

#[tactic(auto, using(passkey_kinds::proofs::Members::reads_map))]
fn none_blame(alloc: Global, value: &Value) -> StatementBlame
    ensures { blame_of_statement result ≡ none_blame (item_of value.now) }
{
    match value {
        Value::Map(_) => StatementBlame::NotEmpty,
        _ => StatementBlame::Item(Blame {
            path: Vec::new(alloc),
            reason: Reason::Fault(Fault::NotAMap),
        }),
    }
}

fn compound_blame(alloc: Global, value: &Value) -> Result<StatementBlame, OutOfMemory>
    ensures { IfOk result (λ b. blame_of_statement b ≡ compound_blame (item_of value.now)) }
{
    match List::<CompoundElement>::from_value(alloc, value) {
        Ok(elements) => {
            if elements.as_slice().len() < 2 {
                Ok(StatementBlame::TooFew)
            } else {
                Ok(StatementBlame::Nested)
            }
        }
        Err(Refusal::Refused) => item_blame::<List<CompoundElement>>(alloc, value),
        Err(Refusal::OutOfMemory) => Err(OutOfMemory),
    }
}

/// Returns what is to blame if the data item isn't a statement of this format.
fn statement_blame(
    alloc: Global,
    format: AttestationFormat,
    value: &Value,
) -> Result<StatementBlame, OutOfMemory>
    ensures { IfOk result (λ b. blame_of_statement b ≡ statement_blame format (item_of value.now)) }
{
    match format {
        AttestationFormat::Packed => item_blame::<PackedStatement>(alloc, value),
        AttestationFormat::Tpm => item_blame::<TpmStatement>(alloc, value),
        AttestationFormat::AndroidKey => item_blame::<AndroidKeyStatement>(alloc, value),
        AttestationFormat::AndroidSafetyNet => item_blame::<SafetyNetStatement>(alloc, value),
        AttestationFormat::FidoU2f => item_blame::<FidoU2fStatement>(alloc, value),
        AttestationFormat::None => Ok(none_blame(alloc, value)),
        AttestationFormat::Apple => item_blame::<AppleStatement>(alloc, value),
        AttestationFormat::Compound => compound_blame(alloc, value),
    }
}

/// Returns where in the bytes what is to blame is encoded.
fn locate_blame(bytes: &[u8], blame: &StatementBlame) -> Option<Extent>
    ensures { (i part : Item) (len : ℕ) → IsLeadingItem bytes.now i len
        → item_along (path_to (blame_of_statement blame.now)) i ≡ Some part
        → IsLocated (path_to (blame_of_statement blame.now)) i bytes.now result }
{
    match blame {
        StatementBlame::Item(blame) => locate(bytes, &blame.path),
        _ => locate(bytes, &[]),
    }
}

/// Returns the fault with which the data item isn't decoded as a statement of this format.
fn fault_of(
    alloc: Global,
    format: AttestationFormat,
    value: &Value,
) -> Result<Option<StatementFault>, OutOfMemory>
    ensures { IfOk result (IsFaultOf (read_statement (format_name format) (item_of value.now))) }
{
    match AttestationStatement::from_value(alloc, format.name(), value) {
        Ok(_) => Ok(None),
        Err(StatementFault::OutOfMemory) => Err(OutOfMemory),
        Err(StatementFault::Member(fault)) => Ok(Some(StatementFault::Member(fault))),
        Err(StatementFault::NotEmpty) => Ok(Some(StatementFault::NotEmpty)),
        Err(StatementFault::NotCompound) => Ok(Some(StatementFault::NotCompound)),
    }
}

/// Explains why this data item, which begins the bytes, isn't an attestation statement of this
/// format.
fn explain_item(
    alloc: Global,
    format: AttestationFormat,
    bytes: &[u8],
    value: &Value,
) -> Result<Option<StatementRefusal>, OutOfMemory>
    requires { (len : ℕ) × IsLeadingItem bytes.now (item_of value.now) len }
    ensures { IfOk result (ExplainsStatementItem format (item_of value.now) bytes.now) }
{
    let Some(fault) = fault_of(alloc, format, value)? else {
        return Ok(None);
    };
    let blame = statement_blame(alloc, format, value)?;
    let extent = locate_blame(bytes, &blame).unwrap();
    Ok(Some(StatementRefusal {
        fault,
        blame,
        extent,
    }))
}

/// Explains why the bytes don't begin with an attestation statement of this format (WebAuthn Level
/// 3, section 8). Returns `None` exactly if they do, as by `AttestationStatement::from_value`, and
/// `OutOfMemory` if an allocation fails. Ignores the bytes after it.
pub fn explain_statement(
    alloc: Global,
    format: AttestationFormat,
    bytes: &[u8],
) -> Result<Option<StatementExplanation>, OutOfMemory>
    ensures { IfOk result (ExplainsStatement format bytes.now) }
{
    let value = match Value::from_slice(alloc, bytes) {
        Ok((value, _)) => value,
        Err(CborError::OutOfMemory) => return Err(OutOfMemory),
        Err(_) => {
            let stop = malformed(bytes).unwrap();
            return Ok(Some(StatementExplanation::NotWellFormed(stop)));
        }
    };
    match explain_item(alloc, format, bytes, &value)? {
        Some(refusal) => Ok(Some(StatementExplanation::Refused(refusal))),
        None => Ok(None),
    }
}
