//! Attestation statements of every format.
ghost use Rattle.std.specs.Prelude.{◌≡◌, map, IfOk, OnOk};
ghost use Rattle.passkey_attestation.specs.Formats.{format_named};
ghost use Rattle.passkey_attestation.specs.Statement.{ReadsStatement, KnownGrows, NamedGrows, StatementFits, read_map, read_none};
ghost use Rattle.passkey_attestation.specs.Statement.{read_compound, read_known, read_named, statement_parts, statement_name};
ghost use Rattle.passkey_attestation.specs.Statement.{statement_tree, is_statement_coherent};
ghost use Rattle.passkey_attestation.specs.Statements.{element_parts};
ghost use Rattle.passkey_kinds.specs.Words.{Grows, MayGrowAt, fields_of, item_of, table_of};

use crate::compound::are_compound;
use crate::{
    AndroidKeyStatement, AppleStatement, AttestationFormat, CompoundElement, FidoU2fStatement,
    PackedStatement, SafetyNetStatement, StatementFault, TpmStatement,
};
use passkey_bytes::{List, Text};
use passkey_cbor::Value;
use passkey_kinds::{
    Fault, FromCbor, OutOfMemory, PlainRecord, Refusal, ToCbor, record_from_value,
};
use passkey_webauthn::EnumNames;
use std::alloc::Global;

/// An attestation statement, by its format (WebAuthn Level 3, section 8). Nothing is verified: the
/// signature, the certificates and the structures of a TPM are lent as they came.
#[derive(Debug, Drop, PartialEq, Eq)]
pub enum AttestationStatement {
    /// `packed`.
    Packed(PackedStatement),
    /// `tpm`.
    Tpm(TpmStatement),
    /// `android-key`.
    AndroidKey(AndroidKeyStatement),
    /// `android-safetynet`.
    AndroidSafetyNet(SafetyNetStatement),
    /// `fido-u2f`.
    FidoU2f(FidoU2fStatement),
    /// `none`: an empty map.
    None,
    /// `apple`.
    Apple(AppleStatement),
    /// `compound`: at least two statements, none of them compound. Each is undecoded;
    /// `CompoundElement::statement` decodes it.
    Compound(List<CompoundElement>),
    /// Any other format, with its identifier: the statement, undecoded.
    Other(Text, Value),
}

#[tactic(auto, unfolding(crate::specs::Statement::read_map))]
fn map_from_value<R: PlainRecord>(alloc: Global, value: &Value) -> Result<R, StatementFault>
    ensures { ReadsStatement (λ r. r) (MayGrowAt (table_of (fields_of R.table)) (item_of value.now))
        (read_map R.table (item_of value.now)) result }
{
    Ok(record_from_value::<R>(alloc, value)?)
}

#[tactic(auto, using(passkey_kinds::proofs::Members::reads_map))]
fn none_from_value(value: &Value) -> Result<AttestationStatement, StatementFault>
    ensures { ReadsStatement statement_parts ⊥ (read_none (item_of value.now)) result }
{
    match value {
        Value::Map(members) => {
            if members.is_empty() {
                Ok(AttestationStatement::None)
            } else {
                Err(StatementFault::NotEmpty)
            }
        }
        _ => Err(StatementFault::Member(Fault::NotAMap)),
    }
}

#[tactic(auto, unfolding(crate::specs::Statement::read_compound))]
fn compound_from_value(
    alloc: Global,
    value: &Value,
) -> Result<List<CompoundElement>, StatementFault>
    ensures { ReadsStatement (λ es. map element_parts es) (Grows (item_of value.now))
        (read_compound (item_of value.now)) result }
{
    match List::<CompoundElement>::from_value(alloc, value) {
        Ok(elements) => {
            if are_compound(elements.as_slice()) {
                Ok(elements)
            } else {
                Err(StatementFault::NotCompound)
            }
        }
        Err(Refusal::Refused) => Err(StatementFault::NotCompound),
        Err(Refusal::OutOfMemory) => Err(StatementFault::OutOfMemory),
    }
}

fn known_from_value(
    alloc: Global,
    format: AttestationFormat,
    value: &Value,
) -> Result<AttestationStatement, StatementFault>
    ensures { ReadsStatement statement_parts (KnownGrows format (item_of value.now))
        (read_known format (item_of value.now)) result }
{
    match format {
        AttestationFormat::Packed => {
            Ok(AttestationStatement::Packed(map_from_value(alloc, value)?))
        }
        AttestationFormat::Tpm => Ok(AttestationStatement::Tpm(map_from_value(alloc, value)?)),
        AttestationFormat::AndroidKey => {
            Ok(AttestationStatement::AndroidKey(map_from_value(alloc, value)?))
        }
        AttestationFormat::AndroidSafetyNet => {
            Ok(AttestationStatement::AndroidSafetyNet(map_from_value(alloc, value)?))
        }
        AttestationFormat::FidoU2f => {
            Ok(AttestationStatement::FidoU2f(map_from_value(alloc, value)?))
        }
        AttestationFormat::None => none_from_value(value),
        AttestationFormat::Apple => Ok(AttestationStatement::Apple(map_from_value(alloc, value)?)),
        AttestationFormat::Compound => {
            Ok(AttestationStatement::Compound(compound_from_value(alloc, value)?))
        }
    }
}

impl AttestationStatement {
    /// Decodes the statement of the format with this identifier, `attStmt` of an attestation object
    /// or of an authenticatorMakeCredential response (WebAuthn Level 3, section 8). Unknown members
    /// are skipped, and a statement of an unknown format is kept.
    ///
    /// Returns for packed, tpm, android-key, android-safetynet, fido-u2f and apple `Member` with
    /// the fault of the map: `NotAMap`, or of its first bad member `BadKey`, `Repeated` or
    /// `Refused`, or else `Missing`; for none `Member(NotAMap)`, or `NotEmpty`; for compound
    /// `NotCompound`. Returns `OutOfMemory` if an allocation fails, which can only happen for an
    /// unknown format, for compound, and for a member that takes memory.
    pub fn from_value(
        alloc: Global,
        format: &str,
        value: &Value,
    ) -> Result<AttestationStatement, StatementFault>
        ensures { ReadsStatement statement_parts (NamedGrows (format_named format.now) (item_of value.now))
            (read_named (format_named format.now) format.now (item_of value.now)) result }
    {
        match AttestationFormat::from_name(format) {
            Some(format) => known_from_value(alloc, format, value),
            None => {
                let format = Text::from_str(alloc, format)?;
                Ok(AttestationStatement::Other(format, value.try_clone(alloc)?))
            }
        }
    }

    /// Lends the format's identifier.
    pub fn format(&self) -> &str
        ensures { result.now ≡ statement_name (statement_parts self.now) }
    {
        match self {
            AttestationStatement::Packed(_) => "packed",
            AttestationStatement::Tpm(_) => "tpm",
            AttestationStatement::AndroidKey(_) => "android-key",
            AttestationStatement::AndroidSafetyNet(_) => "android-safetynet",
            AttestationStatement::FidoU2f(_) => "fido-u2f",
            AttestationStatement::None => "none",
            AttestationStatement::Apple(_) => "apple",
            AttestationStatement::Compound(_) => "compound",
            AttestationStatement::Other(format, _) => format.as_str(),
        }
    }

    /// Returns the data item of the statement, with members in CTAP2's order (CTAP 2.1, section 8).
    /// Returns `OutOfMemory` if an allocation fails.
    pub fn to_value(&self, alloc: Global) -> Result<Value, OutOfMemory>
        ensures tree { IfOk result (λ v. item_of v ≡ statement_tree (statement_parts self.now)) }
        ensures fits { OnOk result (StatementFits (statement_parts self.now)) }
    {
        match self {
            AttestationStatement::Packed(statement) => statement.to_value(alloc),
            AttestationStatement::Tpm(statement) => statement.to_value(alloc),
            AttestationStatement::AndroidKey(statement) => statement.to_value(alloc),
            AttestationStatement::AndroidSafetyNet(statement) => statement.to_value(alloc),
            AttestationStatement::FidoU2f(statement) => statement.to_value(alloc),
            AttestationStatement::None => Ok(Value::Map(Vec::new(alloc))),
            AttestationStatement::Apple(statement) => statement.to_value(alloc),
            AttestationStatement::Compound(elements) => elements.to_value(alloc),
            AttestationStatement::Other(_, statement) => statement.try_clone(alloc),
        }
    }

    /// Returns whether the statement decodes again from `to_value` and `format`: a compound
    /// statement has at least two elements, none of them compound, and another format's identifier
    /// is none of the eight. Allocates nothing.
    pub fn is_coherent(&self) -> bool
        ensures { result ≡ is_statement_coherent (statement_parts self.now) }
    {
        match self {
            AttestationStatement::Compound(elements) => are_compound(elements.as_slice()),
            AttestationStatement::Other(format, _) => {
                AttestationFormat::from_name(format.as_str()).is_none()
            }
            _ => true,
        }
    }
}

impl CompoundElement {
    /// Decodes the element's statement. The errors are those of `AttestationStatement::from_value`.
    pub fn statement(&self, alloc: Global) -> Result<AttestationStatement, StatementFault>
        ensures { ReadsStatement statement_parts
            (NamedGrows (format_named (element_parts self.now).fmt) (element_parts self.now).att_stmt)
            (read_named (format_named (element_parts self.now).fmt) (element_parts self.now).fmt
            (element_parts self.now).att_stmt) result }
    {
        AttestationStatement::from_value(alloc, self.fmt.as_str(), &self.att_stmt)
    }
}
