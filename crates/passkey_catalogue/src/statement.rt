//! Attestation statements, decoded and encoded again.
ghost use Rattle.std.specs.Prelude.{◌≡◌, IfOk, IfErr};
ghost use Rattle.passkey_attestation.specs.Formats.{format_name};
ghost use Rattle.passkey_attestation.specs.Statement.{read_statement, statement_parts};
ghost use Rattle.passkey_cbor.specs.View.{item_of};
ghost use Rattle.passkey_catalogue.specs.Rewriting.{IsFaultOf, IsStatementItem, IsStatementRefusal, RewritesStatement};
ghost use Rattle.passkey_rewrite.specs.Rewriting.{IsFrontLength};

use passkey_attestation::{AttestationFormat, AttestationStatement, StatementFault};
use passkey_cbor::Value;
use passkey_cose::CoseError;
use passkey_rewrite::RunFault;
use passkey_webauthn::EnumNames;
use std::alloc::Global;

/// Decodes a statement of this format. The fault of a statement that isn't one of its map is
/// `UnexpectedItem`.
pub(crate) fn statement_from(
    alloc: Global,
    format: AttestationFormat,
    value: &Value,
) -> Result<AttestationStatement, RunFault>
    ensures ok { IfOk result
        (λ s. read_statement (format_name format) (item_of value.now) ≡ Ok (statement_parts s)) }
    ensures err { IfErr result (IsFaultOf (read_statement (format_name format) (item_of value.now))) }
{
    match AttestationStatement::from_value(alloc, format.name(), value) {
        Ok(statement) => Ok(statement),
        Err(StatementFault::OutOfMemory) => Err(RunFault::OutOfMemory),
        Err(StatementFault::Member(fault)) => Err(RunFault::MessageRefused(fault)),
        Err(StatementFault::NotEmpty) => Err(RunFault::Refused(CoseError::UnexpectedItem)),
        Err(StatementFault::NotCompound) => Err(RunFault::Refused(CoseError::UnexpectedItem)),
    }
}

/// Decodes the item as a statement of this format, and returns the data item that the statement is
/// encoded as. The faults are those of `statement_from`.
fn statement_item(
    alloc: Global,
    format: AttestationFormat,
    value: &Value,
) -> Result<Value, RunFault>
    ensures ok { IfOk result (λ item. IsStatementItem format (item_of value.now) (item_of item)) }
    ensures err { IfErr result (IsFaultOf (read_statement (format_name format) (item_of value.now))) }
{
    let statement = statement_from(alloc, format, value)?;
    let item = statement.to_value(alloc);
    drop(statement);
    Ok(item?)
}

/// Decodes the leading data item of the bytes as a statement of this format, and encodes it. Returns
/// the encoding, and the item's length. Returns `MessageRefused` if its map has a fault, `Refused` if
/// there is no data item or it isn't such a statement for another reason, and `OutOfMemory` if an
/// allocation fails.
pub(crate) fn rewrite_statement(
    alloc: Global,
    format: AttestationFormat,
    bytes: &[u8],
) -> Result<(Vec<u8>, usize), RunFault>
    ensures ok { IfOk result
        (λ made. RewritesStatement format bytes.now made.0.items × IsFrontLength bytes.now made.1) }
    ensures err { IfErr result (IsStatementRefusal format bytes.now) }
{
    let (value, len) = Value::from_slice(alloc, bytes)?;
    let item = statement_item(alloc, format, &value);
    drop(value);
    let item = item?;
    let encoding = item.to_vec(alloc);
    drop(item);
    Ok((encoding?, len))
}
