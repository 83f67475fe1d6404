//! Why a kind refuses bytes, in two lines, and where.

use crate::examine::Examined;
use passkey_attestation::{
    AndroidKeyStatement, AppleStatement, AttestationFormat, CompoundElement, FidoU2fStatement,
    PackedStatement, SafetyNetStatement, TpmStatement,
};
use passkey_bytes::List;
use passkey_cbor::{CborError, Cursor, Head, Value};
use passkey_cose::CoseError;
use passkey_explain::{Blame, Explanation, Extent, Reason, RefusedItem, Step};
use passkey_explain_data::{
    DataReason, DataRefusal, KeyRefusal, StatementBlame, StatementExplanation, StatementRefusal,
    explain_data, locate_key,
};
use passkey_kinds::{Fault, Form, FromCbor, Message, Wanted};
use passkey_malformed::{Malformed, malformed};
use passkey_memory::OutOfMemory;
use passkey_tpm::TpmRefusal;
use std::alloc::Global;

/// Returns the refusal by a call that gives no explanation.
pub fn refused(alloc: Global, error: CoseError) -> Result<Examined, OutOfMemory> {
    match error {
        CoseError::OutOfMemory => Err(OutOfMemory),
        error => Ok(Examined::Refused(format!(in alloc; "{error}")?, None)),
    }
}

/// Returns which of so many bytes are refused: those from where they aren't well-formed.
fn extent_from(malformed: Malformed, end: usize) -> Extent {
    Extent {
        offset: malformed.offset,
        len: end.saturating_sub(malformed.offset),
    }
}

pub fn moved_extent(extent: Extent, by: usize) -> Extent {
    Extent {
        offset: extent.offset.saturating_add(by),
        len: extent.len,
    }
}

/// Returns the refusal with offsets that are greater by this.
fn moved(refusal: DataRefusal, by: usize) -> DataRefusal {
    DataRefusal {
        fault: refusal.fault,
        part: refusal.part,
        extent: moved_extent(refusal.extent, by),
        reason: match refusal.reason {
            DataReason::NotWellFormed(malformed) => DataReason::NotWellFormed(Malformed {
                offset: malformed.offset.saturating_add(by),
                why: malformed.why,
            }),
            DataReason::Key(key, extent) => DataReason::Key(key, moved_extent(extent, by)),
            reason => reason,
        },
    }
}

/// Returns what of authenticator data is to blame: the part, or what in it is.
fn data_extent(refusal: &DataRefusal) -> Extent {
    let part = refusal.extent;
    match refusal.reason {
        DataReason::NotWellFormed(malformed) => {
            extent_from(malformed, part.offset.saturating_add(part.len))
        }
        DataReason::Key(_, extent) => extent,
        _ => part,
    }
}

/// Returns the refusal of authenticator data.
pub fn data_refused(alloc: Global, refusal: DataRefusal) -> Result<Examined, OutOfMemory> {
    let fault = refusal.fault;
    let text = format!(in alloc; "{fault}\n{refusal}")?;
    Ok(Examined::Refused(text, Some(data_extent(&refusal))))
}

/// Returns the refusal of the data item that begins the bytes as a key.
pub fn key_refused(
    alloc: Global,
    bytes: &[u8],
    refusal: KeyRefusal,
) -> Result<Examined, OutOfMemory> {
    let fault = refusal.fault;
    let Some(extent) = locate_key(bytes, refusal.blame) else {
        return Ok(Examined::Refused(format!(in alloc; "{fault}\n{refusal}")?, None));
    };
    let Extent { offset, len } = extent;
    let text = format!(in alloc; "{fault}\n{refusal} (offset {offset}, length {len})")?;
    Ok(Examined::Refused(text, Some(extent)))
}

fn not_well_formed(
    alloc: Global,
    bytes: &[u8],
    malformed: Malformed,
) -> Result<Examined, OutOfMemory> {
    let fault = Fault::DecodeFailed;
    let text = format!(in alloc; "{fault}\n{malformed}")?;
    let extent = extent_from(malformed, bytes.len());
    Ok(Examined::Refused(text, Some(extent)))
}

/// Returns the refusal of bytes that don't begin with a well-formed data item.
pub fn cbor_refused(
    alloc: Global,
    bytes: &[u8],
    error: CborError,
) -> Result<Examined, OutOfMemory> {
    match (error, malformed(bytes)) {
        (CborError::OutOfMemory, _) => Err(OutOfMemory),
        (_, Some(malformed)) => not_well_formed(alloc, bytes, malformed),
        (error, None) => Ok(Examined::Refused(format!(in alloc; "{error}")?, None)),
    }
}

/// Returns the content of the byte string at this place, and its offset, if its length is definite.
pub fn content_at(bytes: &[u8], extent: Extent) -> Option<(usize, &[u8])> {
    let end = extent.offset.saturating_add(extent.len);
    let item = bytes.get(extent.offset..end)?;
    let mut cursor = Cursor::new(item);
    match cursor.head() {
        Some(Head::Bytes(Some(_))) => {
            let content = item.get(cursor.place()..)?;
            Some((extent.offset.saturating_add(cursor.place()), content))
        }
        _ => None,
    }
}

/// Returns what is refused of the authenticator data in a member that is refused because of them.
fn refusal_inside(
    alloc: Global,
    bytes: &[u8],
    item: &RefusedItem,
) -> Result<Option<DataRefusal>, OutOfMemory> {
    if item.blame.reason != Reason::Wanted(Wanted::AuthenticatorData) {
        return Ok(None);
    }
    let Some((offset, content)) = content_at(bytes, item.extent) else {
        return Ok(None);
    };
    match explain_data(alloc, content)? {
        Some(refusal) => Ok(Some(moved(refusal, offset))),
        None => Ok(None),
    }
}

/// Returns the member's name, if the path leads to one of the message itself.
fn member_name(path: &[Step]) -> Option<&'static str> {
    if path.len() > 1 {
        return None;
    }
    let step = path.first()?;
    match step {
        Step::Member(_, _, name) => Some(*name),
        _ => None,
    }
}

/// Returns the name of the member that is missing, if one is, of a type or of a record in it.
fn missing_name<M: FromCbor>(
    alloc: Global,
    blame: &Blame,
) -> Result<Option<&'static str>, OutOfMemory> {
    let Reason::Fault(Fault::Missing(number)) = blame.reason else {
        return Ok(None);
    };
    let mut way = Vec::new(alloc);
    for step in &blame.path {
        way.push(match step {
            Step::Member(_, member, _) => *member,
            _ => 0,
        })?;
    }
    match M::look(alloc, &way, &Value::Null)?.form {
        Form::Record(_, rows) => {
            let row = rows.iter().find(|row| row.number() == number);
            Ok(row.map(|row| row.name()))
        }
        _ => Ok(None),
    }
}

/// Returns the line with the name of the member that is missing, if one is.
fn with_missing_name<M: FromCbor>(
    alloc: Global,
    mut line: String,
    blame: &Blame,
) -> Result<String, OutOfMemory> {
    if let Some(name) = missing_name::<M>(alloc, blame)? {
        line.push_str(": ")?;
        line.push_str(name)?;
    }
    Ok(line)
}

/// Returns a line about what in a data item is refused.
pub fn blame_line<M: FromCbor>(alloc: Global, blame: &Blame) -> Result<String, OutOfMemory> {
    with_missing_name::<M>(alloc, format!(in alloc; "{blame}")?, blame)
}

fn item_refused<M: Message>(
    alloc: Global,
    bytes: &[u8],
    item: &RefusedItem,
) -> Result<Examined, OutOfMemory> {
    let fault = item.fault;
    if let Some(name) = member_name(item.blame.path.as_slice()) {
        if let Some(refusal) = refusal_inside(alloc, bytes, item)? {
            let text = format!(in alloc; "{fault}\n{name}.{refusal}")?;
            return Ok(Examined::Refused(text, Some(data_extent(&refusal))));
        }
    }
    let text = format!(in alloc; "{fault}\n{item}")?;
    let text = with_missing_name::<M>(alloc, text, &item.blame)?;
    Ok(Examined::Refused(text, Some(item.extent)))
}

/// Returns the name of the member that is missing, if one is, of a statement of this format.
fn missing_in_statement(
    alloc: Global,
    format: AttestationFormat,
    blame: &Blame,
) -> Result<Option<&'static str>, OutOfMemory> {
    match format {
        AttestationFormat::Packed => missing_name::<PackedStatement>(alloc, blame),
        AttestationFormat::Tpm => missing_name::<TpmStatement>(alloc, blame),
        AttestationFormat::AndroidKey => missing_name::<AndroidKeyStatement>(alloc, blame),
        AttestationFormat::AndroidSafetyNet => missing_name::<SafetyNetStatement>(alloc, blame),
        AttestationFormat::FidoU2f => missing_name::<FidoU2fStatement>(alloc, blame),
        AttestationFormat::None => Ok(None),
        AttestationFormat::Apple => missing_name::<AppleStatement>(alloc, blame),
        AttestationFormat::Compound => missing_name::<List<CompoundElement>>(alloc, blame),
    }
}

/// Returns a line about what is refused of a statement of this format.
pub fn statement_line(
    alloc: Global,
    format: AttestationFormat,
    refusal: &StatementRefusal,
) -> Result<String, OutOfMemory> {
    let mut text = format!(in alloc; "{refusal}")?;
    if let StatementBlame::Item(blame) = &refusal.blame {
        if let Some(name) = missing_in_statement(alloc, format, blame)? {
            text.push_str(": ")?;
            text.push_str(name)?;
        }
    }
    Ok(text)
}

/// Returns the refusal of an attestation statement of this format.
pub fn statement_refused(
    alloc: Global,
    format: AttestationFormat,
    bytes: &[u8],
    explanation: &StatementExplanation,
) -> Result<Examined, OutOfMemory> {
    match explanation {
        StatementExplanation::NotWellFormed(malformed) => not_well_formed(alloc, bytes, *malformed),
        StatementExplanation::Refused(refusal) => {
            let fault = refusal.fault;
            let line = statement_line(alloc, format, refusal)?;
            let text = format!(in alloc; "{fault}\n{line}")?;
            Ok(Examined::Refused(text, Some(refusal.extent)))
        }
    }
}

/// Returns the refusal of a structure of a TPM.
pub fn structure_refused(alloc: Global, refusal: TpmRefusal) -> Result<Examined, OutOfMemory> {
    let fault = CoseError::DecodeFailed;
    let extent = Extent {
        offset: refusal.offset,
        len: refusal.len,
    };
    let text = format!(in alloc; "{fault}\n{refusal}")?;
    Ok(Examined::Refused(text, Some(extent)))
}

/// Returns the refusal of a message: the item that is refused, or what in its authenticator data
/// is, or the name of the member that is missing.
pub fn message_refused<M: Message>(
    alloc: Global,
    bytes: &[u8],
    explanation: &Explanation,
) -> Result<Examined, OutOfMemory> {
    match explanation {
        Explanation::NotWellFormed(malformed) => not_well_formed(alloc, bytes, *malformed),
        Explanation::Refused(item) => item_refused::<M>(alloc, bytes, item),
    }
}
