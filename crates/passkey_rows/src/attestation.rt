//! Attestation statements, and the two structures in that of a TPM.
use crate::hexadecimal::{decode, encode, item_of, item_text};
use passkey_rewrite::RunFault;
use passkey_types::attestation::{
    AttestationStatement, CertInfo, CompoundElement, EncodeError, PubArea, StatementFault,
    TpmStatement,
};
use std::alloc::Global;

fn none(alloc: Global) -> Result<String, RunFault> {
    Ok(String::from_str(alloc, "none")?)
}

/// Returns the bytes in hexadecimal. What was decoded has no byte string that is too long.
fn printed(alloc: Global, encoded: Result<Vec<u8>, EncodeError>) -> Result<String, RunFault> {
    match encoded {
        Ok(bytes) => encode(alloc, &bytes),
        Err(EncodeError::OutOfMemory) => Err(RunFault::OutOfMemory),
        Err(EncodeError::TooLong) => Ok(String::from_str(alloc, "TooLong")?),
    }
}

fn cert_info(alloc: Global, info: Option<CertInfo<'_>>) -> Result<String, RunFault> {
    match info {
        Some(info) => printed(alloc, info.to_vec(alloc)),
        None => none(alloc),
    }
}

fn pub_area(alloc: Global, area: Option<PubArea<'_>>) -> Result<String, RunFault> {
    match area {
        Some(area) => printed(alloc, area.to_vec(alloc)),
        None => none(alloc),
    }
}

/// Returns the fault's line. A fault that isn't that of a map is an output.
fn refused(alloc: Global, fault: StatementFault) -> Result<String, RunFault> {
    match fault {
        StatementFault::Member(fault) => Err(RunFault::from(fault)),
        StatementFault::OutOfMemory => Err(RunFault::OutOfMemory),
        fault => Ok(format!(in alloc; "{fault}")?),
    }
}

fn written(alloc: Global, statement: &AttestationStatement) -> Result<String, RunFault> {
    item_text(alloc, statement.to_value(alloc)?)
}

/// Returns the statement, encoded, or why there is none.
fn encoded(
    alloc: Global,
    statement: Result<AttestationStatement, StatementFault>,
) -> Result<String, RunFault> {
    match statement {
        Ok(statement) => {
            let text = written(alloc, &statement);
            drop(statement);
            text
        }
        Err(fault) => refused(alloc, fault),
    }
}

/// Both structures, decoded and encoded.
fn structures(alloc: Global, statement: &TpmStatement) -> Result<String, RunFault> {
    let info = cert_info(alloc, statement.cert_info())?;
    let area = pub_area(alloc, statement.pub_area())?;
    Ok(format!(in alloc; "{info} {area}")?)
}

/// The elements' statements, decoded and encoded.
fn each(alloc: Global, elements: &[CompoundElement]) -> Result<String, RunFault> {
    let mut out = String::new(alloc);
    for element in elements {
        let text = encoded(alloc, element.statement(alloc))?;
        out.push_str(format!(in alloc; "{text} ")?.as_str())?;
    }
    Ok(out)
}

fn parts(alloc: Global, statement: &AttestationStatement) -> Result<String, RunFault> {
    match statement {
        AttestationStatement::Tpm(statement) => structures(alloc, statement),
        AttestationStatement::Compound(elements) => each(alloc, elements.as_slice()),
        statement => {
            let format = statement.format();
            let is_coherent = statement.is_coherent();
            Ok(format!(in alloc; "{format} {is_coherent}")?)
        }
    }
}

/// Returns what is in the statement, or why there is none.
fn in_parts(
    alloc: Global,
    statement: Result<AttestationStatement, StatementFault>,
) -> Result<String, RunFault> {
    match statement {
        Ok(statement) => {
            let text = parts(alloc, &statement);
            drop(statement);
            text
        }
        Err(fault) => refused(alloc, fault),
    }
}

/// `att-FORMAT BYTES`: a statement of this format; `parts-FORMAT BYTES`: what is in it.
fn statement(
    alloc: Global,
    format: &str,
    has_parts: bool,
    input: &str,
) -> Result<String, RunFault> {
    let item = item_of(alloc, input)?;
    let statement = AttestationStatement::from_value(alloc, format, &item);
    drop(item);
    if has_parts {
        in_parts(alloc, statement)
    } else {
        encoded(alloc, statement)
    }
}

/// Returns the output of a row of such a kind. Returns `None` if it isn't a row of such a kind.
pub fn attestation_row(alloc: Global, name: &str, input: &str) -> Option<Result<String, RunFault>> {
    if let Some(format) = name.strip_prefix("att-") {
        return Some(statement(alloc, format, false, input));
    }
    if let Some(format) = name.strip_prefix("parts-") {
        return Some(statement(alloc, format, true, input));
    }
    match name {
        "tpm-cert-info" => Some(cert_info_row(alloc, input)),
        "tpm-pub-area" => Some(pub_area_row(alloc, input)),
        _ => None,
    }
}

/// `BYTES`: `certInfo`; `none` if it isn't one.
fn cert_info_row(alloc: Global, input: &str) -> Result<String, RunFault> {
    let bytes = decode(alloc, input)?;
    cert_info(alloc, CertInfo::from_slice(&bytes))
}

/// `BYTES`: `pubArea`; `none` if it isn't one.
fn pub_area_row(alloc: Global, input: &str) -> Result<String, RunFault> {
    let bytes = decode(alloc, input)?;
    pub_area(alloc, PubArea::from_slice(&bytes))
}
