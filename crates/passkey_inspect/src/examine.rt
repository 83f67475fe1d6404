//! Bytes, decoded as a kind.

use crate::kind::InspectKind;
use crate::refusal::{
    cbor_refused, data_refused, key_refused, message_refused, refused, statement_refused,
};
use crate::structure::{examine_cert_info, examine_pub_area};
use passkey_attestation::AttestationFormat;
use passkey_catalogue::{Form, visit};
use passkey_cbor::Value;
use passkey_core::AuthenticatorData;
use passkey_explain::{
    Description, Extent, describe_data, describe_item, describe_key, dropped, explain,
};
use passkey_explain_data::{explain_data, explain_key, explain_statement};
use passkey_kinds::Message;
use passkey_memory::OutOfMemory;
use passkey_render::{describe_opened, left_out_text};
use passkey_rewrite::Visitor;
use std::alloc::Global;

/// What is in bytes that a kind accepts.
#[derive(Drop)]
pub struct Contents {
    pub description: Description,
    /// How many of the bytes are read.
    pub len: usize,
    /// A line for each data item that the message leaves out.
    pub left_out: String,
}

/// What bytes are as a kind.
#[derive(Drop)]
pub enum Examined {
    /// The kind accepts them.
    Accepted(Contents),
    /// The kind refuses them: the fault, and an explanation; and which bytes are refused, where that
    /// is known.
    Refused(String, Option<Extent>),
}

/// Returns what is in bytes of which nothing is left out.
pub fn accepted(alloc: Global, description: Description, len: usize) -> Examined {
    Examined::Accepted(Contents {
        description,
        len,
        left_out: String::new(alloc),
    })
}

fn examine_item(alloc: Global, bytes: &[u8]) -> Result<Examined, OutOfMemory> {
    match Value::from_slice(alloc, bytes) {
        Ok((value, len)) => {
            let description = describe_item(alloc, &value);
            drop(value);
            Ok(accepted(alloc, description?, len))
        }
        Err(error) => cbor_refused(alloc, bytes, error),
    }
}

fn examine_data(alloc: Global, bytes: &[u8]) -> Result<Examined, OutOfMemory> {
    if let Some(refusal) = explain_data(alloc, bytes)? {
        return data_refused(alloc, refusal);
    }
    match AuthenticatorData::from_slice_exact(alloc, bytes) {
        Ok(parts) => {
            let description = describe_data(alloc, &parts);
            drop(parts);
            Ok(accepted(alloc, description?, bytes.len()))
        }
        Err(error) => refused(alloc, error),
    }
}

/// Examines a key, the data item of this length at the beginning of the bytes.
fn examine_key_item(
    alloc: Global,
    bytes: &[u8],
    value: &Value,
    len: usize,
) -> Result<Examined, OutOfMemory> {
    if let Some(refusal) = explain_key(alloc, value)? {
        return key_refused(alloc, bytes, refusal);
    }
    Ok(accepted(alloc, describe_key(alloc, value)?, len))
}

fn examine_key(alloc: Global, bytes: &[u8]) -> Result<Examined, OutOfMemory> {
    match Value::from_slice(alloc, bytes) {
        Ok((value, len)) => {
            let examined = examine_key_item(alloc, bytes, &value, len);
            drop(value);
            examined
        }
        Err(error) => cbor_refused(alloc, bytes, error),
    }
}

/// Returns a line for each data item that the message leaves out.
fn left_out<M: Message>(alloc: Global, bytes: &[u8]) -> Result<String, OutOfMemory> {
    match dropped::<M>(alloc, bytes)? {
        Some(items) => left_out_text(alloc, items.as_slice()),
        None => Ok(String::new(alloc)),
    }
}

/// Examines the message at the beginning of the bytes (CTAP 2.1, section 6).
fn examine_message<M: Message>(alloc: Global, bytes: &[u8]) -> Result<Examined, OutOfMemory> {
    if let Some(explanation) = explain::<M>(alloc, bytes)? {
        let refused = message_refused::<M>(alloc, bytes, &explanation);
        drop(explanation);
        return refused;
    }
    let left_out = left_out::<M>(alloc, bytes)?;
    match Value::from_slice(alloc, bytes) {
        Ok((value, len)) => {
            let description = describe_opened::<M>(alloc, &value);
            drop(value);
            Ok(Examined::Accepted(Contents {
                description: description?,
                len,
                left_out,
            }))
        }
        Err(error) => cbor_refused(alloc, bytes, error),
    }
}

/// Examines an attestation statement of this format (WebAuthn Level 3, section 8).
fn examine_statement(
    alloc: Global,
    format: AttestationFormat,
    bytes: &[u8],
) -> Result<Examined, OutOfMemory> {
    if let Some(explanation) = explain_statement(alloc, format, bytes)? {
        let refused = statement_refused(alloc, format, bytes, &explanation);
        drop(explanation);
        return refused;
    }
    examine_item(alloc, bytes)
}

fn examine_form(alloc: Global, form: Form, bytes: &[u8]) -> Result<Examined, OutOfMemory> {
    match form {
        Form::Key => examine_key(alloc, bytes),
        Form::Statement(format) => examine_statement(alloc, format, bytes),
        Form::CertInfo => examine_cert_info(alloc, bytes),
        Form::PubArea => examine_pub_area(alloc, bytes),
        Form::Json(_) => Ok(Examined::Refused(String::from_str(alloc, "BadJson")?, None)),
    }
}

/// The bytes are examined.
#[derive(Drop)]
struct Examining<'a> {
    alloc: Global,
    bytes: &'a [u8],
}

impl<'a> Visitor for Examining<'a> {
    type Output = Result<Examined, OutOfMemory>;

    type Other = Form;

    // Nothing is said of reports.
    ghost Gives = { λ v d result. Unit {0} };

    fn visit_item(self) -> Result<Examined, OutOfMemory> {
        examine_item(self.alloc, self.bytes)
    }

    fn visit_data(self) -> Result<Examined, OutOfMemory> {
        examine_data(self.alloc, self.bytes)
    }

    fn visit_message<M: Message>(self) -> Result<Examined, OutOfMemory> {
        examine_message::<M>(self.alloc, self.bytes)
    }

    fn visit_other(self, what: Form) -> Result<Examined, OutOfMemory> {
        examine_form(self.alloc, what, self.bytes)
    }
}

/// Decodes the bytes as the kind. A kind of JSON refuses them. Returns `OutOfMemory` if an
/// allocation fails.
pub fn examine(alloc: Global, kind: InspectKind, bytes: &[u8]) -> Result<Examined, OutOfMemory> {
    visit(kind, Examining { alloc, bytes })
}
