//! What is in an input, as JSON, for C.
ghost use Rattle.std.specs.Prelude.{◌≡◌, IfOk, IfErr};
ghost use Rattle.passkey_c.specs.Asked.{demands_in, kind_in};
ghost use Rattle.passkey_c.specs.Json.{HasNoFormJson, HasNoJson, IsDataJson, IsFormJson, IsItemJson, IsJson, IsKeyJson, IsMessageJson, ShowsJson};
ghost use Rattle.passkey_catalogue.specs.Catalogue.{definition};
ghost use Rattle.passkey_catalogue.specs.Rewriting.{IsKeyRefusal};
ghost use Rattle.passkey_explain.specs.Described.{described_of};
ghost use Rattle.passkey_kinds.specs.Record.{read_item};
ghost use Rattle.passkey_render.specs.Json.{json_text};
ghost use Rattle.passkey_rewrite.specs.Rewriting.{IsCborRefusal, IsDataRefusal, IsMessageRefusal};

use crate::asked::{admitted, demands_in, is_item, kind_in};
use crate::write::write;
use passkey_catalogue::{Form, Kind, encode_form, visit};
use passkey_cbor::{CborError, Value};
use passkey_core::AuthenticatorData;
use passkey_cose::CoseKey;
use passkey_explain::{Description, describe_data, describe_item, describe_key};
use passkey_explain_data::data_len;
use passkey_kinds::{Fault, Message};
use passkey_memory::OutOfMemory;
use passkey_render::{describe_opened, json_of};
use passkey_rewrite::{RunFault, Visitor};
use std::alloc::Global;

/// Returns the JSON of a description.
fn description_json(alloc: Global, description: Description) -> Result<Vec<u8>, OutOfMemory>
    ensures { IfOk result (λ text. text.items ≡ json_text (described_of description)) }
{
    let text = json_of(alloc, &description);
    drop(description);
    Ok(text?.into_bytes())
}

/// Returns the JSON of the message at the beginning of the bytes, and the message's length.
fn message_json<M: Message>(alloc: Global, input: &[u8]) -> Result<(Vec<u8>, usize), RunFault>
    ensures ok { IfOk result (λ made. IsMessageJson M.fields input.now made.0.items made.1) }
    ensures err { IfErr result (IsMessageRefusal (read_item M.fields) input.now) }
{
    let (value, len) = match Value::from_slice(alloc, input) {
        Ok(front) => front,
        Err(CborError::OutOfMemory) => return Err(RunFault::OutOfMemory),
        Err(_) => return Err(RunFault::MessageRefused(Fault::DecodeFailed)),
    };
    M::from_value(alloc, &value)?;
    let description = describe_opened::<M>(alloc, &value);
    drop(value);
    Ok((description_json(alloc, description?)?, len))
}

/// Returns the JSON of the data item at the beginning of the bytes, and the item's length.
fn item_json(alloc: Global, input: &[u8]) -> Result<(Vec<u8>, usize), RunFault>
    ensures ok { IfOk result (λ made. IsItemJson input.now made.0.items made.1) }
    ensures err { IfErr result (IsCborRefusal input.now) }
{
    let (value, len) = Value::from_slice(alloc, input)?;
    let description = describe_item(alloc, &value);
    drop(value);
    Ok((description_json(alloc, description?)?, len))
}

/// Returns the JSON of the authenticator data at the beginning of the bytes, and how many of them
/// they take.
fn data_json(alloc: Global, input: &[u8]) -> Result<(Vec<u8>, usize), RunFault>
    ensures ok { IfOk result (λ made. IsDataJson input.now made.0.items made.1) }
    ensures err { IfErr result (IsDataRefusal input.now) }
{
    let data = AuthenticatorData::from_slice(alloc, input)?;
    let description = describe_data(alloc, &data);
    drop(data);
    Ok((description_json(alloc, description?)?, data_len(input)))
}

/// Returns the JSON of the COSE key at the beginning of the bytes, and its length.
fn key_json(alloc: Global, input: &[u8]) -> Result<(Vec<u8>, usize), RunFault>
    ensures ok { IfOk result (λ made. IsKeyJson input.now made.0.items made.1) }
    ensures err { IfErr result (IsKeyRefusal input.now) }
{
    let (value, len) = Value::from_slice(alloc, input)?;
    CoseKey::from_value(alloc, &value)?;
    let description = describe_key(alloc, &value);
    drop(value);
    Ok((description_json(alloc, description?)?, len))
}

/// Returns the JSON of an input of this form. Returns `UnknownKind` for attestation statements and
/// structures of a TPM.
fn form_json(alloc: Global, form: Form, input: &[u8]) -> Result<(Vec<u8>, usize), RunFault>
    ensures ok { IfOk result (λ made. IsFormJson form input.now made.0.items made.1) }
    ensures err { IfErr result (HasNoFormJson form input.now) }
{
    match form {
        Form::Key => key_json(alloc, input),
        Form::Json(_) => encode_form(alloc, form, input),
        Form::Statement(_) | Form::CertInfo | Form::PubArea => Err(RunFault::UnknownKind),
    }
}

/// What is in the input is written as JSON.
#[derive(Drop)]
struct Showing<'a> {
    alloc: Global,
    input: &'a [u8],
}

impl<'a> Visitor for Showing<'a> {
    type Output = Result<(Vec<u8>, usize), RunFault>;

    type Other = Form;

    ghost Gives = { λ v d result. IfOk result (λ made. IsJson d v.input.now made.0.items made.1)
        × IfErr result (HasNoJson d v.input.now) };

    fn visit_item(self) -> Result<(Vec<u8>, usize), RunFault> {
        item_json(self.alloc, self.input)
    }

    fn visit_data(self) -> Result<(Vec<u8>, usize), RunFault> {
        data_json(self.alloc, self.input)
    }

    fn visit_message<M: Message>(self) -> Result<(Vec<u8>, usize), RunFault> {
        message_json::<M>(self.alloc, self.input)
    }

    fn visit_other(self, what: Form) -> Result<(Vec<u8>, usize), RunFault> {
        form_json(self.alloc, what, self.input)
    }
}

fn json_as(alloc: Global, kind: Kind, input: &[u8]) -> Result<(Vec<u8>, usize), RunFault>
    ensures ok { IfOk result (λ made. IsJson (definition kind) input.now made.0.items made.1) }
    ensures err { IfErr result (HasNoJson (definition kind) input.now) }
{
    visit(kind, Showing { alloc, input })
}

/// Decodes the input as this kind, and writes what is in it as compact JSON to the beginning of
/// `out`, and the JSON's length to `len`; and to `read` how many bytes of the input were decoded, as
/// puffgrit_rewrite does. The members of messages, the parts of authenticator data and the parameters of
/// keys, also of those inside messages, are written by their names, byte strings in base64url without
/// padding, AAGUIDs as UUIDs, algorithms and flags by their names. What no table divides, such as an
/// attestation statement, is written by its elements and members, and a member that the message's table
/// hasn't under its key; keys that are no text, floats, tags and simple values are strings in diagnostic
/// notation (RFC 8949, section 8). `passkey_inspect --json` prints the same. Of a JSON text it writes
/// what puffgrit_rewrite does. The kinds are all but attestation statements and structures of a TPM.
///
/// Returns what puffgrit_rewrite returns, with the same faults, and leaves `out`, `len` and `read` as
/// it does. (CTAP 2.1, section 6; WebAuthn Level 3, section 6.1.)
#[unsafe(no_mangle)]
pub extern "C" fn puffgrit_json(
    alloc: Global,
    kind: u32,
    input: &[u8],
    read: &mut usize,
    out: &mut [u8],
    len: &mut usize,
) -> u32
    ensures { ShowsJson (kind_in kind) (demands_in kind) input.now
        (record { read = read.old; out = out.old; len = len.old })
        (record { read = read.new; out = out.new; len = len.new }) result }
{
    let demands = demands_in(kind);
    match kind_in(kind) {
        Some(kind) => {
            let made = json_as(alloc, kind, input);
            write(
                admitted(demands, is_item(kind), input, made),
                read,
                out,
                len,
            )
        }
        None => 3,
    }
}
