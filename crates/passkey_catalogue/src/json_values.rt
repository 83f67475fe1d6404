//! Inputs as JSON values, from which they are read back, and encoded from them.
ghost use Rattle.std.specs.Prelude.{◌≡◌, ◌≤◌, true, IfOk, IfErr, IsTrue, IsUtf8, Ok, is_ok, string_bytes};
ghost use Rattle.json.specs.Value.{value_view};
ghost use Rattle.passkey_attestation.specs.Formats.{format_name};
ghost use Rattle.passkey_attestation.specs.Statement.{read_statement};
ghost use Rattle.passkey_catalogue.specs.Catalogue.{definition};
ghost use Rattle.passkey_catalogue.specs.JsonTexts.{any_json_rewritten};
ghost use Rattle.passkey_catalogue.specs.Rewriting.{IsKeyRefusal, IsRefusal, IsStatementRefusal, IsStructureRefusal};
ghost use Rattle.passkey_catalogue.specs.Values.{EncodesValues, IsNoItem, RefusesEncoding, RefusesJson, RefusesText};
ghost use Rattle.passkey_catalogue.specs.Values.{ShowsData, ShowsItem, ShowsJson, ShowsStructure, ShowsValues};
ghost use Rattle.passkey_catalogue.specs.Values.{StandsFor, StandsForItem, json_fault, string_in, values_of};
ghost use Rattle.passkey_catalogue.specs.declared.json_values.ValuesFault.TheVariants.{Run as Ran};
ghost use Rattle.passkey_catalogue.specs.declared.form.Form.TheVariants.{Key as a_key, Statement as a_statement};
ghost use Rattle.passkey_cbor.specs.Depth.{depth};
ghost use Rattle.passkey_cbor.specs.Item.{byte_string};
ghost use Rattle.passkey_cbor.specs.LeadingItem.{IsLeadingItem, max_depth};
ghost use Rattle.passkey_cbor.specs.View.{item_of};
ghost use Rattle.passkey_cbor_text.specs.declared.values.leaf.StringForm.TheVariants.{Text as as_text, Bytes as as_bytes};
ghost use Rattle.passkey_cbor_text.specs.values.Exact.{IsJsonOf};
ghost use Rattle.passkey_cbor_text.specs.values.JsonItem.{leaf_item};
ghost use Rattle.passkey_cbor_text.specs.values.NoItem.{Reads};
ghost use Rattle.passkey_core.specs.DataReading.{ReadsData};
ghost use Rattle.passkey_core.specs.DataViews.{data_parts};
ghost use Rattle.passkey_cose.specs.KeyReading.{read_key};
ghost use Rattle.passkey_kinds.specs.Record.{read_item};
ghost use Rattle.passkey_kinds.specs.RecordReading.{shape_of};
ghost use Rattle.passkey_render.specs.DataParts.{data_item};
ghost use Rattle.passkey_render.specs.KeyParts.{key_item};
ghost use Rattle.passkey_render.specs.Typed.{json_item};
ghost use Rattle.passkey_rewrite.specs.Definition.{item, message, other};
ghost use Rattle.passkey_rewrite.specs.RewritesJson.{IsJsonRefusal};
ghost use Rattle.passkey_rewrite.specs.Rewriting.{IsCborRefusal, IsDataRefusal, IsMessageRefusal};
ghost use Rattle.passkey_rewrite.specs.declared.fault.RunFault.TheVariants.{OutOfMemory as NoMemory};
ghost use Rattle.passkey_tpm.specs.CertInfo.{cert_info_in};
ghost use Rattle.passkey_tpm.specs.PubArea.{pub_area_in};

use crate::any_json_kind::AnyJsonKind;
use crate::form::Form;
use crate::kind::Kind;
use crate::rewriting::{encode, rewrite_json};
use crate::statement::statement_from;
use crate::structure::{rewrite_cert_info, rewrite_pub_area};
use crate::visiting::visit;
use json::{Error, Scratch, Value as Json};
use passkey_attestation::AttestationFormat;
use passkey_cbor::{CborError, Value};
use passkey_cbor_text::values::{
    ItemFault, ItemReason, NoItem, Reading, StringForm, json_from_item,
};
use passkey_core::AuthenticatorData;
use passkey_cose::{CoseError, CoseKey};
use passkey_explain_data::data_len;
use passkey_kinds::{Fault, Message};
use passkey_memory::OutOfMemory;
use passkey_render::{
    DataReading, KeyReading, MessageReading, json_from_data_item, json_from_key_item,
    json_from_message_item, no_item_text,
};
use passkey_rewrite::{RunFault, Visitor};
use std::alloc::Global;

/// Why JSON values have no encoding.
#[derive(Debug, Drop)]
pub enum ValuesFault {
    /// What in the JSON is no data item; and where it is and what is wanted there, as a person reads it.
    NoItem(NoItem, String),
    /// The text isn't JSON (`BadJson`), an allocation failed (`OutOfMemory`), or the kind refuses the input
    /// that the JSON stands for, as `encode` does.
    Run(RunFault),
}

impl From<RunFault> for ValuesFault {
    ghost from_gives = { λ fault given. given ≡ Ran fault };

    fn from(fault: RunFault) -> ValuesFault {
        ValuesFault::Run(fault)
    }
}

impl From<OutOfMemory> for ValuesFault {
    ghost from_gives = { λ _ given. given ≡ Ran NoMemory };

    fn from(_error: OutOfMemory) -> ValuesFault {
        ValuesFault::Run(RunFault::OutOfMemory)
    }
}

/// Returns the data item that leads the bytes, if it is decoded as the message, with its length.
fn accepted_front<M: Message>(alloc: Global, input: &[u8]) -> Result<(Value, usize), RunFault>
    ensures ok { IfOk result (λ front. IsLeadingItem input.now (item_of front.0) front.1
        × (is_ok (read_item M.fields (item_of front.0)) ≡ true)) }
    ensures err { IfErr result (IsMessageRefusal (read_item M.fields) input.now) }
{
    let (value, len) = match Value::from_slice(alloc, input) {
        Ok(front) => front,
        Err(CborError::OutOfMemory) => return Err(RunFault::OutOfMemory),
        Err(_) => return Err(RunFault::MessageRefused(Fault::DecodeFailed)),
    };
    match M::from_value(alloc, &value) {
        Ok(_) => Ok((value, len)),
        Err(fault) => Err(RunFault::from(fault)),
    }
}

/// Returns the data item that leads the bytes, if it is a COSE key, with its length.
fn key_front(alloc: Global, input: &[u8]) -> Result<(Value, usize), RunFault>
    ensures ok { IfOk result (λ front. IsLeadingItem input.now (item_of front.0) front.1
        × (is_ok (read_key (item_of front.0)) ≡ true)) }
    ensures err { IfErr result (IsKeyRefusal input.now) }
{
    let (value, len) = Value::from_slice(alloc, input)?;
    match CoseKey::from_value(alloc, &value) {
        Ok(_) => Ok((value, len)),
        Err(error) => Err(RunFault::from(error)),
    }
}

/// Returns the data item that leads the bytes, if it is a statement of this format, with its length.
fn statement_front(
    alloc: Global,
    format: AttestationFormat,
    input: &[u8],
) -> Result<(Value, usize), RunFault>
    ensures ok { IfOk result (λ front. IsLeadingItem input.now (item_of front.0) front.1
        × (is_ok (read_statement (format_name format) (item_of front.0)) ≡ true)) }
    ensures err { IfErr result (IsStatementRefusal format input.now) }
{
    let (value, len) = Value::from_slice(alloc, input)?;
    match statement_from(alloc, format, &value) {
        Ok(_) => Ok((value, len)),
        Err(fault) => Err(fault),
    }
}

/// Returns the JSON of a data item of which nothing is known, and its length, which is given.
fn plain_json(alloc: Global, value: Value, len: usize) -> Result<(String, usize), OutOfMemory>
    requires { depth (item_of value) ≤ max_depth }
    ensures { IfOk result (λ made. IsJsonOf (leaf_item as_text) (item_of value) (string_bytes made.0)
        × (made.1 ≡ len)) }
{
    let text = json_from_item(alloc, StringForm::Text, &value);
    drop(value);
    Ok((text?, len))
}

fn item_values(alloc: Global, input: &[u8]) -> Result<(String, usize), RunFault>
    ensures ok { IfOk result (λ made. ShowsItem item (leaf_item as_text) input.now (string_bytes made.0) made.1) }
    ensures err { IfErr result (IsCborRefusal input.now) }
{
    let (value, len) = Value::from_slice(alloc, input)?;
    Ok(plain_json(alloc, value, len)?)
}

fn key_values(alloc: Global, input: &[u8]) -> Result<(String, usize), RunFault>
    ensures ok { IfOk result (λ made. ShowsItem (other a_key) key_item input.now (string_bytes made.0) made.1) }
    ensures err { IfErr result (IsKeyRefusal input.now) }
{
    let (value, len) = key_front(alloc, input)?;
    let text = json_from_key_item(alloc, &value);
    drop(value);
    Ok((text?, len))
}

fn statement_values(
    alloc: Global,
    format: AttestationFormat,
    input: &[u8],
) -> Result<(String, usize), RunFault>
    ensures ok { IfOk result (λ made.
        ShowsItem (other (a_statement format)) (leaf_item as_text) input.now (string_bytes made.0) made.1) }
    ensures err { IfErr result (IsStatementRefusal format input.now) }
{
    let (value, len) = statement_front(alloc, format, input)?;
    Ok(plain_json(alloc, value, len)?)
}

fn message_values<M: Message>(alloc: Global, input: &[u8]) -> Result<(String, usize), RunFault>
    ensures ok { IfOk result (λ made. ShowsItem (message M.fields M.tree) (json_item (shape_of M.fields))
        input.now (string_bytes made.0) made.1) }
    ensures err { IfErr result (IsMessageRefusal (read_item M.fields) input.now) }
{
    let (value, len) = accepted_front::<M>(alloc, input)?;
    let text = json_from_message_item::<M>(alloc, &value);
    drop(value);
    Ok((text?, len))
}

/// Whether these bytes are authenticator data with the same parts.
fn has_parts(alloc: Global, wanted: &AuthenticatorData, bytes: &[u8]) -> Result<bool, OutOfMemory>
    ensures { IfOk result (λ b. IsTrue b → ReadsData bytes.now (Ok (data_parts wanted.now))) }
{
    match AuthenticatorData::from_slice(alloc, bytes) {
        Ok(found) => {
            let is_same = found == *wanted;
            drop(found);
            Ok(is_same)
        }
        Err(CoseError::OutOfMemory) => Err(OutOfMemory),
        Err(_) => Ok(false),
    }
}

fn data_values(alloc: Global, input: &[u8]) -> Result<(String, usize), RunFault>
    ensures ok { IfOk result (λ made. ShowsData input.now (string_bytes made.0) made.1) }
    ensures err { IfErr result (IsDataRefusal input.now) }
{
    let data = match AuthenticatorData::from_slice(alloc, input) {
        Ok(data) => data,
        Err(error) => return Err(RunFault::from(error)),
    };
    let len = data_len(input);
    let front = input.get(..len).unwrap_or(input);
    let is_same = has_parts(alloc, &data, front);
    drop(data);
    let shown = if is_same? { front } else { input };
    let value = Value::Bytes(Vec::from_slice(alloc, shown)?);
    let text = json_from_data_item(alloc, &value)?;
    Ok((text, len))
}

/// Returns the JSON of a byte string, in base64url.
fn bytes_json(alloc: Global, bytes: &[u8]) -> Result<String, OutOfMemory>
    ensures { IfOk result (λ text. IsJsonOf (leaf_item as_bytes) (byte_string bytes.now) (string_bytes text)) }
{
    let value = Value::Bytes(Vec::from_slice(alloc, bytes)?);
    json_from_item(alloc, StringForm::Bytes, &value)
}

fn cert_info_values(alloc: Global, input: &[u8]) -> Result<(String, usize), RunFault>
    ensures ok { IfOk result (λ made. ShowsStructure cert_info_in input.now (string_bytes made.0) made.1) }
    ensures err { IfErr result (IsStructureRefusal cert_info_in input.now) }
{
    rewrite_cert_info(alloc, input)?;
    Ok((bytes_json(alloc, input)?, input.len()))
}

fn pub_area_values(alloc: Global, input: &[u8]) -> Result<(String, usize), RunFault>
    ensures ok { IfOk result (λ made. ShowsStructure pub_area_in input.now (string_bytes made.0) made.1) }
    ensures err { IfErr result (IsStructureRefusal pub_area_in input.now) }
{
    rewrite_pub_area(alloc, input)?;
    Ok((bytes_json(alloc, input)?, input.len()))
}

/// Returns the bytes as a text.
fn own_text(alloc: Global, input: &[u8]) -> Result<String, OutOfMemory>
    requires { IsUtf8 input.now }
    ensures { IfOk result (λ text. string_bytes text ≡ input.now) }
{
    match str::from_utf8(input) {
        Ok(text) => Ok(String::from_str(alloc, text)?),
        Err(_) => unreachable!(),
    }
}

/// Returns the encoding of the JSON text, which is encoded as itself; or else the text.
fn json_values(alloc: Global, kind: AnyJsonKind, input: &[u8]) -> Result<(String, usize), RunFault>
    ensures ok { IfOk result
        (λ made. ShowsJson (any_json_rewritten kind) input.now (string_bytes made.0) made.1) }
    ensures err { IfErr result (IsJsonRefusal (any_json_rewritten kind) input.now) }
{
    let text = rewrite_json(alloc, kind, input)?;
    match rewrite_json(alloc, kind, text.as_bytes()) {
        Ok(again) if again.as_str() == text.as_str() => Ok((text, input.len())),
        Err(RunFault::OutOfMemory) => Err(RunFault::OutOfMemory),
        _ => Ok((own_text(alloc, input)?, input.len())),
    }
}

/// The values of an input are made.
#[derive(Drop)]
struct MakingValues<'a> {
    alloc: Global,
    input: &'a [u8],
}

impl<'a> Visitor for MakingValues<'a> {
    type Output = Result<(String, usize), RunFault>;

    type Other = Form;

    ghost Gives = { λ v d result.
        IfOk result (λ made. ShowsValues d v.input.now (string_bytes made.0) made.1)
        × IfErr result (IsRefusal d v.input.now) };

    fn visit_item(self) -> Result<(String, usize), RunFault> {
        item_values(self.alloc, self.input)
    }

    fn visit_data(self) -> Result<(String, usize), RunFault> {
        data_values(self.alloc, self.input)
    }

    fn visit_message<M: Message>(self) -> Result<(String, usize), RunFault> {
        message_values::<M>(self.alloc, self.input)
    }

    fn visit_other(self, what: Form) -> Result<(String, usize), RunFault> {
        match what {
            Form::Key => key_values(self.alloc, self.input),
            Form::Statement(format) => statement_values(self.alloc, format, self.input),
            Form::CertInfo => cert_info_values(self.alloc, self.input),
            Form::PubArea => pub_area_values(self.alloc, self.input),
            Form::Json(kind) => json_values(self.alloc, kind, self.input),
        }
    }
}

/// Returns the input as a JSON text that stands for it, so that `encode_values` returns of the text what
/// `encode` returns of the input; and how many bytes of the input that is. A data item is shown by the tables of
/// the kind, with its unknown members; authenticator data and COSE keys by their parts; a structure of a TPM in
/// base64url; and a JSON text as `encode` returns it. Bytes after that are ignored. The errors are those of
/// `encode`.
pub fn values(alloc: Global, kind: Kind, input: &[u8]) -> Result<(String, usize), RunFault>
    ensures ok { IfOk result (λ made. ShowsValues (definition kind) input.now (string_bytes made.0) made.1) }
    ensures err { IfErr result (IsRefusal (definition kind) input.now) }
{
    visit(kind, MakingValues { alloc, input })
}

/// Returns the fault for a JSON value that is no data item.
fn no_item(alloc: Global, json: &Json<'_>, fault: ItemFault) -> ValuesFault
    ensures { IsNoItem (value_view json.now) fault result }
{
    match fault {
        ItemFault::NoItem(found) => match no_item_text(alloc, json, &found) {
            Ok(text) => ValuesFault::NoItem(found, text),
            Err(error) => ValuesFault::from(error),
        },
        ItemFault::OutOfMemory => ValuesFault::Run(RunFault::OutOfMemory),
    }
}

/// Returns the fault for a text that isn't read as JSON.
fn json_fault(error: Error) -> RunFault
    ensures { result ≡ json_fault error }
{
    match error {
        Error::OutOfMemory => RunFault::OutOfMemory,
        _ => RunFault::BadJson,
    }
}

/// Returns the data item that the JSON text is, if it is read so.
fn item_in<R: Reading>(alloc: Global, reading: &R, text: &[u8]) -> Result<Value, ValuesFault>
    ensures ok { IfOk result (λ i. IsJsonOf (R.means reading.now) (item_of i) text.now) }
    ensures err { IfErr result (RefusesJson (R.means reading.now) text.now) }
{
    let mut scratch = Scratch::new(alloc);
    match Json::from_slice(alloc, text, &mut scratch) {
        Ok(json) => match reading.read(alloc, &json) {
            Ok(value) => Ok(value),
            Err(fault) => Err(no_item(alloc, &json, fault)),
        },
        Err(error) => Err(ValuesFault::Run(json_fault(error))),
    }
}

/// Returns the encoding of the data item that the JSON text is.
fn item_input<R: Reading>(alloc: Global, reading: &R, text: &[u8]) -> Result<Vec<u8>, ValuesFault>
    ensures ok { IfOk result (λ v. StandsForItem (R.means reading.now) text.now v.items) }
    ensures err { IfErr result (RefusesJson (R.means reading.now) text.now) }
{
    let value = item_in(alloc, reading, text)?;
    let bytes = value.to_vec(alloc);
    drop(value);
    Ok(bytes?)
}

/// Returns the byte string that the JSON value is read as.
fn string_in<R: Reading>(alloc: Global, reading: &R, json: &Json<'_>) -> Result<Vec<u8>, ItemFault>
    ensures reads { Reads (λ v. byte_string v.items) (string_in (R.means reading.now) (value_view json.now)) result }
    ensures means { IfOk result (λ v. R.means reading.now (value_view json.now) ≡ Ok (byte_string v.items)) }
{
    match reading.read(alloc, json) {
        Ok(Value::Bytes(bytes)) => Ok(bytes),
        Ok(_) => Err(ItemFault::here(alloc, ItemReason::Bytes)),
        Err(fault) => Err(fault),
    }
}

/// Returns the byte string that the JSON text is, if it is read so.
fn string_input<R: Reading>(alloc: Global, reading: &R, text: &[u8]) -> Result<Vec<u8>, ValuesFault>
    ensures ok { IfOk result (λ v. IsJsonOf (R.means reading.now) (byte_string v.items) text.now) }
    ensures err { IfErr result (RefusesJson (string_in (R.means reading.now)) text.now) }
{
    let mut scratch = Scratch::new(alloc);
    match Json::from_slice(alloc, text, &mut scratch) {
        Ok(json) => match string_in(alloc, reading, &json) {
            Ok(bytes) => Ok(bytes),
            Err(fault) => Err(no_item(alloc, &json, fault)),
        },
        Err(error) => Err(ValuesFault::Run(json_fault(error))),
    }
}

fn copied(alloc: Global, bytes: &[u8]) -> Result<Vec<u8>, OutOfMemory>
    ensures { IfOk result (λ v. v.items ≡ bytes.now) }
{
    Ok(Vec::from_slice(alloc, bytes)?)
}

/// The input that a JSON text stands for, is made.
#[derive(Drop)]
struct ReadingValues<'a> {
    alloc: Global,
    text: &'a [u8],
}

impl<'a> Visitor for ReadingValues<'a> {
    type Output = Result<Vec<u8>, ValuesFault>;

    type Other = Form;

    ghost Gives = { λ v d result.
        IfOk result (λ input. StandsFor (values_of d) v.text.now input.items)
        × IfErr result (RefusesText (values_of d) v.text.now) };

    fn visit_item(self) -> Result<Vec<u8>, ValuesFault> {
        item_input(self.alloc, &StringForm::Text, self.text)
    }

    fn visit_data(self) -> Result<Vec<u8>, ValuesFault> {
        string_input(self.alloc, &DataReading, self.text)
    }

    fn visit_message<M: Message>(self) -> Result<Vec<u8>, ValuesFault> {
        item_input(self.alloc, &MessageReading::<M>::new(), self.text)
    }

    fn visit_other(self, what: Form) -> Result<Vec<u8>, ValuesFault> {
        match what {
            Form::Key => item_input(self.alloc, &KeyReading, self.text),
            Form::Statement(_) => item_input(self.alloc, &StringForm::Text, self.text),
            Form::CertInfo | Form::PubArea => {
                string_input(self.alloc, &StringForm::Bytes, self.text)
            }
            Form::Json(_) => Ok(copied(self.alloc, self.text)?),
        }
    }
}

/// Returns the input that the JSON text stands for, as `values` returns it: the encoding of a data item, by
/// the tables of the kind; authenticator data, of their parts or in base64url; the bytes of a structure of a
/// TPM; or of a kind of JSON texts the text itself. Whether the kind accepts the input isn't said. Returns
/// `BadJson` if the text isn't JSON in UTF-8 of at most 128 nesting levels, unless it stands for itself; `NoItem`
/// if a value in it is no data item, or no byte string where one is wanted, with where and why; and
/// `OutOfMemory` if an allocation fails.
pub fn input_from_values(alloc: Global, kind: Kind, text: &[u8]) -> Result<Vec<u8>, ValuesFault>
    ensures ok { IfOk result (λ input. StandsFor (values_of (definition kind)) text.now input.items) }
    ensures err { IfErr result (RefusesText (values_of (definition kind)) text.now) }
{
    visit(kind, ReadingValues { alloc, text })
}

/// Returns what `encode` returns for the input that the JSON text stands for: an encoding in CTAP2's canonical
/// form, but for what a message keeps as a data item, without unknown members. The errors are those of
/// `input_from_values`, and those of `encode` for the input: `MessageRefused` if the kind rejects it; with
/// `DecodeFailed`, or `Refused(DecodeFailed)` for a data item, if it has more than 256 levels.
pub fn encode_values(alloc: Global, kind: Kind, text: &[u8]) -> Result<Vec<u8>, ValuesFault>
    ensures ok { IfOk result (λ encoding. EncodesValues (definition kind) text.now encoding.items) }
    ensures err { IfErr result (RefusesEncoding (definition kind) text.now) }
{
    let input = input_from_values(alloc, kind, text)?;
    let (encoding, _len) = encode(alloc, kind, input.as_slice())?;
    Ok(encoding)
}
