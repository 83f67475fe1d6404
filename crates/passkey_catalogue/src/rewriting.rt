//! Inputs of any kind, decoded and encoded again.
ghost use Rattle.std.specs.Prelude.{◌≡◌, IfOk, IfErr, length, string_bytes};
ghost use Rattle.passkey_catalogue.specs.Catalogue.{definition};
ghost use Rattle.passkey_catalogue.specs.JsonTexts.{any_json_rewritten};
ghost use Rattle.passkey_catalogue.specs.Rewriting.{Encodes, EncodesForm, IsFormLength, IsRefusal, RefusesForm};
ghost use Rattle.passkey_explain_data.specs.DataLength.{IsDataLength};
ghost use Rattle.passkey_rewrite.specs.RewritesJson.{IsJsonRefusal, RewritesJson};
ghost use Rattle.passkey_rewrite.specs.Rewriting.{IsDataRefusal, RewritesData};

use crate::any_json_kind::AnyJsonKind;
use crate::form::Form;
use crate::key::rewrite_key;
use crate::kind::Kind;
use crate::statement::rewrite_statement;
use crate::structure::{rewrite_cert_info, rewrite_pub_area};
use crate::visiting::{visit, visit_json};
use passkey_explain_data::data_len;
use passkey_kinds::Message;
use passkey_rewrite::{
    JsonRewriting, RunFault, Visitor, rewrite_data, rewrite_front_item, rewrite_front_message,
};
use std::alloc::Global;

fn encode_data(alloc: Global, input: &[u8]) -> Result<(Vec<u8>, usize), RunFault>
    ensures ok { IfOk result (λ made. RewritesData input.now made.0.items × IsDataLength input.now made.1) }
    ensures err { IfErr result (IsDataRefusal input.now) }
{
    let encoding = rewrite_data(alloc, input)?;
    Ok((encoding, data_len(input)))
}

/// Decodes the JSON text as the kind and encodes the result, as compact JSON with bytes in
/// base64url. Returns `BadJson` if the input isn't a JSON text in UTF-8 of at most 127 nesting
/// levels; `JsonRefused` if the kind rejects its value, of capabilities with
/// `Refused("capabilities")` if a member is no boolean; and `OutOfMemory` if an allocation fails.
pub fn rewrite_json(alloc: Global, kind: AnyJsonKind, input: &[u8]) -> Result<String, RunFault>
    ensures ok { IfOk result (λ text. RewritesJson (any_json_rewritten kind) input.now (string_bytes text)) }
    ensures err { IfErr result (IsJsonRefusal (any_json_rewritten kind) input.now) }
{
    visit_json(kind, JsonRewriting { alloc, input })
}

fn encode_json(alloc: Global, kind: AnyJsonKind, input: &[u8]) -> Result<(Vec<u8>, usize), RunFault>
    ensures ok { IfOk result (λ made. RewritesJson (any_json_rewritten kind) input.now made.0.items
        × (made.1 ≡ length input.now)) }
    ensures err { IfErr result (IsJsonRefusal (any_json_rewritten kind) input.now) }
{
    let text = rewrite_json(alloc, kind, input)?;
    Ok((text.into_bytes(), input.len()))
}

/// Decodes an input of this form and encodes the result, as `encode` does.
pub fn encode_form(alloc: Global, form: Form, input: &[u8]) -> Result<(Vec<u8>, usize), RunFault>
    ensures ok { IfOk result
        (λ made. EncodesForm form input.now made.0.items × IsFormLength form input.now made.1) }
    ensures err { IfErr result (RefusesForm form input.now) }
{
    match form {
        Form::Key => rewrite_key(alloc, input),
        Form::Statement(format) => rewrite_statement(alloc, format, input),
        Form::CertInfo => rewrite_cert_info(alloc, input),
        Form::PubArea => rewrite_pub_area(alloc, input),
        Form::Json(kind) => encode_json(alloc, kind, input),
    }
}

/// The input is decoded and encoded again.
#[derive(Drop)]
struct Encoding<'a> {
    alloc: Global,
    input: &'a [u8],
}

impl<'a> Visitor for Encoding<'a> {
    type Output = Result<(Vec<u8>, usize), RunFault>;

    type Other = Form;

    ghost Gives = { λ v d result. IfOk result (λ made. Encodes d v.input.now made.0.items made.1)
        × IfErr result (IsRefusal d v.input.now) };

    fn visit_item(self) -> Result<(Vec<u8>, usize), RunFault> {
        rewrite_front_item(self.alloc, self.input)
    }

    fn visit_data(self) -> Result<(Vec<u8>, usize), RunFault> {
        encode_data(self.alloc, self.input)
    }

    fn visit_message<M: Message>(self) -> Result<(Vec<u8>, usize), RunFault> {
        rewrite_front_message::<M>(self.alloc, self.input)
    }

    fn visit_other(self, what: Form) -> Result<(Vec<u8>, usize), RunFault> {
        encode_form(self.alloc, what, self.input)
    }
}

/// Decodes the input as the kind and encodes the result: bytes in CTAP2's canonical form, JSON as
/// compact JSON with bytes in base64url. Returns the encoding, and how much of the input was decoded:
/// the data item at its beginning, authenticator data up to the end of their last part, or all of a
/// JSON text or a structure of a TPM. Ignores the bytes after it. If the kind rejects the input,
/// returns `MessageRefused` for a message and for the map of a statement, `JsonRefused` or `BadJson`
/// for JSON, and else `Refused`: `DecodeFailed` if it doesn't begin with a well-formed data item or
/// isn't the structure, the fault of authenticator data or a key, and `UnexpectedItem` for another
/// statement. Returns `OutOfMemory` if an allocation fails.
pub fn encode(alloc: Global, kind: Kind, input: &[u8]) -> Result<(Vec<u8>, usize), RunFault>
    ensures ok { IfOk result (λ made. Encodes (definition kind) input.now made.0.items made.1) }
    ensures err { IfErr result (IsRefusal (definition kind) input.now) }
{
    visit(kind, Encoding { alloc, input })
}
