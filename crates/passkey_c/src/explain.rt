//! Why inputs are refused, for C.
ghost use Rattle.std.specs.Prelude.{◌≡◌, ◌≤◌, ℕ, IfOk, Some, drop, length, string_bytes};
ghost use Rattle.passkey_cbor.specs.Item.{Item};
ghost use Rattle.passkey_cbor.specs.LeadingItem.{HasNoLeadingItem, IsLeadingItem};
ghost use Rattle.passkey_c.specs.Asked.{demands_in, kind_in};
ghost use Rattle.passkey_c.specs.Explaining.{AcceptsAsked, IsBreachLength, TellsAsked, TellsBreach};
ghost use Rattle.passkey_c.specs.Explaining.{Accepts, AcceptsData, AcceptsForm, AcceptsKey, AcceptsMessage, AcceptsStatement};
ghost use Rattle.passkey_c.specs.Explaining.{AcceptsStructure, ExplainsAs, IsVerdict, Tells, TellsData, TellsForm, TellsItem};
ghost use Rattle.passkey_c.specs.Explaining.{TellsKey, TellsMessage, TellsNoKey, TellsStatement, TellsStructure, bytes_in};
ghost use Rattle.passkey_c.specs.Explaining.{fault_of, refusal_in, refusal_of, refused_in_front, statement_fault_of};
ghost use Rattle.passkey_c.specs.Explaining.{statement_refusal_of, structure_refusal};
ghost use Rattle.passkey_catalogue.specs.Catalogue.{definition};
ghost use Rattle.passkey_explain_data.specs.KeyBlame.{key_blame};
ghost use Rattle.passkey_rewrite.specs.Rewriting.{IsFrontLength};
ghost use Rattle.passkey_tpm.specs.CertInfo.{cert_info_refusal};
ghost use Rattle.passkey_tpm.specs.PubArea.{pub_area_refusal};

use crate::asked::{demands_in, is_item, kind_in, unmet_in};
use crate::explain_json::judge_json;
use crate::status::{Denial, data_status, denial_status, message_status, statement_status};
use crate::verdict::{Reason, Refusal, Verdict, refused_from, tell};
use passkey_attestation::{AttestationFormat, StatementFault};
use passkey_catalogue::{Form, Kind, visit};
use passkey_cbor::{CborError, Value, item_len};
use passkey_cose::CoseError;
use passkey_explain::{Explanation, explain};
use passkey_explain_data::{
    DataPart, DataReason, DataRefusal, KeyRefusal, StatementExplanation, data_len, explain_data,
    explain_key, explain_statement, locate_key,
};
use passkey_kinds::{Fault, Message};
use passkey_malformed::{Demands, NotCanonical, Rule, malformed};
use passkey_memory::OutOfMemory;
use passkey_rewrite::Visitor;
use passkey_tpm::{TpmRefusal, explain_cert_info, explain_pub_area};
use std::alloc::Global;

/// Explains why no data item begins the input, and where.
fn tell_item(alloc: Global, input: &[u8]) -> Result<Reason, OutOfMemory>
    requires { HasNoLeadingItem input.now }
    ensures { IfOk result (λ r. TellsItem input.now r.status r.refusal (string_bytes r.text)) }
{
    let stop = malformed(input).unwrap();
    let text = format!(in alloc; "{stop}")?;
    Ok(Reason {
        status: message_status(Fault::DecodeFailed),
        refusal: refused_from(stop, input.len()),
        text,
    })
}

fn judge_item(alloc: Global, input: &[u8]) -> Result<Verdict, OutOfMemory>
    ensures { IfOk result (IsVerdict (IsFrontLength input.now) (TellsItem input.now)) }
{
    match item_len(input) {
        Some(len) => Ok(Verdict::Accepted(len)),
        None => Ok(Verdict::Refused(tell_item(alloc, input)?)),
    }
}

/// Explains why the data item at the beginning of the input isn't a key, and where.
fn tell_key(alloc: Global, input: &[u8], refused: KeyRefusal) -> Result<Reason, OutOfMemory>
    requires { (item : Item) × ((len : ℕ) × (IsLeadingItem input.now item len × (key_blame item ≡ Some refused))) }
    ensures { IfOk result (λ r. TellsKey input.now r.status r.refusal (string_bytes r.text)) }
{
    let found = locate_key(input, refused.blame).unwrap();
    let text = format!(in alloc; "{refused} {found}")?;
    Ok(Reason {
        status: data_status(refused.fault),
        refusal: Refusal {
            offset: found.offset,
            len: found.len,
        },
        text,
    })
}

fn judge_key(alloc: Global, input: &[u8]) -> Result<Verdict, OutOfMemory>
    ensures { IfOk result (IsVerdict (AcceptsKey input.now) (TellsNoKey input.now)) }
{
    let (value, len) = match Value::from_slice(alloc, input) {
        Ok(front) => front,
        Err(CborError::OutOfMemory) => return Err(OutOfMemory),
        Err(_) => return Ok(Verdict::Refused(tell_item(alloc, input)?)),
    };
    match explain_key(alloc, &value)? {
        None => Ok(Verdict::Accepted(len)),
        Some(refused) => Ok(Verdict::Refused(tell_key(alloc, input, refused)?)),
    }
}

/// Returns the fault that is explained.
fn fault_of(explanation: &Explanation) -> Fault
    ensures { result ≡ fault_of explanation.now }
{
    match explanation {
        Explanation::NotWellFormed(_) => Fault::DecodeFailed,
        Explanation::Refused(item) => item.fault,
    }
}

/// Returns which of so many bytes are refused.
fn refusal_of(explanation: &Explanation, len: usize) -> Refusal
    ensures { result ≡ refusal_of len explanation.now }
{
    match explanation {
        Explanation::NotWellFormed(malformed) => refused_from(*malformed, len),
        Explanation::Refused(item) => Refusal {
            offset: item.extent.offset,
            len: item.extent.len,
        },
    }
}

/// Returns the length of the data item at the beginning of the input.
fn front_len(input: &[u8]) -> usize
    requires { (x : Item) × ((len : ℕ) × IsLeadingItem input.now x len) }
    ensures { IsFrontLength input.now result }
{
    item_len(input).unwrap()
}

fn judge_message<M: Message>(alloc: Global, input: &[u8]) -> Result<Verdict, OutOfMemory>
    ensures { IfOk result
        (IsVerdict (AcceptsMessage M.fields input.now) (TellsMessage M.fields input.now)) }
{
    let Some(explanation) = explain::<M>(alloc, input)? else {
        return Ok(Verdict::Accepted(front_len(input)));
    };
    let text = format!(in alloc; "{explanation}")?;
    Ok(Verdict::Refused(Reason {
        status: message_status(fault_of(&explanation)),
        refusal: refusal_of(&explanation, input.len()),
        text,
    }))
}

/// Returns what is refused where bytes may follow the data.
fn refused_in_front(found: Option<DataRefusal>) -> Option<DataRefusal>
    ensures { result ≡ refused_in_front found }
{
    match found {
        Some(refusal) => match refusal.part {
            DataPart::Trailing => None,
            _ => Some(refusal),
        },
        None => None,
    }
}

/// Returns which of so many bytes are refused: those of a part, or of what in it is refused for this
/// reason.
fn bytes_in(reason: DataReason, part: Refusal, len: usize) -> Refusal
    ensures { result ≡ bytes_in len reason part }
{
    match reason {
        DataReason::NotWellFormed(stop) => refused_from(stop, len),
        DataReason::Key(_, extent) => Refusal {
            offset: extent.offset,
            len: extent.len,
        },
        _ => part,
    }
}

fn refusal_in(refused: DataRefusal, len: usize) -> Refusal
    ensures { result ≡ refusal_in len refused }
{
    let part = Refusal {
        offset: refused.extent.offset,
        len: refused.extent.len,
    };
    bytes_in(refused.reason, part, len)
}

fn judge_data(alloc: Global, input: &[u8]) -> Result<Verdict, OutOfMemory>
    ensures { IfOk result (IsVerdict (AcceptsData input.now) (TellsData input.now)) }
{
    let found = explain_data(alloc, input)?;
    let Some(refused) = refused_in_front(found) else {
        return Ok(Verdict::Accepted(data_len(input)));
    };
    let text = format!(in alloc; "{refused}")?;
    Ok(Verdict::Refused(Reason {
        status: data_status(refused.fault),
        refusal: refusal_in(refused, input.len()),
        text,
    }))
}

/// Returns the fault that is explained.
fn statement_fault_of(explanation: &StatementExplanation) -> StatementFault
    ensures { result ≡ statement_fault_of explanation.now }
{
    match explanation {
        StatementExplanation::NotWellFormed(_) => StatementFault::Member(Fault::DecodeFailed),
        StatementExplanation::Refused(refusal) => refusal.fault,
    }
}

/// Returns which of so many bytes are refused.
fn statement_refusal_of(explanation: &StatementExplanation, len: usize) -> Refusal
    ensures { result ≡ statement_refusal_of len explanation.now }
{
    match explanation {
        StatementExplanation::NotWellFormed(malformed) => refused_from(*malformed, len),
        StatementExplanation::Refused(refusal) => Refusal {
            offset: refusal.extent.offset,
            len: refusal.extent.len,
        },
    }
}

fn judge_statement(
    alloc: Global,
    format: AttestationFormat,
    input: &[u8],
) -> Result<Verdict, OutOfMemory>
    ensures { IfOk result
        (IsVerdict (AcceptsStatement format input.now) (TellsStatement format input.now)) }
{
    let Some(explanation) = explain_statement(alloc, format, input)? else {
        return Ok(Verdict::Accepted(front_len(input)));
    };
    let text = format!(in alloc; "{explanation}")?;
    Ok(Verdict::Refused(Reason {
        status: statement_status(statement_fault_of(&explanation)),
        refusal: statement_refusal_of(&explanation, input.len()),
        text,
    }))
}

/// Returns the verdict of an input of this length as a structure of a TPM.
fn judge_structure(
    alloc: Global,
    len: usize,
    found: Option<TpmRefusal>,
) -> Result<Verdict, OutOfMemory>
    ensures { IfOk result (IsVerdict (AcceptsStructure found len) (TellsStructure found)) }
{
    let Some(refused) = found else {
        return Ok(Verdict::Accepted(len));
    };
    let text = format!(in alloc; "{refused}")?;
    Ok(Verdict::Refused(Reason {
        status: data_status(CoseError::DecodeFailed),
        refusal: structure_refusal(refused),
        text,
    }))
}

/// Returns which bytes are refused.
fn structure_refusal(refused: TpmRefusal) -> Refusal
    ensures { result ≡ structure_refusal refused }
{
    Refusal {
        offset: refused.offset,
        len: refused.len,
    }
}

fn judge_form(alloc: Global, form: Form, input: &[u8]) -> Result<Verdict, OutOfMemory>
    ensures { IfOk result (IsVerdict (AcceptsForm form input.now) (TellsForm form input.now)) }
{
    match form {
        Form::Key => judge_key(alloc, input),
        Form::Statement(format) => judge_statement(alloc, format, input),
        Form::CertInfo => judge_structure(alloc, input.len(), explain_cert_info(input)),
        Form::PubArea => judge_structure(alloc, input.len(), explain_pub_area(input)),
        Form::Json(kind) => judge_json(alloc, kind, input),
    }
}

/// The input is accepted or refused.
#[derive(Drop)]
struct Judging<'a> {
    alloc: Global,
    input: &'a [u8],
}

impl<'a> Visitor for Judging<'a> {
    type Output = Result<Verdict, OutOfMemory>;

    type Other = Form;

    ghost Gives = { λ v d result. IfOk result (IsVerdict (Accepts d v.input.now) (Tells d v.input.now)) };

    fn visit_item(self) -> Result<Verdict, OutOfMemory> {
        judge_item(self.alloc, self.input)
    }

    fn visit_data(self) -> Result<Verdict, OutOfMemory> {
        judge_data(self.alloc, self.input)
    }

    fn visit_message<M: Message>(self) -> Result<Verdict, OutOfMemory> {
        judge_message::<M>(self.alloc, self.input)
    }

    fn visit_other(self, what: Form) -> Result<Verdict, OutOfMemory> {
        judge_form(self.alloc, what, self.input)
    }
}

fn judge(alloc: Global, kind: Kind, input: &[u8]) -> Result<Verdict, OutOfMemory>
    ensures { IfOk result
        (IsVerdict (Accepts (definition kind) input.now) (Tells (definition kind) input.now)) }
{
    visit(kind, Judging { alloc, input })
}

/// Returns which bytes of an input break the rule: the data item or the map key at the offset; of
/// trailing bytes all.
fn breach_in(found: NotCanonical, input: &[u8]) -> Refusal
    requires { found.offset ≤ length input.now }
    ensures offset { result.offset ≡ found.offset }
    ensures len { IsBreachLength found.rule (drop found.offset input.now) result.len }
{
    let rest = &input[found.offset..];
    let len = match found.rule {
        Rule::NothingAfter => rest.len(),
        _ => item_len(rest).unwrap_or(rest.len()),
    };
    Refusal {
        offset: found.offset,
        len,
    }
}

/// Says where the input, which its kind accepts, isn't as is asked, and by which rule.
fn tell_breach(alloc: Global, found: NotCanonical, input: &[u8]) -> Result<Reason, OutOfMemory>
    requires { found.offset ≤ length input.now }
    ensures { IfOk result
        (λ r. TellsBreach input.now found r.status r.refusal (string_bytes r.text)) }
{
    let text = format!(in alloc; "{found}")?;
    Ok(Reason {
        status: denial_status(Denial::NotCanonical(found.rule)),
        refusal: breach_in(found, input),
        text,
    })
}

fn judge_asked(
    alloc: Global,
    demands: Option<Demands>,
    kind: Kind,
    input: &[u8],
) -> Result<Verdict, OutOfMemory>
    ensures { IfOk result (IsVerdict (AcceptsAsked demands (definition kind) input.now)
        (TellsAsked demands (definition kind) input.now)) }
{
    let read = match judge(alloc, kind, input)? {
        Verdict::Accepted(read) => read,
        Verdict::Refused(reason) => return Ok(Verdict::Refused(reason)),
    };
    match unmet_in(demands, is_item(kind), input, read) {
        None => Ok(Verdict::Accepted(read)),
        Some(found) => Ok(Verdict::Refused(tell_breach(alloc, found, input)?)),
    }
}

/// Explains why the input is refused as this kind. Returns PUFFGRIT_OK if it is accepted, with how
/// many of its bytes were decoded in `read`, as puffgrit_rewrite; the status of its fault, as
/// puffgrit_rewrite; PUFFGRIT_OUT_OF_MEMORY if an allocation fails; or PUFFGRIT_UNKNOWN_KIND.
///
/// For a fault `refusal` says which bytes are refused: of a message the innermost data item, or map
/// key, that its table refuses; of authenticator data the part, or what in the credential public key;
/// of a COSE key the label or the value that is no key's; of an attestation statement the data item
/// or map key that its format refuses; of a structure of a TPM the field; or the bytes from where
/// they aren't well-formed; of a JSON text all of it; and of what isn't as the flags ask (see
/// puffgrit_rewrite) the data item or the map key that breaks the rule, or the trailing bytes. And a
/// text is written to the beginning of `out`, or as much of it as there is room for, and its whole
/// length to `len`. It says where these bytes are and what is wanted there, as "user.id: a byte string
/// is wanted (offset 58, length 10)"; of a JSON text it names the value, as "publicKey.timeout: an
/// integer from 0 to 4294967295 is wanted". It is ASCII, but for the names of members in a JSON text
/// that no record knows, which are UTF-8. Otherwise
/// nothing is written.
///
/// (CTAP 2.1, section 6; RFC 8949, section 3; WebAuthn Level 3, sections 5, 6.1 and 8.)
#[unsafe(no_mangle)]
pub extern "C" fn puffgrit_explain(
    alloc: Global,
    kind: u32,
    input: &[u8],
    read: &mut usize,
    refusal: &mut Refusal,
    out: &mut [u8],
    len: &mut usize,
) -> u32
    ensures { ExplainsAs (kind_in kind) (demands_in kind) input.now
        (record { read = read.old; refusal = refusal.old; text = out.old; len = len.old })
        (record { read = read.new; refusal = refusal.new; text = out.new; len = len.new }) result }
{
    let demands = demands_in(kind);
    match kind_in(kind) {
        Some(kind) => {
            let verdict = judge_asked(alloc, demands, kind, input);
            tell(verdict, read, refusal, out, len)
        }
        None => 3,
    }
}
