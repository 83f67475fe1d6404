//! Why JSON texts are refused, for C.
ghost use Rattle.std.specs.Prelude.{◌≡◌, IfOk, IfSome, string_bytes};
ghost use Rattle.passkey_c.specs.Explaining.{IsVerdict};
ghost use Rattle.passkey_c.specs.ExplainingJson.{AcceptsJson, TellsJson, refused_text, whole};
ghost use Rattle.passkey_json.specs.JsonText.{IsJson};
ghost use Rattle.serde_json.specs.View.{view};

use crate::status::{json_status, status_of};
use crate::verdict::{Reason, Refusal, Verdict};
use passkey_catalogue::{AnyJsonKind, RefusedJson, explain_json_as};
use passkey_memory::OutOfMemory;
use passkey_rewrite::{RunFault, parse_json};
use serde_json::Value;
use std::alloc::Global;

/// Returns the text about a JSON value that is refused: what in it is to blame, or else the fault.
fn json_text(alloc: Global, refused: &RefusedJson) -> Result<String, OutOfMemory>
    ensures { IfOk result
        (λ text. IfSome (refused_text refused.now) (λ told. string_bytes text ≡ told)) }
{
    let fault = refused.fault;
    match &refused.blame {
        Some(blame) => Ok(format!(in alloc; "{blame}")?),
        None => Ok(format!(in alloc; "{fault}")?),
    }
}

/// Returns why an input of this length is refused as a JSON text: all of it.
fn reason(status: u32, len: usize, text: String) -> Reason
    ensures { (result.status ≡ status) × (result.refusal ≡ whole len) × (result.text ≡ text) }
{
    Reason {
        status,
        refusal: Refusal { offset: 0, len },
        text,
    }
}

fn judge_value(
    alloc: Global,
    kind: AnyJsonKind,
    input: &[u8],
    value: &Value,
) -> Result<Verdict, OutOfMemory>
    requires { IsJson input.now (view value.now) }
    ensures { IfOk result (IsVerdict (AcceptsJson kind input.now) (TellsJson kind input.now)) }
{
    match explain_json_as(alloc, kind, value)? {
        None => Ok(Verdict::Accepted(input.len())),
        Some(refused) => {
            let text = json_text(alloc, &refused)?;
            let status = json_status(refused.fault);
            Ok(Verdict::Refused(reason(status, input.len(), text)))
        }
    }
}

/// Returns the verdict of the input as a JSON text of this kind.
pub(crate) fn judge_json(
    alloc: Global,
    kind: AnyJsonKind,
    input: &[u8],
) -> Result<Verdict, OutOfMemory>
    ensures { IfOk result (IsVerdict (AcceptsJson kind input.now) (TellsJson kind input.now)) }
{
    match parse_json(alloc, input) {
        Ok(value) => judge_value(alloc, kind, input, &value),
        Err(RunFault::OutOfMemory) => Err(OutOfMemory),
        Err(fault) => {
            let wanted = "a JSON text in UTF-8 of at most 127 levels is wanted";
            let text = String::from_str(alloc, wanted)?;
            Ok(Verdict::Refused(reason(status_of(fault), input.len(), text)))
        }
    }
}
