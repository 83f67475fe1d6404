//! Elements of attestation statements of the format compound.
ghost use Rattle.std.specs.Prelude.{◌≡◌, map};
ghost use Rattle.passkey_kinds.specs.Words.{EachFits, fields_of, places_of, plain_tree};
ghost use Rattle.passkey_kinds.specs.Numbered.{is_shallow};
ghost use Rattle.passkey_attestation.specs.Compound.{are_compound as whole_compound, has_nested as nested_in};
ghost use Rattle.passkey_attestation.specs.Statements.{ElementParts, element, element_parts};

use passkey_bytes::Text;
use passkey_cbor::Value;
use passkey_kinds::{
    OutOfMemory, Record, RecordReadBack, Refusal, Row, Sink, Source, ToCborMap, set,
};
use std::alloc::Global;

/// One of the statements of an attestation statement of the format compound (WebAuthn Level 3,
/// section 8.9).
#[derive(Debug, Drop, PartialEq, Eq)]
pub struct CompoundElement {
    /// `fmt`: the statement's format.
    pub fmt: Text,
    /// `attStmt`: the statement, undecoded.
    pub att_stmt: Value,
}

impl Record for CompoundElement {
    ghost Parts = { ElementParts };

    ghost parts = { element_parts };

    ghost fields = { fields_of element };

    ghost tree = { plain_tree element };

    ghost coherent = { is_shallow element };

    fn is_numbered() -> bool {
        false
    }

    fn rows() -> &'static [Row] {
        &[Row::Required(1, "fmt"), Row::Required(2, "attStmt")]
    }

    fn blank(alloc: Global) -> CompoundElement {
        CompoundElement {
            fmt: Text::empty(alloc),
            att_stmt: Value::Null,
        }
    }

    fn put<S: Source>(&mut self, alloc: Global, number: u8, source: &mut S) -> Result<(), Refusal> {
        match number {
            1 => set(&mut self.fmt, alloc, source),
            2 => set(&mut self.att_stmt, alloc, source),
            _ => Err(Refusal::Refused),
        }
    }
}

impl ToCborMap for CompoundElement {
    ghost places = { λ r. places_of element.members (element_parts r) };

    ghost holds = { λ r. EachFits element.members (element_parts r) };

    fn put_members<S: Sink>(&self, alloc: Global, sink: &mut S) -> Result<(), OutOfMemory> {
        sink.put(alloc, "fmt", &self.fmt)?;
        sink.put(alloc, "attStmt", &self.att_stmt)?;
        Ok(())
    }

    fn ordered() {}
}

impl RecordReadBack for CompoundElement {
    #[tactic(auto, using(crate::proofs::Statements::element_back))]
    fn record_back() {}
}

/// Returns whether one of the statements is compound itself.
fn has_nested(elements: &[CompoundElement]) -> bool
    ensures { result ≡ nested_in (map element_parts elements.now) }
{
    for element in elements {
        if element.fmt.as_str() == "compound" {
            return true;
        }
    }
    false
}

/// Returns whether there are at least two statements, none of them compound.
pub(crate) fn are_compound(elements: &[CompoundElement]) -> bool
    ensures { result ≡ whole_compound (map element_parts elements.now) }
{
    elements.len() >= 2 && !has_nested(elements)
}
