//! Refusals as a person reads them.
ghost use Rattle.std.specs.Fmt.{WritesOnOk};
ghost use Rattle.std.specs.Prelude.{◌≡◌, Some, map, option_map};
ghost use Rattle.passkey_explain_data.specs.Texts.{data_reason_text, data_refusal_text, has_parameter, key_refusal_text};
ghost use Rattle.passkey_explain_data.specs.Texts.{label_fault_text, label_name, label_text, part_name, statement_blame_text};
ghost use Rattle.passkey_explain_data.specs.Texts.{statement_explanation_text, statement_text, value_fault_text};

use crate::{
    DataPart, DataReason, DataRefusal, KeyBlame, KeyRefusal, StatementBlame, StatementExplanation,
    StatementRefusal,
};
use passkey_cbor::Value;
use passkey_cose::CoseError;
use passkey_explain::parameter_name;
use std::fmt;

/// Returns the name of a parameter of a key of this type.
#[tactic(auto, unfolding(crate::specs::Texts::label_name))]
fn label_name(key_type: Option<i64>, label: i64) -> Option<&'static str>
    ensures { option_map (λ s. s.now) result ≡ label_name key_type label }
{
    let label = Value::from(label);
    match key_type {
        Some(number) => parameter_name(Some(&Value::from(number)), &label),
        None => parameter_name(None, &label),
    }
}

fn write_label<W: fmt::Write>(
    f: &mut fmt::Formatter<W>,
    key_type: Option<i64>,
    label: i64,
) -> fmt::Result
    ensures { WritesOnOk W.write_str_gives f.old result (label_text key_type label) f.new }
{
    match label_name(key_type, label) {
        Some(name) => f.write_str(name),
        None => write!(f, "label {label}"),
    }
}

/// Returns why a label is refused that is no integer of 64 signed bits.
fn label_reason(fault: CoseError) -> &'static str
    ensures { result.now ≡ label_fault_text fault }
{
    match fault {
        CoseError::DuplicateMapKey => "a label is repeated",
        CoseError::OutOfRangeIntegerValue => "a label has more than 64 signed bits",
        _ => "a label is neither an integer nor a text",
    }
}

/// Returns why the value under one of the labels 1 to 5 is refused.
fn value_reason(fault: CoseError, key_type: Option<i64>, label: i64) -> &'static str
    ensures { result.now ≡ value_fault_text fault key_type label }
{
    match (fault, label) {
        (CoseError::OutOfRangeIntegerValue, _) => "an integer of 64 signed bits is wanted",
        (_, 1) if key_type == Some(0) => "this key type is reserved",
        (_, 2 | 5) => "a byte string that isn't empty is wanted",
        (_, 4) => "an array of different integers or texts is wanted",
        _ => "an integer or a text is wanted",
    }
}

/// Returns whether the refusal begins with the name of a parameter.
fn names_parameter(refusal: &KeyRefusal) -> bool
    ensures { result ≡ has_parameter refusal.now.blame }
{
    matches!(
        refusal.blame,
        KeyBlame::Label(_, Some(_)) | KeyBlame::Value(_, Some(_))
    )
}

impl fmt::Display for KeyRefusal {
    ghost output = { λ refusal. Some (key_refusal_text refusal) };

    fn fmt<W: fmt::Write>(&self, f: &mut fmt::Formatter<W>) -> fmt::Result {
        match self.blame {
            KeyBlame::NotAMap => f.write_str("a map is wanted"),
            KeyBlame::NoType => f.write_str("kty is missing"),
            KeyBlame::Label(_, Some(label)) => {
                write_label(f, self.key_type, label)?;
                f.write_str(": this label is repeated")
            }
            KeyBlame::Value(_, Some(label)) => {
                write_label(f, self.key_type, label)?;
                f.write_str(": ")?;
                f.write_str(value_reason(self.fault, self.key_type, label))
            }
            KeyBlame::Label(_, None) | KeyBlame::Value(_, None) => {
                f.write_str(label_reason(self.fault))
            }
        }
    }
}

impl fmt::Display for DataPart {
    ghost output = { λ part. Some (part_name part) };

    fn fmt<W: fmt::Write>(&self, f: &mut fmt::Formatter<W>) -> fmt::Result {
        f.write_str(match self {
            DataPart::RpIdHash => "rpIdHash",
            DataPart::Flags => "flags",
            DataPart::SignCount => "signCount",
            DataPart::Aaguid => "aaguid",
            DataPart::CredentialIdLength => "credentialIdLength",
            DataPart::CredentialId => "credentialId",
            DataPart::CredentialPublicKey => "credentialPublicKey",
            DataPart::Extensions => "extensions",
            DataPart::Trailing => "trailing bytes",
        })
    }
}

impl fmt::Display for DataReason {
    ghost output = { λ reason. Some (data_reason_text reason) };

    fn fmt<W: fmt::Write>(&self, f: &mut fmt::Formatter<W>) -> fmt::Result {
        match self {
            DataReason::CutOff => f.write_str(": the bytes end before this part does"),
            DataReason::ReservedFlags => f.write_str(": bit 1 or 5 is set, which is reserved"),
            DataReason::NotWellFormed(malformed) => write!(f, ": {}", malformed.why),
            DataReason::Key(refusal, _) if names_parameter(refusal) => write!(f, ".{refusal}"),
            DataReason::Key(refusal, _) => write!(f, ": {refusal}"),
            DataReason::NotAMap => f.write_str(": a map is wanted"),
            DataReason::BytesFollow => f.write_str(": no bytes may follow the last part"),
        }
    }
}

impl fmt::Display for DataRefusal {
    ghost output = { λ refusal. Some (data_refusal_text refusal) };

    fn fmt<W: fmt::Write>(&self, f: &mut fmt::Formatter<W>) -> fmt::Result {
        write!(f, "{}{}", self.part, self.reason)?;
        match self.reason {
            DataReason::NotWellFormed(malformed) => write!(f, " (offset {})", malformed.offset),
            DataReason::Key(_, extent) => write!(f, " {extent}"),
            _ => write!(f, " {}", self.extent),
        }
    }
}

impl fmt::Display for StatementBlame {
    ghost output = { λ blame. Some (statement_blame_text blame) };

    fn fmt<W: fmt::Write>(&self, f: &mut fmt::Formatter<W>) -> fmt::Result {
        match self {
            StatementBlame::Item(blame) => write!(f, "{blame}"),
            StatementBlame::NotEmpty => f.write_str("a map without members is wanted"),
            StatementBlame::TooFew => f.write_str("at least two statements are wanted"),
            StatementBlame::Nested => f.write_str("an element is of the format compound itself"),
        }
    }
}

impl fmt::Display for StatementRefusal {
    ghost output = { λ refusal. Some (statement_text refusal) };

    fn fmt<W: fmt::Write>(&self, f: &mut fmt::Formatter<W>) -> fmt::Result {
        write!(f, "{} {}", self.blame, self.extent)
    }
}

impl fmt::Display for StatementExplanation {
    ghost output = { λ explanation. Some (statement_explanation_text explanation) };

    fn fmt<W: fmt::Write>(&self, f: &mut fmt::Formatter<W>) -> fmt::Result {
        match self {
            StatementExplanation::NotWellFormed(malformed) => write!(f, "{malformed}"),
            StatementExplanation::Refused(refusal) => write!(f, "{refusal}"),
        }
    }
}
