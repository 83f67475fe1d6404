//! Where and why bytes aren't a structure of a TPM.
ghost use Rattle.std.specs.Prelude.{◌≡◌, Some};
ghost use Rattle.passkey_tpm.specs.Parts.{refusal_of};
ghost use Rattle.passkey_tpm.specs.Texts.{field_name, reason_text, refusal_text, wanted_text};

use std::fmt;

/// A field of `certInfo` or `pubArea` (TPM 2.0 Library, Part 2), or what follows the last one.
#[derive(Clone, Copy, Debug, PartialEq, Eq)]
pub enum TpmField {
    /// `magic` of `certInfo`: TPM_GENERATED_VALUE.
    Magic,
    /// `type` of `certInfo`: TPM_ST_ATTEST_CERTIFY.
    AttestType,
    /// `qualifiedSigner`.
    QualifiedSigner,
    /// `extraData`.
    ExtraData,
    /// `clock` of `clockInfo`.
    Clock,
    /// `resetCount` of `clockInfo`.
    ResetCount,
    /// `restartCount` of `clockInfo`.
    RestartCount,
    /// `safe` of `clockInfo`.
    Safe,
    /// `firmwareVersion`.
    FirmwareVersion,
    /// `name` of `attested`.
    Name,
    /// `qualifiedName` of `attested`.
    QualifiedName,
    /// `type` of `pubArea`: TPM_ALG_RSA or TPM_ALG_ECC.
    KeyType,
    /// `nameAlg`.
    NameAlg,
    /// `objectAttributes`.
    ObjectAttributes,
    /// `authPolicy`.
    AuthPolicy,
    /// `symmetric` of `parameters`: TPM_ALG_NULL.
    Symmetric,
    /// `scheme` of `parameters`.
    Scheme,
    /// `hashAlg` of the scheme.
    SchemeHash,
    /// `count` of the scheme TPM_ALG_ECDAA.
    SchemeCount,
    /// `keyBits` of `parameters`.
    KeyBits,
    /// `exponent` of `parameters`.
    Exponent,
    /// `unique` of an RSA key: the modulus.
    Modulus,
    /// `curveID` of `parameters`.
    CurveId,
    /// `kdf` of `parameters`.
    Kdf,
    /// `hashAlg` of the key derivation.
    KdfHash,
    /// `x` of `unique`.
    X,
    /// `y` of `unique`.
    Y,
    /// The bytes after the last field.
    Trailing,
}

/// Why a field is refused.
#[derive(Clone, Copy, Debug, PartialEq, Eq)]
pub enum TpmReason {
    /// The bytes end before the field does.
    CutOff,
    /// It isn't the constant that is required.
    OtherConstant,
    /// Its number is none of those that are known here.
    Unknown,
    /// No bytes may follow the last field.
    BytesFollow,
}

/// Which field of a structure is refused, and why. Fields are checked in their order.
#[derive(Clone, Copy, Debug, PartialEq, Eq)]
pub struct TpmRefusal {
    /// The field that is refused.
    pub field: TpmField,
    /// The offset of its first byte.
    pub offset: usize,
    /// The number of its bytes; all bytes from the offset on, if the field is cut off.
    pub len: usize,
    /// Why it is refused.
    pub reason: TpmReason,
}

/// Where bytes stop being a structure, and why.
#[derive(Clone, Copy)]
pub(crate) struct Stop {
    pub field: TpmField,
    /// The number of bytes from the field on.
    pub left: usize,
    /// How many of them are refused.
    pub len: usize,
    pub reason: TpmReason,
}

/// Returns what of so many bytes is refused.
pub(crate) fn refusal_of(len: usize, stop: Stop) -> TpmRefusal
    ensures { result ≡ refusal_of len stop }
{
    TpmRefusal {
        field: stop.field,
        offset: len.saturating_sub(stop.left),
        len: stop.len,
        reason: stop.reason,
    }
}

impl fmt::Display for TpmField {
    ghost output = { λ field. Some (field_name field) };

    fn fmt<W: fmt::Write>(&self, f: &mut fmt::Formatter<W>) -> fmt::Result {
        f.write_str(match self {
            TpmField::Magic => "magic",
            TpmField::AttestType | TpmField::KeyType => "type",
            TpmField::QualifiedSigner => "qualifiedSigner",
            TpmField::ExtraData => "extraData",
            TpmField::Clock => "clockInfo.clock",
            TpmField::ResetCount => "clockInfo.resetCount",
            TpmField::RestartCount => "clockInfo.restartCount",
            TpmField::Safe => "clockInfo.safe",
            TpmField::FirmwareVersion => "firmwareVersion",
            TpmField::Name => "attested.name",
            TpmField::QualifiedName => "attested.qualifiedName",
            TpmField::NameAlg => "nameAlg",
            TpmField::ObjectAttributes => "objectAttributes",
            TpmField::AuthPolicy => "authPolicy",
            TpmField::Symmetric => "parameters.symmetric",
            TpmField::Scheme => "parameters.scheme",
            TpmField::SchemeHash => "parameters.scheme.hashAlg",
            TpmField::SchemeCount => "parameters.scheme.count",
            TpmField::KeyBits => "parameters.keyBits",
            TpmField::Exponent => "parameters.exponent",
            TpmField::Modulus => "unique",
            TpmField::CurveId => "parameters.curveID",
            TpmField::Kdf => "parameters.kdf",
            TpmField::KdfHash => "parameters.kdf.hashAlg",
            TpmField::X => "unique.x",
            TpmField::Y => "unique.y",
            TpmField::Trailing => "trailing bytes",
        })
    }
}

/// Returns what is wanted in the field.
fn wanted(field: TpmField) -> &'static str
    ensures { result.now ≡ wanted_text field }
{
    match field {
        TpmField::Magic => "TPM_GENERATED_VALUE (ff544347) is wanted",
        TpmField::AttestType => "TPM_ST_ATTEST_CERTIFY (8017) is wanted",
        TpmField::KeyType => "TPM_ALG_RSA (0001) or TPM_ALG_ECC (0023) is wanted",
        TpmField::Symmetric => "TPM_ALG_NULL (0010) is wanted",
        _ => "this TPM_ALG_ID isn't known here",
    }
}

/// Returns why the field is refused.
fn why(reason: TpmReason, field: TpmField) -> &'static str
    ensures { result.now ≡ reason_text reason field }
{
    match reason {
        TpmReason::CutOff => "the bytes end before this field does",
        TpmReason::OtherConstant | TpmReason::Unknown => wanted(field),
        TpmReason::BytesFollow => "no bytes may follow the last field",
    }
}

impl fmt::Display for TpmRefusal {
    ghost output = { λ refusal. Some (refusal_text refusal) };

    fn fmt<W: fmt::Write>(&self, f: &mut fmt::Formatter<W>) -> fmt::Result {
        let why = why(self.reason, self.field);
        write!(
            f,
            "{}: {why} (offset {}, length {})",
            self.field, self.offset, self.len
        )
    }
}
