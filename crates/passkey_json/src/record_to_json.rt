//! Records whose encodings decode to them.
ghost use Rattle.std.specs.Prelude.{◌≡◌, IfErr, IfOk};
ghost use Rattle.passkey_json.specs.Members.{record_kind};
ghost use Rattle.passkey_json.specs.declared.json_fault.JsonFault.TheVariants.{OutOfMemory as NoMemory};
ghost use Rattle.serde_json.specs.Data.{Data};

use crate::bytes_form::BytesForm;
use crate::json_fault::JsonFault;
use crate::json_record::JsonRecord;
use crate::to_json::ToJson;
use std::alloc::Global;

/// A record whose encoding, an object, decodes to the record member by member.
pub trait RecordToJson: JsonRecord + ToJson {
    /// As a member of another record, it is decoded from the same objects as by itself.
    ghost kind_is_record: { (d : Data) → Self.FromJson.kind d ≡ record_kind Self.JsonRecord.members d };
}

/// Encodes the record and decodes its encoding, which returns the same record. Returns
/// `OutOfMemory` if an allocation fails; there is no other fault.
pub fn read_back<R: RecordToJson>(alloc: Global, value: &R, form: BytesForm) -> Result<R, JsonFault>
    ensures same { IfOk result (λ read. read ≡ value.now) }
    ensures memory { IfErr result (λ fault. fault ≡ NoMemory) }
{
    let written = value.to_json(alloc, form)?;
    R::from_json(alloc, &written)
}
