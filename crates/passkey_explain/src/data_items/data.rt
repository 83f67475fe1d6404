//! Authenticator data.
ghost use Rattle.std.specs.Prelude.{◌≡◌, ◌++◌, ◌∷◌, [], IfOk, OnOk, map, option_map};
ghost use Rattle.passkey_cbor.specs.Item.{byte_string};
ghost use Rattle.passkey_cbor.specs.View.{item_of};
ghost use Rattle.passkey_core.specs.DataFlags.{has_flag};
ghost use Rattle.passkey_core.specs.DataViews.{attested_parts, data_parts};
ghost use Rattle.passkey_explain.specs.Described as spec;
ghost use Rattle.passkey_explain.specs.Described.{described_of, labelled};
ghost use Rattle.passkey_explain.specs.DescribedData.{field_of, attested_part, counter_leaf, described_data, described_flags};
ghost use Rattle.passkey_explain.specs.DescribedData.{extensions_part, flag_part, if_present};

use crate::data_items::item::describe_item;
use crate::data_items::key::{describe_key, text_leaf};
use crate::description::{Description, FieldName};
use passkey_cbor::{Integer, Value};
use passkey_core::{AttestedCredentialData, AuthenticatorData};
use passkey_kinds::Wanted;
use passkey_memory::OutOfMemory;
use std::alloc::Global;

/// What is wanted of an AAGUID, and of nothing else.
const AAGUID: Wanted = Wanted::ByteString(16);

fn push_field(
    fields: &mut Vec<(FieldName, Description)>,
    name: &'static str,
    description: Description,
) -> Result<(), OutOfMemory>
    ensures { OnOk result (map field_of fields.new.items
        ≡ map field_of fields.old.items ++ labelled (spec.member 0 name.now) (described_of description) ∷ []) }
{
    Ok(fields.push((FieldName::Member(0, name), description))?)
}

fn push_flag(
    alloc: Global,
    names: &mut Vec<Description>,
    is_set: bool,
    name: &str,
) -> Result<(), OutOfMemory>
    ensures { OnOk result
        (map described_of names.new.items ≡ map described_of names.old.items ++ flag_part is_set name.now) }
{
    if is_set {
        names.push(text_leaf(alloc, name)?)?;
    }
    Ok(())
}

/// Whether every bit of the flag is set.
fn has_flag(flags: u8, flag: u8) -> bool
    ensures { result ≡ has_flag flag flags }
{
    flags & flag == flag
}

/// Returns the flags' abbreviations (WebAuthn Level 3, section 6.1).
fn describe_flags(alloc: Global, flags: u8) -> Result<Description, OutOfMemory>
    ensures { IfOk result (λ d. described_of d ≡ described_flags flags) }
{
    let mut names = Vec::new(alloc);
    push_flag(alloc, &mut names, has_flag(flags, 1), "UP")?;
    push_flag(alloc, &mut names, has_flag(flags, 4), "UV")?;
    push_flag(alloc, &mut names, has_flag(flags, 8), "BE")?;
    push_flag(alloc, &mut names, has_flag(flags, 16), "BS")?;
    push_flag(alloc, &mut names, has_flag(flags, 64), "AT")?;
    push_flag(alloc, &mut names, has_flag(flags, 128), "ED")?;
    Ok(Description::List(names))
}

fn bytes_leaf(alloc: Global, wanted: Wanted, bytes: &[u8]) -> Result<Description, OutOfMemory>
    ensures { IfOk result (λ d. described_of d ≡ spec.leaf wanted (byte_string bytes.now)) }
{
    Ok(Description::Leaf(wanted, Value::Bytes(Vec::from_slice(alloc, bytes)?)))
}

fn counter_leaf(counter: Option<u32>) -> Description
    ensures { described_of result ≡ counter_leaf counter }
{
    let number = Integer::new(i128::from(counter.unwrap_or(0))).unwrap();
    Description::Leaf(Wanted::Below(1 << 32), Value::Integer(number))
}

fn push_attested(
    alloc: Global,
    fields: &mut Vec<(FieldName, Description)>,
    attested: &AttestedCredentialData,
) -> Result<(), OutOfMemory>
    ensures { OnOk result (map field_of fields.new.items
        ≡ map field_of fields.old.items ++ attested_part (attested_parts attested.now)) }
{
    let aaguid = bytes_leaf(alloc, AAGUID, &attested.aaguid.0)?;
    let id = bytes_leaf(alloc, Wanted::Bytes, attested.credential_id())?;
    let key = attested.key.to_value(alloc)?;
    let key = describe_key(alloc, &key)?;
    push_field(fields, "aaguid", aaguid)?;
    push_field(fields, "credentialId", id)?;
    push_field(fields, "credentialPublicKey", key)
}

fn push_attested_where(
    alloc: Global,
    fields: &mut Vec<(FieldName, Description)>,
    attested: &Option<AttestedCredentialData>,
) -> Result<(), OutOfMemory>
    ensures { OnOk result (map field_of fields.new.items ≡ map field_of fields.old.items
        ++ if_present attested_part (option_map attested_parts attested.now)) }
{
    match attested {
        Some(attested) => push_attested(alloc, fields, attested),
        None => Ok(()),
    }
}

fn push_extensions_where(
    alloc: Global,
    fields: &mut Vec<(FieldName, Description)>,
    extensions: &Option<Value>,
) -> Result<(), OutOfMemory>
    ensures { OnOk result (map field_of fields.new.items ≡ map field_of fields.old.items
        ++ if_present extensions_part (option_map item_of extensions.now)) }
{
    match extensions {
        Some(extensions) => {
            let extensions = describe_item(alloc, extensions)?;
            push_field(fields, "extensions", extensions)
        }
        None => Ok(()),
    }
}

/// Describes the parts of authenticator data (WebAuthn Level 3, section 6.1), the flags by their
/// abbreviations. Returns `OutOfMemory` if an allocation fails.
pub fn describe_data(
    alloc: Global,
    authenticator_data: &AuthenticatorData,
) -> Result<Description, OutOfMemory>
    ensures { IfOk result (λ d. described_of d ≡ described_data (data_parts authenticator_data.now)) }
{
    let mut fields = Vec::new(alloc);
    let hash = bytes_leaf(
        alloc,
        Wanted::SizedBytes(32),
        authenticator_data.rp_id_hash(),
    )?;
    push_field(&mut fields, "rpIdHash", hash)?;
    let flags = describe_flags(alloc, u8::from(authenticator_data.flags))?;
    push_field(&mut fields, "flags", flags)?;
    push_field(
        &mut fields,
        "signCount",
        counter_leaf(authenticator_data.counter),
    )?;
    push_attested_where(
        alloc,
        &mut fields,
        &authenticator_data.attested_credential_data,
    )?;
    push_extensions_where(alloc, &mut fields, &authenticator_data.extensions)?;
    Ok(Description::Record(fields))
}
