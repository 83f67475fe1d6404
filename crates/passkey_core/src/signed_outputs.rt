//! Extension outputs as members of a map.
ghost use Rattle.std.specs.Prelude.{◌≡◌, ◌++◌, map, option_map, IfOk, OnOk, IsSome, OnErr};
ghost use Rattle.passkey_cbor.specs.Item.{byte_string};
ghost use Rattle.passkey_cbor.specs.View.{item_of, pair_of};
ghost use Rattle.passkey_core.specs.SignedOutputs.{named};

use passkey_bytes::Bytes;
use passkey_cbor::Value;
use passkey_memory::OutOfMemory;
use std::alloc::Global;

/// The bytes as a data item, if present.
pub(crate) fn bytes_value(
    alloc: Global,
    bytes: &Option<Bytes>,
) -> Result<Option<Value>, OutOfMemory>
    ensures same { IfOk result (λ v. option_map item_of v ≡ option_map byte_string bytes.now) }
    ensures grows { OnErr result (IsSome bytes.now) }
{
    match bytes {
        Some(bytes) => Ok(Some(Value::Bytes(Vec::from_slice(alloc, bytes.as_slice())?))),
        None => Ok(None),
    }
}

/// Appends the output as a member with this name, if present.
pub(crate) fn push_output(
    alloc: Global,
    outputs: &mut Vec<(Value, Value)>,
    name: &str,
    output: Option<Value>,
) -> Result<(), OutOfMemory>
    ensures pushed { OnOk result (map pair_of outputs.new.items
        ≡ map pair_of outputs.old.items ++ named name.now (option_map item_of output)) }
    ensures grows { OnErr result (IsSome output) }
{
    let Some(output) = output else {
        return Ok(());
    };
    let Ok(name) = String::from_str(alloc, name) else {
        drop(output);
        return Err(OutOfMemory);
    };
    Ok(outputs.push((Value::Text(name), output))?)
}
