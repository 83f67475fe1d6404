//! Names of transports that are unknown (WebAuthn Level 3, section 5.8.4).
ghost use Rattle.std.specs.Prelude.{◌≡◌, ◌++◌, IfOk, OnOk, map};
ghost use Rattle.passkey_repair.specs.json.Changes.{has_unknown_transport, if_known, is_unknown_transport, known_transports};
ghost use Rattle.serde_json.specs.View.{items_view, view};

use passkey_memory::OutOfMemory;
use passkey_webauthn::{AuthenticatorTransport, EnumNames};
use serde_json::Value;
use std::alloc::Global;

fn is_unknown_transport(element: &Value) -> bool
    ensures { result ≡ is_unknown_transport (view element.now) }
{
    match element {
        Value::String(name) => AuthenticatorTransport::from_name(name.as_str()).is_none(),
        _ => false,
    }
}

pub(crate) fn has_unknown_transport(elements: &[Value]) -> bool
    ensures { result ≡ has_unknown_transport (items_view elements.now) }
{
    for element in elements {
        if is_unknown_transport(element) {
            return true;
        }
    }
    false
}

/// Adds the element, unless it is an unknown transport.
fn push_if_known(known: &mut Vec<Value>, element: &Value) -> Result<(), OutOfMemory>
    ensures { OnOk result (map view known.new.items ≡ map view known.old.items ++ if_known (view element.now)) }
{
    if is_unknown_transport(element) {
        return Ok(());
    }
    known.push(element.clone()?)?;
    Ok(())
}

/// Returns the elements but for the unknown transports, in their order.
pub(crate) fn known_transports(alloc: Global, elements: &[Value]) -> Result<Vec<Value>, OutOfMemory>
    ensures { IfOk result (λ known. map view known.items ≡ known_transports (items_view elements.now)) }
{
    let mut known = Vec::with_capacity(alloc, elements.len())?;
    for element in elements {
        push_if_known(&mut known, element)?;
    }
    Ok(known)
}
