//! The numbers in a key fit in 64 signed bits. The functions do nothing; their contracts state what
//! the types guarantee.
ghost use Rattle.std.specs.Prelude.{◌≡◌, None, map};
ghost use Rattle.passkey_cbor.specs.Item.{number};
ghost use Rattle.passkey_cose.specs.KeyFaults.{name_fault};
ghost use Rattle.passkey_cose.specs.KeyNames.{AreNames};
ghost use Rattle.passkey_cose.specs.KeyParts.{op_item};
ghost use Rattle.passkey_cose.specs.Label.{label_item};
ghost use Rattle.passkey_cose.specs.Registered.{named_of, named_item};

use crate::iana::{EnumI64, KeyOperation};
use crate::label::Label;
use crate::registered::Registered;

fn number_is_name(n: i64)
    ensures { name_fault (number n) ≡ None }
{
    let _ = n;
}

pub(super) fn value_is_name<T: EnumI64>(value: &Registered<T>)
    ensures { name_fault (named_item T.number_of (named_of value.now)) ≡ None }
{
    match value {
        Registered::Assigned(value) => number_is_name(value.to_i64()),
        Registered::Other(n) => number_is_name(*n),
        Registered::Text(_) => {}
    }
}

pub(super) fn label_is_name(label: &Label)
    ensures { name_fault (label_item label.now) ≡ None }
{
    match label {
        Label::Int(n) => number_is_name(*n),
        Label::Text(_) => {}
    }
}

pub(super) fn ops_are_names(ops: &[Registered<KeyOperation>])
    ensures { AreNames (map op_item (map named_of ops.now)) }
{
    for op in ops {
        value_is_name(op);
    }
}
