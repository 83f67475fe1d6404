//! Whether a key's encoding decodes to the key.
ghost use Rattle.std.specs.Prelude.{◌≡◌, min, map};
ghost use Rattle.passkey_cbor.specs.Depth.{depth, pairs_depth};
ghost use Rattle.passkey_cbor.specs.Item.{pairs_of};
ghost use Rattle.passkey_cose.specs.Key.{key_parts};
ghost use Rattle.passkey_cose.specs.KeyParams.{params_of};
ghost use Rattle.passkey_cose.specs.KeyParts.{member, ops_item, key_item};
ghost use Rattle.passkey_cose.specs.KeyReadable.{is_reserved, is_key_readable};
ghost use Rattle.passkey_cose.specs.Registered.{named_of};

use crate::iana::{KeyOperation, KeyType};
use crate::key::CoseKey;
use crate::label::Label;
use crate::registered::Registered;
use passkey_cbor::{MAX_DEPTH, Value};

fn params_depth(params: &[(Label, Value)]) -> usize
    ensures { result ≡ min (pairs_depth (pairs_of (params_of params.now))) usize.MAX }
{
    let mut deepest = 0;
    for (_label, value) in params {
        deepest = value.depth().max(deepest);
    }
    deepest
}

fn ops_depth(ops: &[Registered<KeyOperation>]) -> usize
    ensures { result ≡ pairs_depth (pairs_of (member 4 (ops_item (map named_of ops.now)))) }
{
    match ops {
        [] => 0,
        _ => 1,
    }
}

fn key_depth(key: &CoseKey) -> usize
    ensures { result ≡ min (depth (key_item (key_parts key.now))) usize.MAX }
{
    params_depth(key.params())
        .max(ops_depth(key.key_ops()))
        .saturating_add(1)
}

fn is_reserved(kty: &Registered<KeyType>) -> bool
    ensures { result ≡ is_reserved (named_of kty.now) }
{
    match kty {
        Registered::Assigned(KeyType::Reserved) | Registered::Other(0) => true,
        _ => false,
    }
}

impl CoseKey {
    /// Whether the bytes that `to_vec` returns decode to this key: its type isn't the reserved
    /// number 0, and its map has at most 256 levels. Allocates nothing.
    pub fn is_readable(&self) -> bool
        ensures { result ≡ is_key_readable (key_parts self.now) }
    {
        !is_reserved(self.kty()) && key_depth(self) <= MAX_DEPTH
    }
}
