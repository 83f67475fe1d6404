//! Encodings that are decoded to the value again.
ghost use Rattle.std.specs.Prelude.{◌≡◌, None};
ghost use Rattle.passkey_kinds.specs.Words.{null, IsReadBack, record_kind};

use crate::{FromCbor, Record, ToCbor};
use passkey_bytes::{Bytes, List, Map, Text};
use passkey_iana::Algorithm;
use passkey_webauthn::{AuthenticatorTransport, PublicKeyCredentialType};

/// A type whose encoded values can be decoded again, and which encodes no value as null.
pub trait ReadBack: FromCbor + ToCbor {
    /// The value that the encoding of a value decodes to.
    ghost normal: { Self → Self } = { λ x. x };

    /// The encoding of a value decodes to its normal form. Does nothing.
    fn read_back()
        ensures back { IsReadBack Self.typed.of Self.tree Self.fits (λ x. Self.view (normal x)) }
        ensures not_null { Self.typed.of null ≡ None };
}

/// A record whose encoding can be decoded again.
pub trait RecordReadBack: Record + ToCbor {
    /// The record that the encoding of a record decodes to.
    ghost normal: { Self → Self } = { λ x. x };

    /// The encoding of a record decodes to its normal form. Does nothing.
    fn record_back()
        ensures { IsReadBack (record_kind Self.fields) Self.ToCbor.tree Self.fits (λ x. Self.parts (normal x)) };
}

impl<R: RecordReadBack> ReadBack for R {
    ghost normal = { R.normal };

    fn read_back() {
        R::record_back();
    }
}

impl ReadBack for bool {
    #[tactic(auto, using(crate::proofs::LeafBack::truth_back))]
    fn read_back() {}
}

impl ReadBack for u8 {
    #[tactic(auto, using(crate::proofs::LeafBack::byte_back))]
    fn read_back() {}
}

impl ReadBack for u32 {
    #[tactic(auto, using(crate::proofs::LeafBack::word_back))]
    fn read_back() {}
}

impl ReadBack for Text {
    #[tactic(auto, using(crate::proofs::LeafBack::text_back))]
    fn read_back() {}
}

impl ReadBack for Bytes {
    #[tactic(auto, using(crate::proofs::LeafBack::bytes_back))]
    fn read_back() {}
}

impl ReadBack for Algorithm {
    #[tactic(auto, using(crate::proofs::LeafBack::algorithm_back))]
    fn read_back() {}
}

impl ReadBack for PublicKeyCredentialType {
    #[tactic(auto, using(crate::proofs::LeafBack::credential_type_back))]
    fn read_back() {}
}

impl ReadBack for AuthenticatorTransport {
    #[tactic(auto, using(crate::proofs::LeafBack::transport_back))]
    fn read_back() {}
}

impl<T: ReadBack> ReadBack for List<T> {
    ghost use Rattle.std.specs.Prelude.{map};

    ghost normal = { λ xs. map T.normal xs };

    fn read_back() {
        T::read_back();
    }
}

impl<T: ReadBack> ReadBack for Map<Bytes, T> {
    ghost use Rattle.passkey_kinds.specs.Kind.{map_values};

    ghost normal = { λ m. map_values T.normal m };

    fn read_back() {
        T::read_back();
    }
}

impl ReadBack for [u8; 32] {
    #[tactic(auto, using(crate::proofs::LeafBack::numbers_back))]
    fn read_back() {}
}
