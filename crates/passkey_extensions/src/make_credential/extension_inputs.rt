//! Extension inputs of authenticatorMakeCredential requests.
ghost use Rattle.std.specs.Prelude.{nat_le, ◌≡◌, true};
ghost use Rattle.passkey_kinds.specs.Numbered.{member_depth};
ghost use Rattle.passkey_kinds.specs.Words.{places_of, depth};
ghost use Rattle.passkey_core.specs.SignedOutputs.{where_some};
ghost use Rattle.passkey_extensions.specs.MakeExtensions.{MakeExtensionsParts, make_extensions_fields, make_extensions_parts};
ghost use Rattle.passkey_extensions.specs.MakeExtensions.{no_make_extensions, has_make_extension, MakeExtensionsFit};
ghost use Rattle.passkey_extensions.specs.MakeExtensions.{make_extensions_members, make_extensions_tree};

use crate::{AuthenticatorPrfInputs, HmacGetSecretInput};
use passkey_cbor::MAX_DEPTH;
use passkey_kinds::{Record, RecordReadBack, Refusal, Row, Sink, Source, ToCborMap, set};
use passkey_memory::OutOfMemory;
use std::alloc::Global;

/// The extension inputs of an authenticatorMakeCredential request (CTAP 2.1, section 6.1). `None`
/// means that the input is absent; null also decodes to `None`.
#[derive(Debug, Drop, PartialEq)]
pub struct ExtensionInputs {
    /// `hmac-secret`: whether the new credential is to support the extension.
    pub hmac_secret: Option<bool>,
    /// `hmac-secret-mc` (CTAP 2.2): one or two salts, encrypted, for outputs at the registration.
    pub hmac_secret_mc: Option<HmacGetSecretInput>,
    /// `prf`: the salts, unencrypted.
    pub prf: Option<AuthenticatorPrfInputs>,
}

impl ExtensionInputs {
    /// Returns no inputs.
    pub fn empty() -> ExtensionInputs
        ensures { result ≡ no_make_extensions }
    {
        ExtensionInputs {
            hmac_secret: None,
            hmac_secret_mc: None,
            prf: None,
        }
    }

    /// Returns whether the encoding of the inputs has fewer than `MAX_DEPTH` nesting levels, so that a
    /// message with them has at most as many. Allocates nothing.
    pub fn fits_in_message(&self) -> bool
        ensures { result ≡ nat_le (depth (make_extensions_tree (make_extensions_parts self.now))) member_depth }
    {
        match &self.hmac_secret_mc {
            Some(input) => input.is_within(MAX_DEPTH - 2),
            None => true,
        }
    }

    /// Returns the inputs, or `None` if all are absent.
    pub fn zip_contents(self) -> Option<ExtensionInputs>
        ensures { result ≡ where_some (has_make_extension self) self }
    {
        if self.hmac_secret.is_some() || self.hmac_secret_mc.is_some() || self.prf.is_some() {
            Some(self)
        } else {
            None
        }
    }
}

impl Record for ExtensionInputs {
    ghost Parts = { MakeExtensionsParts };

    ghost parts = { make_extensions_parts };

    ghost fields = { make_extensions_fields };

    ghost tree = { make_extensions_tree };

    ghost coherent = { λ e. true };

    fn is_numbered() -> bool {
        false
    }

    fn rows() -> &'static [Row] {
        &[
            Row::Optional(3, "prf"),
            Row::Optional(1, "hmac-secret"),
            Row::Optional(2, "hmac-secret-mc"),
        ]
    }

    fn blank(_alloc: Global) -> ExtensionInputs {
        ExtensionInputs::empty()
    }

    fn put<S: Source>(&mut self, alloc: Global, number: u8, source: &mut S) -> Result<(), Refusal> {
        match number {
            1 => set(&mut self.hmac_secret, alloc, source),
            2 => set(&mut self.hmac_secret_mc, alloc, source),
            3 => set(&mut self.prf, alloc, source),
            _ => Err(Refusal::Refused),
        }
    }
}

impl ToCborMap for ExtensionInputs {
    ghost places = { λ e. places_of make_extensions_members (make_extensions_parts e) };

    ghost holds = { λ e. MakeExtensionsFit (make_extensions_parts e) };

    #[tactic(auto, using(passkey_kinds::proofs::Lists::option_twice, passkey_kinds::proofs::Lists::where_twice))]
    fn put_members<S: Sink>(&self, alloc: Global, sink: &mut S) -> Result<(), OutOfMemory> {
        sink.put_some(alloc, "prf", &self.prf)?;
        sink.put_some(alloc, "hmac-secret", &self.hmac_secret)?;
        sink.put_some(alloc, "hmac-secret-mc", &self.hmac_secret_mc)?;
        Ok(())
    }

    fn ordered() {}
}

impl RecordReadBack for ExtensionInputs {
    #[tactic(auto, using(crate::proofs::Extensions::make_extensions_back))]
    fn record_back() {}
}
