//! Extension inputs of authenticatorGetAssertion requests.
ghost use Rattle.std.specs.Prelude.{nat_le, ◌≡◌, true};
ghost use Rattle.passkey_kinds.specs.Numbered.{member_depth};
ghost use Rattle.passkey_kinds.specs.Words.{places_of, depth};
ghost use Rattle.passkey_core.specs.SignedOutputs.{where_some};
ghost use Rattle.passkey_extensions.specs.GetExtensions.{GetExtensionsParts, get_extensions_fields, get_extensions_parts};
ghost use Rattle.passkey_extensions.specs.GetExtensions.{no_get_extensions, has_get_extension, GetExtensionsFit};
ghost use Rattle.passkey_extensions.specs.GetExtensions.{get_extensions_members, get_extensions_tree};

use crate::{AuthenticatorPrfInputs, HmacGetSecretInput};
use passkey_cbor::MAX_DEPTH;
use passkey_kinds::{Record, RecordReadBack, Refusal, Row, Sink, Source, ToCborMap, set_tolerated};
use passkey_memory::OutOfMemory;
use std::alloc::Global;

/// The extension inputs of an authenticatorGetAssertion request (CTAP 2.1, section 6.2). `None`
/// means that the input is absent; an input that can't be decoded, such as null, also decodes to
/// `None`.
#[derive(Debug, Drop)]
pub struct ExtensionInputs {
    /// `hmac-secret`: one or two salts, encrypted.
    pub hmac_secret: Option<HmacGetSecretInput>,
    /// `prf`: the salts, unencrypted.
    pub prf: Option<AuthenticatorPrfInputs>,
}

impl ExtensionInputs {
    /// Returns no inputs.
    pub fn empty() -> ExtensionInputs
        ensures { result ≡ no_get_extensions }
    {
        ExtensionInputs {
            hmac_secret: None,
            prf: None,
        }
    }

    /// Returns whether the encoding of the inputs has fewer than `MAX_DEPTH` nesting levels, so that a
    /// message with them has at most as many. Allocates nothing.
    pub fn fits_in_message(&self) -> bool
        ensures { result ≡ nat_le (depth (get_extensions_tree (get_extensions_parts self.now))) member_depth }
    {
        match &self.hmac_secret {
            Some(input) => input.is_within(MAX_DEPTH - 2),
            None => true,
        }
    }

    /// Returns the inputs, or `None` if all are absent.
    pub fn zip_contents(self) -> Option<ExtensionInputs>
        ensures { result ≡ where_some (has_get_extension self) self }
    {
        if self.hmac_secret.is_some() || self.prf.is_some() {
            Some(self)
        } else {
            None
        }
    }
}

impl Record for ExtensionInputs {
    ghost Parts = { GetExtensionsParts };

    ghost parts = { get_extensions_parts };

    ghost fields = { get_extensions_fields };

    ghost tree = { get_extensions_tree };

    ghost coherent = { λ e. true };

    fn is_numbered() -> bool {
        false
    }

    fn rows() -> &'static [Row] {
        &[Row::Optional(2, "prf"), Row::Optional(1, "hmac-secret")]
    }

    fn blank(_alloc: Global) -> ExtensionInputs {
        ExtensionInputs::empty()
    }

    fn put<S: Source>(&mut self, alloc: Global, number: u8, source: &mut S) -> Result<(), Refusal> {
        match number {
            1 => set_tolerated(&mut self.hmac_secret, alloc, source),
            2 => set_tolerated(&mut self.prf, alloc, source),
            _ => Err(Refusal::Refused),
        }
    }
}

impl ToCborMap for ExtensionInputs {
    ghost places = { λ e. places_of get_extensions_members (get_extensions_parts e) };

    ghost holds = { λ e. GetExtensionsFit (get_extensions_parts e) };

    #[tactic(auto, using(passkey_kinds::proofs::Lists::option_twice, passkey_kinds::proofs::Lists::where_twice))]
    fn put_members<S: Sink>(&self, alloc: Global, sink: &mut S) -> Result<(), OutOfMemory> {
        sink.put_some(alloc, "prf", &self.prf)?;
        sink.put_some(alloc, "hmac-secret", &self.hmac_secret)?;
        Ok(())
    }

    fn ordered() {}
}

impl RecordReadBack for ExtensionInputs {
    #[tactic(auto, using(crate::proofs::Extensions::get_extensions_back))]
    fn record_back() {}
}
