//! Options of authenticatorGetAssertion requests.
ghost use Rattle.std.specs.Prelude.{◌≡◌, true, false};
ghost use Rattle.passkey_ctap2.specs.GetRequest.{options, options_default};

use passkey_kinds::{PlainRecord, Refusal, Row, Sink, Source, set};
use passkey_memory::OutOfMemory;
use std::alloc::Global;

/// The options of an authenticatorGetAssertion request (CTAP 2.1, section 6.2). An absent option
/// has its default.
#[derive(Clone, Debug, Drop, PartialEq, Eq)]
pub struct Options {
    /// Whether user presence is required. True by default.
    pub up: bool,
    /// Whether user verification is required. False by default.
    pub uv: bool,
}

impl Default for Options {
    ghost is_default = { λ options. options ≡ options_default };

    /// Returns the defaults: `up` is true, `uv` is false.
    fn default() -> Options {
        Options {
            up: true,
            uv: false,
        }
    }
}

impl PlainRecord for Options {
    ghost table = { options };

    fn rows() -> &'static [Row] {
        &[Row::Optional(1, "up"), Row::Optional(2, "uv")]
    }

    fn blank(_alloc: Global) -> Options {
        Options::default()
    }

    fn put<S: Source>(&mut self, alloc: Global, number: u8, source: &mut S) -> Result<(), Refusal> {
        match number {
            1 => set(&mut self.up, alloc, source),
            2 => set(&mut self.uv, alloc, source),
            _ => Err(Refusal::Refused),
        }
    }

    fn put_members<S: Sink>(&self, alloc: Global, sink: &mut S) -> Result<(), OutOfMemory> {
        sink.put(alloc, "up", &self.up)?;
        sink.put(alloc, "uv", &self.uv)?;
        Ok(())
    }

    #[tactic(auto, using(crate::proofs::GetMessages::options_law))]
    fn lawful() {}
}
