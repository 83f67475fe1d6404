//! Puffgrit for C: messages that are decoded and encoded again, in the caller's memory. A slice is a
//! pointer and a length in C, and an allocator is nothing. No pointer is handed out, so nothing is to
//! be freed. `puffgrit.h` is made from these sources and those of `passkey_view_c` (`tools/header`).
#![tactic(auto)]

ghost use Rattle.std.specs.Prelude.{◌≡◌};

mod asked;
mod encode;
mod explain;
mod explain_json;
mod json;
mod rewrite;
mod status;
mod values;
mod verdict;
mod write;

pub use encode::puffgrit_encode;
pub use explain::puffgrit_explain;
pub use json::puffgrit_json;
pub use rewrite::puffgrit_rewrite;
pub use values::puffgrit_values;
pub use verdict::Refusal;

/// The version of this interface: 3. A call or a struct that changes raises it.
#[unsafe(no_mangle)]
pub extern "C" fn puffgrit_version() -> u32
    ensures { result ≡ 3 }
{
    3
}
