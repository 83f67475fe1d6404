//! Encoding credential protection policies under their names.
ghost use Rattle.std.specs.Prelude.{◌≡◌, ◌<◌, ◌^◌, OnOk, codes, option_map};
ghost use Rattle.passkey_commands.specs.credential_management.CredProtect.{cred_protect_byte};
ghost use Rattle.passkey_kinds.specs.Words.{IfPresent, MemberAccepted, number_tree, put_one, text_string};

use passkey_commands::credential_management::CredProtect;
use passkey_kinds::{Code, OutOfMemory, Sink};
use std::alloc::Global;

/// Puts the member `credProtect` if the policy is present. Returns `OutOfMemory` if an allocation
/// fails.
#[tactic(auto, unfolding(passkey_kinds::specs::Tree::put_one))]
pub(crate) fn put_level<S: Sink>(
    sink: &mut S,
    alloc: Global,
    level: &Option<CredProtect>,
) -> Result<(), OutOfMemory>
    ensures put { OnOk result (S.state sink.new ≡ put_one S.step (S.state sink.old) (text_string (codes "credProtect"))
        (option_map (λ x. number_tree (cred_protect_byte x)) level.now)) }
    ensures accepts { OnOk result (MemberAccepted S.Accepts (text_string (codes "credProtect"))
        (option_map (λ x. number_tree (cred_protect_byte x)) level.now)) }
    ensures fits { OnOk result (S.Encodes → IfPresent (λ x. cred_protect_byte x < 2 ^ 8) level.now) }
{
    match level {
        Some(level) => sink.put(alloc, "credProtect", &level.byte()),
        None => Ok(()),
    }
}
