//! Messages that can be repaired.
ghost use Rattle.std.specs.Prelude.{◌≡◌, List, map};
ghost use Rattle.passkey_repair.specs.messages.Edit.{Edit};
ghost use Rattle.passkey_repair.specs.messages.Views.{edit_of};

use crate::messages::Repair;

/// A message that is known to be sent in forms that its table refuses.
pub trait Repairable {
    /// The edits of its repairs.
    ghost edits: { List Edit };

    /// Returns the repairs, in the order in which they are tried.
    fn repairs() -> &'static [Repair]
        ensures { map edit_of result.now ≡ edits };
}
