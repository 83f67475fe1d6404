//! Records whose known deviations are repaired.
ghost use Rattle.std.specs.Prelude.{◌≡◌, List, map};
ghost use Rattle.passkey_repair.specs.json.Edits.{Edit, edit_of};

use crate::json::repair::Repair;
use passkey_json::PlainJsonRecord;
use passkey_webauthn_json::credentials::{AuthenticatorResponse, PublicKeyCredential};
use passkey_webauthn_json::options::CredentialOptions;

/// A record whose known deviations are repaired.
pub trait RepairsJson: PlainJsonRecord {
    /// The repairs, in the order in which they are tried.
    ghost edits: { List Edit };

    /// Returns the repairs, in the order in which they are tried.
    fn repairs() -> &'static [Repair]
        ensures { map edit_of result.now ≡ edits };
}

/// A record inside the one that is repaired: options inside the argument of a call, or a response
/// inside a credential.
pub trait PartRepairs: PlainJsonRecord {
    /// The repairs of the record around it.
    ghost edits_around: { List Edit };

    /// Returns the repairs of the record around it, in the order in which they are tried.
    fn repairs_around() -> &'static [Repair]
        ensures { map edit_of result.now ≡ edits_around };
}

impl<O: PartRepairs> RepairsJson for CredentialOptions<O> {
    ghost edits = { O.edits_around };

    fn repairs() -> &'static [Repair] {
        O::repairs_around()
    }
}

impl<R: AuthenticatorResponse + PartRepairs> RepairsJson for PublicKeyCredential<R> {
    ghost edits = { R.edits_around };

    fn repairs() -> &'static [Repair] {
        R::repairs_around()
    }
}
