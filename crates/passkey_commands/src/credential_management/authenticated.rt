//! What pinUvAuthParam authenticates in requests of authenticatorCredentialManagement.
ghost use Rattle.std.specs.Prelude.{◌∷◌, [], IfOk};
ghost use Rattle.passkey_kinds.specs.LentItem.{IsFollowed};
ghost use Rattle.passkey_kinds.specs.Numbered.{numbered_fields};
ghost use Rattle.passkey_kinds.specs.Words.{table_of};
ghost use Rattle.passkey_commands.specs.credential_management.CmRequest.{cm_request};
ghost use Rattle.passkey_commands.specs.credential_management.SubCommand.{sub_command_byte};

use crate::credential_management::Request;
use passkey_kinds::{Code, OutOfMemory, followed_by_item};
use std::alloc::Global;

impl Request {
    /// Returns the bytes that `pin_uv_auth_param` authenticates with the pinUvAuthToken: the
    /// subcommand's number and, if the request has subCommandParams, their encoding (CTAP 2.1,
    /// section 6.8). They are taken from `request`, the encoding of this request, as they are there:
    /// an authenticator has what it received, and a platform what it encoded before it had
    /// `pin_uv_auth_param`. Returns `OutOfMemory` if an allocation fails.
    pub fn authenticated_bytes(&self, alloc: Global, request: &[u8]) -> Result<Vec<u8>, OutOfMemory>
        ensures { IfOk result (λ bytes. IsFollowed (table_of (numbered_fields cm_request)) 2 request.now
            (sub_command_byte self.now.sub_command ∷ []) bytes.items) }
    {
        followed_by_item::<Request>(alloc, &[self.sub_command.byte()], request, 2)
    }
}
