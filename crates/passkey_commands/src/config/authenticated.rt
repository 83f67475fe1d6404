//! What pinUvAuthParam authenticates in requests of authenticatorConfig.
ghost use Rattle.std.specs.Prelude.{◌++◌, ◌∷◌, [], IfOk, replicate};
ghost use Rattle.passkey_kinds.specs.LentItem.{IsFollowed};
ghost use Rattle.passkey_kinds.specs.Numbered.{numbered_fields};
ghost use Rattle.passkey_kinds.specs.Words.{table_of};
ghost use Rattle.passkey_commands.specs.config.CfgRequest.{cfg_request};
ghost use Rattle.passkey_commands.specs.config.SubCommand.{sub_command_byte};

use crate::config::Request;
use passkey_kinds::{Code, OutOfMemory, followed_by_item};
use std::alloc::Global;

impl Request {
    /// Returns the bytes that `pin_uv_auth_param` authenticates with the pinUvAuthToken: 32 bytes
    /// 0xFF, 0x0D, the subcommand's number and, if the request has subCommandParams, their encoding
    /// (CTAP 2.1, section 6.11). They are taken from `request`, the encoding of this request, as they
    /// are there: an authenticator has what it received, and a platform what it encoded before it
    /// had `pin_uv_auth_param`. Returns `OutOfMemory` if an allocation fails.
    pub fn authenticated_bytes(&self, alloc: Global, request: &[u8]) -> Result<Vec<u8>, OutOfMemory>
        ensures { IfOk result (λ bytes. IsFollowed (table_of (numbered_fields cfg_request)) 2 request.now
            (replicate 32 0xFF ++ 0x0D ∷ sub_command_byte self.now.sub_command ∷ []) bytes.items) }
    {
        let mut front = [0xff; 34];
        front[32] = 0x0d;
        front[33] = self.sub_command.byte();
        followed_by_item::<Request>(alloc, &front, request, 2)
    }
}
