//! What pinUvAuthParam authenticates in requests of authenticatorBioEnrollment.
ghost use Rattle.std.specs.Prelude.{IfOk, option_map};
ghost use Rattle.passkey_commands.specs.bio_enrollment.Authenticated.{Authenticates};

use crate::bio_enrollment::Request;
use passkey_kinds::{Code, OutOfMemory, followed_by_item};
use std::alloc::Global;

impl Request {
    /// Returns the bytes that `pin_uv_auth_param` authenticates with the pinUvAuthToken: the
    /// modality's number, the subcommand's and, if the request has subCommandParams, their encoding
    /// (CTAP 2.1, section 6.7). They are taken from `request`, the encoding of this request, as they
    /// are there: an authenticator has what it received, and a platform what it encoded before it
    /// had `pin_uv_auth_param`. Returns `None` if the request has no modality or no subcommand, and
    /// `OutOfMemory` if an allocation fails.
    pub fn authenticated_bytes(
        &self,
        alloc: Global,
        request: &[u8],
    ) -> Result<Option<Vec<u8>>, OutOfMemory>
        ensures { IfOk result (λ found. Authenticates self.now request.now (option_map (λ bytes. bytes.items) found)) }
    {
        let Some(modality) = &self.modality else {
            return Ok(None);
        };
        let Some(sub_command) = &self.sub_command else {
            return Ok(None);
        };
        let front = [modality.byte(), sub_command.byte()];
        Ok(Some(followed_by_item::<Request>(alloc, &front, request, 3)?))
    }
}
