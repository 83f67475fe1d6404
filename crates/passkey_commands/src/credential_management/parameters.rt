//! Parameters of subcommands of authenticatorCredentialManagement.
ghost use Rattle.std.specs.Prelude.{None};
ghost use Rattle.passkey_commands.specs.credential_management.CmParameters.{cm_parameters};

use passkey_bytes::Bytes;
use passkey_extensions::PublicKeyCredentialUserEntity;
use passkey_kinds::{
    Kept, OutOfMemory, Refusal, Row, Sink, Source, TableMessage, TableRecord, set,
};
use passkey_webauthn::PublicKeyCredentialDescriptor;
use std::alloc::Global;

/// The parameters of a subcommand of authenticatorCredentialManagement (CTAP 2.1, section 6.8).
/// Which ones a subcommand requires isn't checked. `None` means that the member is absent; null
/// also decodes to `None`.
#[derive(Debug, Default, Drop)]
pub struct Parameters {
    /// 0x01: `rpIDHash`, the SHA-256 hash of the relying party id, 32 bytes. The length isn't
    /// checked.
    pub rp_id_hash: Option<Bytes>,
    /// 0x02: the descriptor of a credential.
    pub credential_id: Option<PublicKeyCredentialDescriptor>,
    /// 0x03: the user account with its new names.
    pub user: Option<PublicKeyCredentialUserEntity>,
}

impl TableRecord for Parameters {
    ghost table = { cm_parameters };

    fn is_numbered() -> bool {
        true
    }

    fn rows() -> &'static [Row] {
        &[
            Row::Optional(1, "rpIDHash"),
            Row::Optional(2, "credentialID"),
            Row::Optional(3, "user"),
        ]
    }

    fn blank(_alloc: Global) -> Parameters {
        Parameters::default()
    }

    fn put<S: Source>(&mut self, alloc: Global, number: u8, source: &mut S) -> Result<(), Refusal> {
        match number {
            1 => set(&mut self.rp_id_hash, alloc, source),
            2 => set(&mut self.credential_id, alloc, source),
            3 => set(&mut self.user, alloc, source),
            _ => Err(Refusal::Refused),
        }
    }

    fn put_members<S: Sink>(&self, alloc: Global, sink: &mut S) -> Result<(), OutOfMemory> {
        sink.put_some(alloc, 1_u8, &self.rp_id_hash)?;
        sink.put_some(alloc, 2_u8, &self.credential_id)?;
        sink.put_some(alloc, 3_u8, &self.user)?;
        Ok(())
    }

    #[tactic(auto, using(crate::proofs::CredentialManagement::cm_parameters_law))]
    fn lawful() {}
}

impl TableMessage for Parameters {
    ghost cost = { 7 };

    fn kept(&self) -> Option<&Kept> {
        None
    }

    #[tactic(auto, using(crate::proofs::CredentialManagement::cm_parameters_law))]
    fn is_message() {}
}
