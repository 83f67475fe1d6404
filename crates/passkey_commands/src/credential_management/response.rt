//! authenticatorCredentialManagement responses.
ghost use Rattle.passkey_commands.specs.credential_management.CmResponse.{cm_response, normal_cm_response};

use crate::credential_management::CredProtect;
use passkey_bytes::Bytes;
use passkey_extensions::{PublicKeyCredentialRpEntity, PublicKeyCredentialUserEntity};
use passkey_kinds::{
    Kept, OutOfMemory, Refusal, Row, Sink, Source, TableMessage, TableRecord, put_some_code, set,
    set_some_code,
};
use passkey_webauthn::PublicKeyCredentialDescriptor;
use std::alloc::Global;

/// An authenticatorCredentialManagement response (CTAP 2.1, section 6.8). `None` means that the
/// member is absent; null also decodes to `None`.
#[derive(Debug, Default, Drop)]
pub struct Response {
    /// 0x01: the number of discoverable credentials on the authenticator.
    pub existing_resident_credentials_count: Option<u32>,
    /// 0x02: an upper bound of the number of discoverable credentials that the authenticator still
    /// has room for.
    pub max_possible_remaining_resident_credentials_count: Option<u32>,
    /// 0x03: the relying party.
    pub rp: Option<PublicKeyCredentialRpEntity>,
    /// 0x04: `rpIDHash`, the SHA-256 hash of the relying party id, 32 bytes. The length isn't
    /// checked.
    pub rp_id_hash: Option<Bytes>,
    /// 0x05: the number of relying parties with a discoverable credential.
    pub total_rps: Option<u32>,
    /// 0x06: the user account of the credential.
    pub user: Option<PublicKeyCredentialUserEntity>,
    /// 0x07: the descriptor of the credential.
    pub credential_id: Option<PublicKeyCredentialDescriptor>,
    /// 0x08: the credential public key, a COSE key.
    pub public_key: Option<Kept>,
    /// 0x09: the number of the relying party's credentials.
    pub total_credentials: Option<u32>,
    /// 0x0A: the credential protection policy.
    pub cred_protect: Option<CredProtect>,
    /// 0x0B: `largeBlobKey`, 32 bytes. The length isn't checked.
    pub large_blob_key: Option<Bytes>,
    /// 0x0C: whether the credential may be used for third-party payments (CTAP 2.2).
    pub third_party_payment: Option<bool>,
}

impl TableRecord for Response {
    ghost table = { cm_response };

    ghost kept = { λ r. r.public_key };

    ghost normal = { normal_cm_response };

    fn is_numbered() -> bool {
        true
    }

    fn rows() -> &'static [Row] {
        &[
            Row::Optional(1, "existingResidentCredentialsCount"),
            Row::Optional(2, "maxPossibleRemainingResidentCredentialsCount"),
            Row::Optional(3, "rp"),
            Row::Optional(4, "rpIDHash"),
            Row::Optional(5, "totalRPs"),
            Row::Optional(6, "user"),
            Row::Optional(7, "credentialID"),
            Row::Optional(8, "publicKey"),
            Row::Optional(9, "totalCredentials"),
            Row::Optional(10, "credProtect"),
            Row::Optional(11, "largeBlobKey"),
            Row::Optional(12, "thirdPartyPayment"),
        ]
    }

    fn blank(_alloc: Global) -> Response {
        Response::default()
    }

    fn put<S: Source>(&mut self, alloc: Global, number: u8, source: &mut S) -> Result<(), Refusal> {
        match number {
            1 => set(&mut self.existing_resident_credentials_count, alloc, source),
            2 => set(
                &mut self.max_possible_remaining_resident_credentials_count,
                alloc,
                source,
            ),
            3 => set(&mut self.rp, alloc, source),
            4 => set(&mut self.rp_id_hash, alloc, source),
            5 => set(&mut self.total_rps, alloc, source),
            6 => set(&mut self.user, alloc, source),
            7 => set(&mut self.credential_id, alloc, source),
            8 => set(&mut self.public_key, alloc, source),
            9 => set(&mut self.total_credentials, alloc, source),
            10 => set_some_code(&mut self.cred_protect, alloc, source),
            11 => set(&mut self.large_blob_key, alloc, source),
            12 => set(&mut self.third_party_payment, alloc, source),
            _ => Err(Refusal::Refused),
        }
    }

    fn put_members<S: Sink>(&self, alloc: Global, sink: &mut S) -> Result<(), OutOfMemory> {
        sink.put_some(alloc, 1_u8, &self.existing_resident_credentials_count)?;
        sink.put_some(
            alloc,
            2_u8,
            &self.max_possible_remaining_resident_credentials_count,
        )?;
        sink.put_some(alloc, 3_u8, &self.rp)?;
        sink.put_some(alloc, 4_u8, &self.rp_id_hash)?;
        sink.put_some(alloc, 5_u8, &self.total_rps)?;
        sink.put_some(alloc, 6_u8, &self.user)?;
        sink.put_some(alloc, 7_u8, &self.credential_id)?;
        sink.put_some(alloc, 8_u8, &self.public_key)?;
        sink.put_some(alloc, 9_u8, &self.total_credentials)?;
        put_some_code(sink, alloc, 10, &self.cred_protect)?;
        sink.put_some(alloc, 11_u8, &self.large_blob_key)?;
        sink.put_some(alloc, 12_u8, &self.third_party_payment)?;
        Ok(())
    }

    #[tactic(auto, using(crate::proofs::CredentialManagement::cm_response_law))]
    fn lawful() {}
}

impl TableMessage for Response {
    ghost cost = { 7 };

    fn kept(&self) -> Option<&Kept> {
        self.public_key.as_ref()
    }

    #[tactic(auto, using(crate::proofs::CredentialManagement::cm_response_law))]
    fn is_message() {}
}
